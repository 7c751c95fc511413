// What is in scope at a place: a lent array of numbers, which stays as it is below; what opens a scope lends another.
ghost use Rattle.std.specs.Prelude.{◌≡◌, ◌+◌, ◌<◌, ◌≤◌, eqb, take};
ghost use Rattle.wire.specs.Limits.{max_depth};
ghost use Rattle.wire.specs.Lists.{among, index_of};
ghost use Rattle.wire.specs.Options.{option_of};
ghost use Rattle.scopes.specs.Internal.Columns.{scope_numbers};
ghost use Rattle.scopes.specs.Scopes.{contexts_in, found_of, relation_place, is_of_for, updating_in, is_target};
ghost use Rattle.scopes.specs.Scopes.{numbers_at, send_numbers, label_numbers};
ghost use Rattle.scopes.specs.Scopes.{with_number, with_context, with_send, with_label, with_target};

use wire::blr::FOR;
use wire::limits::{MAX_CONTEXTS, MAX_DEPTH};
use wire::numbers::{ContextNumber, LabelNumber, MessageNumber};

// The columns of a scope: how many contexts, messages being sent and labels there are; 1 inside a store or a modify, and the number of the
// context of the nearest; then, each in the order of their openings, the numbers of the contexts, the codes of the statements that opened
// them (for, store or modify), the messages, the labels, and the places of the contexts' relations in the dictionary.
const CONTEXT_COUNT: usize = 0;

const SEND_COUNT: usize = 1;

const LABEL_COUNT: usize = 2;

const UPDATING: usize = 3;

const TARGET: usize = 4;

const NUMBERS: usize = 5;

const OPENERS: usize = 37;

const SENDS: usize = 69;

const LABELS: usize = 101;

const RELATIONS: usize = 133;

pub const SCOPE: usize = 165;

// A context: the place of its relation's entry in the dictionary, its number, and the code of the statement that opened it: for, store or
// modify.
#[derive(Clone, Copy, PartialEq, Eq)]
pub struct Context {
    pub relation: u16,
    pub number: ContextNumber,
    pub opener: u8,
}

// The index of a number among the first so many of a column.
fn position(column: &[u16], count: u16, n: u8) -> Option<usize>
    ensures { result ≡ option_of (index_of (λ x. eqb x n) (take count column.now)) }
{
    let number = u16::from(n);
    column
        .iter()
        .take(usize::from(count))
        .position(|x| *x == number)
}

// The index of the context of a number.
pub fn find(scope: &[u16; SCOPE], n: ContextNumber) -> Option<usize>
    ensures { result ≡ option_of (found_of (contexts_in scope.now) n.0) }
{
    position(&scope[NUMBERS..OPENERS], scope[CONTEXT_COUNT], n.0)
}

// The place of the relation's entry of the context of an index, as the scope has it.
pub fn relation_of(scope: &[u16; SCOPE], i: usize) -> u16
    ensures { result ≡ relation_place scope.now i }
{
    if i < MAX_CONTEXTS {
        scope[RELATIONS + i]
    } else {
        0
    }
}

// The same place as an index.
pub fn relation_at(scope: &[u16; SCOPE], i: usize) -> usize
    ensures { result ≡ relation_place scope.now i }
{
    usize::from(relation_of(scope, i))
}

// Whether a for opened the context of an index.
pub fn is_of_for(scope: &[u16; SCOPE], i: usize) -> bool
    ensures { result ≡ is_of_for scope.now i }
{
    i < MAX_CONTEXTS && scope[OPENERS + i] == u16::from(FOR)
}

// Whether a store or a modify is around.
pub fn updating(scope: &[u16; SCOPE]) -> bool
    ensures { result ≡ updating_in scope.now }
{
    scope[UPDATING] != 0
}

// Whether a number is the context of the nearest store or modify around.
pub fn is_target(scope: &[u16; SCOPE], n: ContextNumber) -> bool
    ensures { result ≡ is_target scope.now n.0 }
{
    updating(scope) && scope[TARGET] == u16::from(n.0)
}

// Whether a message is being sent.
pub fn has_send(scope: &[u16; SCOPE], m: MessageNumber) -> bool
    ensures { result ≡ among m.0 (send_numbers scope.now) }
{
    position(&scope[SENDS..LABELS], scope[SEND_COUNT], m.0).is_some()
}

// Whether a label is around.
pub fn has_label(scope: &[u16; SCOPE], n: LabelNumber) -> bool
    ensures { result ≡ among n.0 (label_numbers scope.now) }
{
    position(&scope[LABELS..RELATIONS], scope[LABEL_COUNT], n.0).is_some()
}

// One context more; a full scope stays as it is.
pub fn add_context(scope: &mut [u16; SCOPE], x: Context)
    ensures { scope.new ≡ with_context scope.old x }
{
    let count = usize::from(scope[CONTEXT_COUNT]);
    if count < MAX_CONTEXTS {
        scope[NUMBERS + count] = u16::from(x.number.0);
        scope[OPENERS + count] = u16::from(x.opener);
        scope[RELATIONS + count] = x.relation;
        scope[CONTEXT_COUNT] = count as u16 + 1;
    }
}

// One number more among those from a place on that a column counts; 32 stay as they are.
fn add(scope: &mut [u16; SCOPE], counted: usize, start: usize, n: u8)
    requires { (counted < scope_numbers) × (start + max_depth ≤ scope_numbers) }
    ensures { scope.new ≡ with_number scope.old counted start n }
{
    let count = usize::from(scope[counted]);
    if count < MAX_DEPTH {
        scope[start + count] = u16::from(n);
        scope[counted] = count as u16 + 1;
    }
}

// One message more that is being sent.
pub fn add_send(scope: &mut [u16; SCOPE], m: MessageNumber)
    ensures { scope.new ≡ with_send scope.old m.0 }
{
    add(scope, SEND_COUNT, SENDS, m.0);
}

// One label more around.
pub fn add_label(scope: &mut [u16; SCOPE], n: LabelNumber)
    ensures { scope.new ≡ with_label scope.old n.0 }
{
    add(scope, LABEL_COUNT, LABELS, n.0);
}

// The context of a store or a modify is the nearest.
pub fn set_target(scope: &mut [u16; SCOPE], n: ContextNumber)
    ensures { scope.new ≡ with_target scope.old n.0 }
{
    scope[UPDATING] = 1;
    scope[TARGET] = u16::from(n.0);
}
