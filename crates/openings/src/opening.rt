// What opens contexts: streams, the head of an rse, and headings. Each context's row is written at once; its scope follows at its end.
// Kept, here and below: place and cursor change from call to call, and contexts and the scope below are written: a struct of them with
// the request would be made anew for each call: no plainer.
ghost use Rattle.std.specs.Prelude.{◌≡◌, ℕ, ◌+◌, List};
ghost use Rattle.dictionary.specs.Internal.Walk.{relation_at};
ghost use Rattle.grammar.specs.Statements.{streams, rse_head, send_heading, label_heading};
ghost use Rattle.grammar.specs.Internal.Steps.{cursor_of};
ghost use Rattle.references.specs.Promises.{environment_of};
ghost use Rattle.scopes.specs.Scopes.{scope_of};
ghost use Rattle.openings.specs.Streams.{relations};
ghost use Rattle.openings.specs.Openings.{Added, Updated, Prepared, OpensStreams, OpensHead, OpensHeading, OpensCoded, plain_reader};
ghost use Rattle.openings.specs.Headings.{FromFor, Modifies, Exchanges};

use crate::beside::Beside;
use crate::heads::Coded;
use crate::streams::{fresh_context, open_context, read_stream, stream_count};
use grammar::{Cursor, Passed, Read, Refusal};
use messages::declared::AROUND;
use scopes::scope::{
    Context, SCOPE, add_context, add_label, add_send, find, is_of_for, relation_of, set_target,
    updating,
};
use steps::{due_code, next_number};
use tables::contexts::put_context;
use wire::blr::{FOR, MODIFY, RSE, STORE};
use wire::bytes::word_at;
use wire::codes::StatementCode;
use wire::limits::MAX_STREAMS;
use wire::numbers::MessageNumber;
use wire::refused::Refused;

// The id of the relation whose entry stands at a place.
fn relation_id(dictionary: &[u8], place: usize) -> u32
    ensures { result ≡ (relation_at dictionary.now place).id }
{
    if place < dictionary.len() {
        word_at(dictionary, place + 4)
    } else {
        0
    }
}

// The row of a context, which comes into scope.
fn declare(
    dictionary: &[u8],
    contexts: &mut [u32],
    below: &mut [u16; SCOPE],
    x: Context,
    row: usize,
    place: usize,
)
    ensures { Added dictionary.now x row place contexts.old contexts.new below.old
        below.new }
{
    let relation = x.relation as usize;
    put_context(
        contexts,
        row,
        x.number,
        place,
        relation_id(dictionary, relation),
        x.opener,
    );
    add_context(below, x);
}

// So many streams that a code opens, whose contexts come into scope.
fn read_streams(
    request: &[u8],
    dictionary: &[u8],
    contexts: &mut [u32],
    below: &mut [u16; SCOPE],
    opener: u8,
    n: usize,
    c: Cursor,
) -> Passed
    ensures { Prepared request.now dictionary.now below.old c →
        OpensStreams opener (streams n (relations dictionary.now) opener (scope_of dictionary.now below.old)
        request.now c)
        dictionary.now c contexts.old contexts.new below.old below.new result }
{
    let mut at = c;
    for _ in 0..n {
        let (x, next) = read_stream(request, dictionary, below, opener, at)?;
        declare(dictionary, contexts, below, x, at.contexts as usize, at.at);
        at = next;
    }
    Ok(at)
}

// The head of an rse: its code, the count and the streams, so many at most. A code opens them, and their contexts come into scope.
pub fn read_head(
    beside: &Beside,
    contexts: &mut [u32],
    below: &mut [u16; SCOPE],
    most: usize,
    opener: u8,
    c: Cursor,
) -> Passed
    ensures { Prepared beside.now.request.now beside.now.dictionary.now below.old c →
        OpensHead opener (rse_head most (relations beside.now.dictionary.now) opener
        (scope_of beside.now.dictionary.now below.old) beside.now.request.now c)
        beside.now.dictionary.now c contexts.old contexts.new below.old below.new result }
{
    let first = due_code(beside.request, c, RSE, Refusal::NotDue)?;
    let (n, next) = stream_count(beside.request, most, first)?;
    read_streams(
        beside.request,
        beside.dictionary,
        contexts,
        below,
        opener,
        n as usize,
        next,
    )
}

// The relation of a context from a for, by its number, for the statement whose code stands at a place.
pub(crate) fn for_context(request: &[u8], scope: &[u16; SCOPE], at: usize, c: Cursor) -> Read<u16>
    ensures { FromFor scope.now at request.now c result }
{
    let (n, next) = next_number(request, c)?;
    let Some(i) = find(scope, n) else {
        return Err(Refused::new(Refusal::BadContext, c.at));
    };
    if !is_of_for(scope, i) {
        return Err(Refused::new(Refusal::Misplaced, at));
    }
    Ok((relation_of(scope, i), next))
}

// The two contexts of a modify, whose code stands at a place: the second has the relation of the first.
fn modify_context(request: &[u8], scope: &[u16; SCOPE], at: usize, c: Cursor) -> Read<Context>
    ensures { Modifies scope.now at request.now c result }
{
    let first = open_context(c, at)?;
    let (relation, second) = for_context(request, scope, at, first)?;
    let (number, last) = fresh_context(request, scope, second)?;
    Ok((
        Context {
            relation,
            number,
            opener: MODIFY,
        },
        last,
    ))
}

// The context that a store or a modify declares comes into scope, and is the nearest to be updated.
fn update(
    dictionary: &[u8],
    contexts: &mut [u32],
    below: &mut [u16; SCOPE],
    declared: Read<Context>,
    row: usize,
    place: usize,
) -> Passed
    ensures { Updated dictionary.now declared row place contexts.old contexts.new
        below.old below.new result }
{
    let (x, next) = declared?;
    declare(dictionary, contexts, below, x, row, place);
    set_target(below, x.number);
    Ok(next)
}

// The message of a send or a receive, whose code stands at a place.
#[tactic(auto, unfolding(grammar::specs::Statements::exchanged, grammar::specs::Values::message_byte, grammar::specs::Reader::tested))]
pub(crate) fn exchanged_message(
    request: &[u8],
    around: &[u32; AROUND],
    scope: &[u16; SCOPE],
    at: usize,
    c: Cursor,
) -> Read<MessageNumber>
    ensures { Exchanges around.now scope.now at request.now c result }
{
    if updating(scope) {
        return Err(Refused::new(Refusal::Misplaced, at));
    }
    let (m, next) = next_number(request, c)?;
    if messages::declared::find(around, m).is_none() {
        return Err(Refused::new(Refusal::BadMessage, c.at));
    }
    Ok((m, next))
}

// The heading of a statement that opens no scope: a loop, a handler or a receive.
#[tactic(auto, unfolding(grammar::specs::Statements::receive_heading))]
pub fn read_plain(request: &[u8], around: &[u32; AROUND], scope: &[u16; SCOPE], x: Coded) -> Passed
    ensures { (d : List ℕ) → result ≡ cursor_of (plain_reader (environment_of d around.now) (scope_of d scope.now)
        x.at x.code request.now x.after) }
{
    let c = x.after;
    match x.code {
        StatementCode::Loop | StatementCode::Handler => Ok(c),
        StatementCode::Receive => {
            let (_, next) = exchanged_message(request, around, scope, x.at, c)?;
            Ok(next)
        }
        _ => Err(Refused::new(Refusal::TooGreat, x.at)),
    }
}

// The message of a send, which is being sent below.
fn read_send(
    request: &[u8],
    around: &[u32; AROUND],
    below: &mut [u16; SCOPE],
    at: usize,
    c: Cursor,
) -> Passed
    ensures { (d ct : List ℕ) → Prepared request.now d below.old c →
        OpensHeading (send_heading (environment_of d around.now) (scope_of d below.old) at request.now c)
        d at c ct ct below.old below.new result }
{
    let (m, next) = exchanged_message(request, around, below, at, c)?;
    add_send(below, m);
    Ok(next)
}

// The number of a label, which is around below.
fn read_label(request: &[u8], below: &mut [u16; SCOPE], c: Cursor) -> Passed
    ensures { (d ct : List ℕ) (p : ℕ) → Prepared request.now d below.old c →
        OpensHeading (label_heading request.now c) d p c ct ct below.old below.new result }
{
    let (n, next) = next_number(request, c)?;
    add_label(below, n);
    Ok(next)
}

// What opens a scope, after the code of its statement: the head of a for's rse, or the heading of a modify, a send, a store or a label.
// What it opens comes into the scope below.
pub fn read_opened(
    beside: &Beside,
    contexts: &mut [u32],
    below: &mut [u16; SCOPE],
    x: Coded,
) -> Passed
    ensures { x.after.at ≡ x.at + 1 → Prepared beside.now.request.now beside.now.dictionary.now below.old x.after →
        OpensCoded x.code (environment_of beside.now.dictionary.now beside.now.around.now) beside.now.request.now
        beside.now.dictionary.now x.at x.after contexts.old contexts.new below.old
        below.new result }
{
    let c = x.after;
    let row = c.contexts as usize;
    match x.code {
        StatementCode::For => read_head(beside, contexts, below, MAX_STREAMS, FOR, c),
        StatementCode::Modify => {
            let declared = modify_context(beside.request, below, x.at, c);
            update(beside.dictionary, contexts, below, declared, row, x.at)
        }
        StatementCode::Send => read_send(beside.request, beside.around, below, x.at, c),
        StatementCode::Store => {
            let declared = read_stream(beside.request, beside.dictionary, below, STORE, c);
            update(beside.dictionary, contexts, below, declared, row, c.at)
        }
        StatementCode::Label => read_label(beside.request, below, c),
        _ => Err(Refused::new(Refusal::TooGreat, x.at)),
    }
}
