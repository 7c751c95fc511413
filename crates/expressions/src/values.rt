// Values.
// Kept, here and below: scope and contexts are parameters as in booleans.
ghost use Rattle.std.specs.Prelude.{◌≡◌, ◌+◌};
ghost use Rattle.grammar.specs.Bytes.{statistic_code};
ghost use Rattle.references.specs.Promises.{environment_of};
ghost use Rattle.scopes.specs.Scopes.{scope_of};
ghost use Rattle.grammar.specs.Reader.{read};
ghost use Rattle.wire.specs.Classes.{value_class};
ghost use Rattle.wire.specs.declared.codes.ValueCode.TheVariants.{Arithmetic, Negate, Count};
ghost use Rattle.expressions.specs.Promises.{Ready, StatisticRead, ValueRead, leveled};

use crate::clauses::read_clauses;
use crate::fits::{arithmetic, counted, negation};
use crate::heads::code_at;
use crate::rses::read_rse;
use grammar::{Cursor, Kind, Read, Role};
use messages::declared::version;
use openings::beside::Beside;
use openings::opening::read_head;
use references::literal::read_literal;
use references::reference::read_reference;
use scopes::scope::SCOPE;
use tables::contexts::close;
use wire::blr::{AVERAGE, COUNT, MAXIMUM, MINIMUM, TOTAL};
use wire::codes::{Operator, Statistic, ValueCode};

// Kept: no `From` for u8, as quantifier_code of booleans.
fn statistic_code(k: Statistic) -> u8
    ensures { result ≡ statistic_code k }
{
    match k {
        Statistic::Average => AVERAGE,
        Statistic::Maximum => MAXIMUM,
        Statistic::Minimum => MINIMUM,
        Statistic::Total => TOTAL,
    }
}

// A statistic after its code at a place: an rse of one stream and a number, and its context is in scope in both. In a frame of its own: its copy
// of the scope would stand in that of each value.
#[inline(never)]
#[cycle(reading)]
fn read_statistic(
    beside: &Beside,
    scope: &[u16; SCOPE],
    contexts: &mut [u32],
    k: Statistic,
    at: usize,
    c: Cursor,
    levels: usize,
) -> Read<Option<Kind>>
    requires { c.at ≡ at + 1 }
    ensures { Ready beside.now.request.now beside.now.dictionary.now scope.now c (levels + 1) →
        StatisticRead levels (environment_of beside.now.dictionary.now beside.now.around.now)
        (scope_of beside.now.dictionary.now scope.now) at k beside.now.request.now c
        contexts.old contexts.new result }
{
    let mut inside = *scope;
    let first = read_head(beside, contexts, &mut inside, 1, statistic_code(k), c)?;
    let (_, second) = read_clauses(beside, &inside, contexts, first, levels)?;
    let (x, after) = read_value(beside, &inside, contexts, second, levels)?;
    let (number, end) = negation(x, at, after)?;
    close(contexts, c.contexts as usize, first, Ok(end));
    Ok((number, end))
}

// The two values of an operator that stands at a cursor, and what comes of them. In a frame of its own, as in the two below: what it works with
// would stand in that of each value.
#[inline(never)]
#[cycle(reading)]
fn read_arithmetic(
    beside: &Beside,
    scope: &[u16; SCOPE],
    contexts: &mut [u32],
    o: Operator,
    c: Cursor,
    first: Cursor,
    levels: usize,
) -> Read<Option<Kind>>
    requires { leveled value_class levels beside.now.request.now c ≡ read (Arithmetic o) first }
    ensures { Ready beside.now.request.now beside.now.dictionary.now scope.now c levels →
        ValueRead levels (environment_of beside.now.dictionary.now beside.now.around.now)
        (scope_of beside.now.dictionary.now scope.now) beside.now.request.now c
        contexts.old contexts.new result }
{
    let below = levels - 1;
    let (x, second) = read_value(beside, scope, contexts, first, below)?;
    let (y, after) = read_value(beside, scope, contexts, second, below)?;
    arithmetic(version(beside.around), o, x, y, c.at, after)
}

// The number of a negation that stands at a cursor.
#[inline(never)]
#[cycle(reading)]
fn read_negation(
    beside: &Beside,
    scope: &[u16; SCOPE],
    contexts: &mut [u32],
    c: Cursor,
    first: Cursor,
    levels: usize,
) -> Read<Option<Kind>>
    requires { leveled value_class levels beside.now.request.now c ≡ read Negate first }
    ensures { Ready beside.now.request.now beside.now.dictionary.now scope.now c levels →
        ValueRead levels (environment_of beside.now.dictionary.now beside.now.around.now)
        (scope_of beside.now.dictionary.now scope.now) beside.now.request.now c
        contexts.old contexts.new result }
{
    let (x, after) = read_value(beside, scope, contexts, first, levels - 1)?;
    negation(x, c.at, after)
}

// The rse of a count that stands at a cursor.
#[inline(never)]
#[cycle(reading)]
fn read_count(
    beside: &Beside,
    scope: &[u16; SCOPE],
    contexts: &mut [u32],
    c: Cursor,
    first: Cursor,
    levels: usize,
) -> Read<Option<Kind>>
    requires { leveled value_class levels beside.now.request.now c ≡ read Count first }
    ensures { Ready beside.now.request.now beside.now.dictionary.now scope.now c levels →
        ValueRead levels (environment_of beside.now.dictionary.now beside.now.around.now)
        (scope_of beside.now.dictionary.now scope.now) beside.now.request.now c
        contexts.old contexts.new result }
{
    counted(read_rse(beside, scope, contexts, COUNT, first, levels - 1))
}

// A value, with so many levels left for it.
#[cycle(reading)]
pub fn read_value(
    beside: &Beside,
    scope: &[u16; SCOPE],
    contexts: &mut [u32],
    c: Cursor,
    levels: usize,
) -> Read<Option<Kind>>
    ensures { Ready beside.now.request.now beside.now.dictionary.now scope.now c levels →
        ValueRead levels (environment_of beside.now.dictionary.now beside.now.around.now)
        (scope_of beside.now.dictionary.now scope.now) beside.now.request.now c
        contexts.old contexts.new result }
{
    let (k, first) = code_at::<ValueCode>(beside.request, c, levels)?;
    match k {
        ValueCode::Literal => {
            return read_literal(beside.request, version(beside.around), first);
        }
        ValueCode::Reference(code) => {
            return read_reference(
                beside.request,
                beside.dictionary,
                beside.around,
                scope,
                Role::AsValue,
                c.at,
                code,
                first,
            );
        }
        ValueCode::Arithmetic(o) => {
            return read_arithmetic(beside, scope, contexts, o, c, first, levels);
        }
        ValueCode::Negate => {
            return read_negation(beside, scope, contexts, c, first, levels);
        }
        ValueCode::Statistic(s) => {
            return read_statistic(beside, scope, contexts, s, c.at, first, levels - 1);
        }
        ValueCode::Count => {
            return read_count(beside, scope, contexts, c, first, levels);
        }
    }
}
