// The clauses of an rse: a boolean and a sort.
// Kept, here and below: scope and contexts are parameters as in booleans.
ghost use Rattle.std.specs.Prelude.{◌≡◌};
ghost use Rattle.references.specs.Promises.{environment_of};
ghost use Rattle.scopes.specs.Scopes.{scope_of};
ghost use Rattle.expressions.specs.Promises.{Ready, KeysRead, SortRead, MoreRead, ClausesRead};

use crate::booleans::read_boolean;
use crate::heads::{clause_at, direction_at};
use crate::values::read_value;
use grammar::{Cursor, Passed, Read};
use openings::beside::Beside;
use scopes::scope::SCOPE;
use steps::count_byte;
use wire::codes::ClauseCode;

// A boolean, a sort and the end.
const MOST_CLAUSES: usize = 3;

// What has stood before a clause: how many may follow, the place of the boolean, if one stood, and whether a sort.
#[derive(Clone, Copy)]
pub(crate) struct Stood {
    pub most: usize,
    pub such: Option<usize>,
    pub sorted: bool,
}

// The values of a sort, so many.
#[cycle(reading)]
fn read_keys(
    beside: &Beside,
    scope: &[u16; SCOPE],
    contexts: &mut [u32],
    c: Cursor,
    levels: usize,
    left: usize,
) -> Passed
    ensures { Ready beside.now.request.now beside.now.dictionary.now scope.now c levels →
        KeysRead left levels (environment_of beside.now.dictionary.now beside.now.around.now)
        (scope_of beside.now.dictionary.now scope.now) beside.now.request.now c
        contexts.old contexts.new result }
{
    if left == 0 {
        return Ok(c);
    }
    let first = direction_at(beside.request, c)?;
    let (_, next) = read_value(beside, scope, contexts, first, levels)?;
    read_keys(beside, scope, contexts, next, levels, left - 1)
}

// A sort after its code.
#[cycle(reading)]
fn read_sort(
    beside: &Beside,
    scope: &[u16; SCOPE],
    contexts: &mut [u32],
    c: Cursor,
    levels: usize,
) -> Passed
    ensures { Ready beside.now.request.now beside.now.dictionary.now scope.now c levels →
        SortRead levels (environment_of beside.now.dictionary.now beside.now.around.now)
        (scope_of beside.now.dictionary.now scope.now) beside.now.request.now c
        contexts.old contexts.new result }
{
    let (n, first) = count_byte(beside.request, c)?;
    read_keys(beside, scope, contexts, first, levels, n as usize)
}

// The clauses of an rse and its end, beside what has stood before; what is told is the place of the boolean.
#[cycle(reading)]
fn read_more(
    beside: &Beside,
    scope: &[u16; SCOPE],
    contexts: &mut [u32],
    c: Cursor,
    levels: usize,
    stood: Stood,
) -> Read<Option<usize>>
    ensures { Ready beside.now.request.now beside.now.dictionary.now scope.now c levels →
        MoreRead stood levels (environment_of beside.now.dictionary.now beside.now.around.now)
        (scope_of beside.now.dictionary.now scope.now) beside.now.request.now c
        contexts.old contexts.new result }
{
    let (k, first) = clause_at(
        beside.request,
        c,
        stood.most,
        stood.such.is_some(),
        stood.sorted,
    )?;
    let mut more = stood;
    more.most = stood.most - 1;
    match k {
        ClauseCode::Boolean => {
            let next = read_boolean(beside, scope, contexts, first, levels)?;
            more.such = Some(first.at);
            read_more(beside, scope, contexts, next, levels, more)
        }
        ClauseCode::Sort => {
            let next = read_sort(beside, scope, contexts, first, levels)?;
            more.sorted = true;
            read_more(beside, scope, contexts, next, levels, more)
        }
        ClauseCode::End => Ok((stood.such, first)),
    }
}

// The clauses of an rse and its end: at most a boolean and a sort, with so many levels left for what stands in them. What is told is the
// place of the boolean.
#[cycle(reading)]
pub fn read_clauses(
    beside: &Beside,
    scope: &[u16; SCOPE],
    contexts: &mut [u32],
    c: Cursor,
    levels: usize,
) -> Read<Option<usize>>
    ensures { Ready beside.now.request.now beside.now.dictionary.now scope.now c levels →
        ClausesRead levels (environment_of beside.now.dictionary.now beside.now.around.now)
        (scope_of beside.now.dictionary.now scope.now) beside.now.request.now c
        contexts.old contexts.new result }
{
    let nothing = Stood {
        most: MOST_CLAUSES,
        such: None,
        sorted: false,
    };
    read_more(beside, scope, contexts, c, levels, nothing)
}
