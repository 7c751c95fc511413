// The rse of one stream of an any, a unique or a count.
// Kept, here and below: scope and contexts are parameters as in booleans.
ghost use Rattle.std.specs.Prelude.{◌≡◌, ◌+◌};
ghost use Rattle.references.specs.Promises.{environment_of};
ghost use Rattle.scopes.specs.Scopes.{scope_of};
ghost use Rattle.expressions.specs.Promises.{Ready, RseRead};

use crate::clauses::read_clauses;
use grammar::{Cursor, Passed};
use openings::beside::Beside;
use openings::opening::read_head;
use scopes::scope::SCOPE;
use tables::contexts::close;

// An rse of one stream after the code that opens it, with so many levels left for what stands in it: its context is in scope up to its end.
#[cycle(reading)]
pub(crate) fn read_rse(
    beside: &Beside,
    scope: &[u16; SCOPE],
    contexts: &mut [u32],
    opener: u8,
    c: Cursor,
    levels: usize,
) -> Passed
    ensures { Ready beside.now.request.now beside.now.dictionary.now scope.now c (levels + 1) →
        RseRead levels (environment_of beside.now.dictionary.now beside.now.around.now)
        (scope_of beside.now.dictionary.now scope.now) opener beside.now.request.now c
        contexts.old contexts.new result }
{
    let mut inside = *scope;
    let first = read_head(beside, contexts, &mut inside, 1, opener, c)?;
    let (_, end) = read_clauses(beside, &inside, contexts, first, levels)?;
    close(contexts, c.contexts as usize, first, Ok(end));
    Ok(end)
}
