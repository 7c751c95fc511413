// A condition by its number, once the request is read: 20, then what a walk needs, the walk over its bytes, and the lent table.
ghost use Rattle.std.specs.Prelude.{◌≡◌, ◌≤◌, length, replicate};
ghost use Rattle.grammar.specs.Demands.{Octets};
ghost use Rattle.evaluator.specs.Slices.{slices_in};
ghost use Rattle.evaluator.specs.AfterReading.{AfterReading};
ghost use Rattle.explanation.specs.Explanation.{explained_evaluation};
ghost use Rattle.explanation.specs.Reason.{most_tests};
ghost use Rattle.explanation.specs.Internal.Noting.{Lists, Walkable, RowsEnough, walk_over, settled_in};

use crate::Explanation;
use crate::list::list_rows;
use crate::rows::{FEW_TESTS, MAX_TESTS, SHORT_REQUEST};
use crate::walk::explain_at;
use evaluator::answers::refused_by;
use evaluator::prepared::{Given, prepare_in};
use evaluator::tested::Slices;
use grammar::Refusal;
use surroundings::bindings::{BINDING_ROW, BINDING_TABLE};
use wire::limits::MAX_DEPTH;
use wire::refused::Refused;
use wire::table::number_at;

// The condition at a place, with what was prepared for it, in a table of so many rows, which is cleared before the walk.
fn explain_in<const ROWS: usize>(x: Slices, at: usize, tests: &mut [u32]) -> Explanation
    requires { Walkable (slices_in x) at tests.old × RowsEnough x.request.now ROWS × (ROWS ≤ most_tests) }
    ensures { Lists (settled_in (walk_over (slices_in x.entry) at)) tests.old tests.new result }
{
    let mut noted = [0u32; ROWS];
    match explain_at(&x, MAX_DEPTH, at, &mut noted, 0) {
        Ok(done) => list_rows(&noted[..done.rows], tests),
        Err(stop) => Err(refused_by(stop)),
    }
}

// The same in a table that has rows enough for the request: a short one is cleared sooner.
fn explain_there(x: Slices, at: usize, tests: &mut [u32]) -> Explanation
    requires { Walkable (slices_in x) at tests.old }
    ensures { Lists (settled_in (walk_over (slices_in x.entry) at)) tests.old tests.new result }
{
    if x.request.len() <= SHORT_REQUEST {
        return explain_in::<FEW_TESTS>(x, at, tests);
    }
    explain_in::<MAX_TESTS>(x, at, tests)
}

// The condition of a number, of a request that was read, with the places of its conditions; the lent table holds zeros.
pub(crate) fn explain_read(
    x: Given,
    places: &[u32],
    number: usize,
    tests: &mut [u32],
) -> Explanation
    requires read { AfterReading x.request.now x.dictionary.now x.parameters.now x.contexts.now places.now
        x.counts.parameters x.counts.contexts }
    requires bytes { Octets x.runs.now }
    requires zeros { tests.old ≡ replicate (length tests.old) 0 }
    ensures { Lists (explained_evaluation x.entry.request.now x.entry.dictionary.now number x.entry.images.now
        x.entry.records.now x.entry.runs.now) tests.old tests.new result }
{
    let at = number_at(places, number) as usize;
    if at == 0 {
        return Err(Refused::new(Refusal::NoBoolean, 0));
    }
    let mut bindings = [0u32; BINDING_TABLE];
    let rows = prepare_in(x, at, &mut bindings)?;
    explain_there(x.slices(&bindings[..rows * BINDING_ROW]), at, tests)
}
