// The walk over the bytes of a condition that lays its tests in rows: or, and and not are followed, each other boolean is one test.
ghost use Rattle.std.specs.Prelude.{◌≡◌, ℕ, ◌<◌, ◌≤◌, length};
ghost use Rattle.evaluator.specs.Slices.{slices_in};
ghost use Rattle.explanation.specs.Internal.Noting.{Notes, Room, explains, sides, under};

use crate::rows::{Noted, keep_needed, note_test};
use crate::settles::settles;
use classes::Code;
use evaluator::tested::{Slices, tested_at};
use values::Stop;
use values::logic::connection;
use values::opposite::reversed;
use wire::bytes::byte_at;
use wire::codes::{BooleanCode, Connective};

// Kept: Room is asked of the walk's three functions: a struct of slices and a lent table would be made anew at each call (no plainer).
// The boolean whose code stands at a place, with so many levels left, and n rows laid before.
#[cycle(walk)]
pub(crate) fn explain_at(
    x: &Slices,
    levels: usize,
    at: usize,
    noted: &mut [u32],
    n: usize,
) -> Result<Noted, Stop>
    requires { Room (slices_in x.now) noted.old n }
    ensures { Notes (explains (slices_in x.now) (length noted.old) levels n at) n noted.old noted.new result }
{
    if levels == 0 {
        return Err(Stop::Stray);
    }
    match BooleanCode::of(byte_at(x.request, at)) {
        Ok(code) => explain_under(x, levels, at, code, noted, n),
        Err(_) => Err(Stop::Stray),
    }
}

// Kept: as above.
// What stands under a code at a place before the end, with so many levels left for the boolean itself.
#[cycle(walk)]
fn explain_under(
    x: &Slices,
    levels: usize,
    at: usize,
    code: BooleanCode,
    noted: &mut [u32],
    n: usize,
) -> Result<Noted, Stop>
    requires { Room (slices_in x.now) noted.old n × (0 < levels) × (at < length x.now.request.now) }
    ensures { Notes (under (slices_in x.now) (length noted.old) levels n at code) n noted.old noted.new result }
{
    match code {
        BooleanCode::Connect(c) => both_sides(x, levels - 1, at + 1, c, noted, n),
        BooleanCode::Not => {
            let inner = explain_at(x, levels - 1, at + 1, noted, n)?;
            Ok(Noted {
                truth: reversed(inner.truth),
                ..inner
            })
        }
        BooleanCode::Compare(_)
        | BooleanCode::Search(_)
        | BooleanCode::Between
        | BooleanCode::Missing
        | BooleanCode::Quantify(_) => note_test(tested_at(*x, levels, at), at, noted, n),
    }
}

// Kept: as above.
// Both sides of an and or an or, the first of which stands at a place: each is worked out, and the rows of those needed stay.
#[cycle(walk)]
fn both_sides(
    x: &Slices,
    levels: usize,
    at: usize,
    code: Connective,
    noted: &mut [u32],
    n: usize,
) -> Result<Noted, Stop>
    requires { Room (slices_in x.now) noted.old n }
    ensures { Notes (sides (slices_in x.now) (length noted.old) levels code n at) n noted.old noted.new result }
{
    let first = explain_at(x, levels, at, noted, n)?;
    let second = explain_at(x, levels, first.end, noted, first.rows)?;
    let rows = keep_needed(
        noted,
        settles(code, first.truth),
        settles(code, second.truth),
        n,
        first.rows,
        second.rows,
    );
    Ok(Noted {
        truth: connection(code, first.truth, second.truth),
        end: second.end,
        rows,
    })
}
