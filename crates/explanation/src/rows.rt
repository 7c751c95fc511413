// The rows in which the walk lays tests: a number for each.
ghost use Rattle.std.specs.Prelude.{◌≡◌, ℕ, ◌+◌, ◌-◌, ◌<◌, ◌≤◌, ltb, length};
ghost use Rattle.values.specs.Values.{tested};
ghost use Rattle.explanation.specs.Explanation.{outcome_number};
ghost use Rattle.explanation.specs.Internal.Walk.{test_at};
ghost use Rattle.explanation.specs.Internal.Noting.{packed as packedIn, Notes, Moved, Keeps};

use meaning::Truth;
use values::{Stop, Tested};
use wire::table::{number_at, put};

// How many rows there are: a condition of an accepted request has no more tests.
pub(crate) const MAX_TESTS: usize = 10922;

// A request of at most so many bytes has no condition with more tests than that.
pub(crate) const FEW_TESTS: usize = 512;

pub(crate) const SHORT_REQUEST: usize = 3072;

// A row is the place times this, and the number of the outcome.
pub(crate) const OUTCOMES: u32 = 4;

// What a boolean comes out as, the place after it, and how many rows are laid up to its end.
#[derive(Clone, Copy)]
pub(crate) struct Noted {
    pub truth: Truth,
    pub end: usize,
    pub rows: usize,
}

// Kept: the number is that of the table that C reads (outcome_number of specs); From<Truth> can stand in meaning alone.
// The outcome as C has it.
fn outcome_number(truth: Truth) -> u32
    ensures { (result ≡ outcome_number truth) × (result ≤ 2) }
{
    match truth {
        Truth::True => 1,
        Truth::False => 0,
        Truth::Missing(_) => 2,
    }
}

// A test in one number.
fn packed(place: usize, truth: Truth) -> u32
    requires { place < 65536 }
    ensures { result ≡ packedIn (record { place = place; outcome = truth }) }
{
    place as u32 * OUTCOMES + outcome_number(truth)
}

// Kept: rows are numbers in a table of fixed size, since nothing allocates; a row is one number, so that the greatest table is 43 KB.
// Lays the test at a place in the next row, if one is free.
pub(crate) fn note_test(
    walk: Tested,
    place: usize,
    noted: &mut [u32],
    n: usize,
) -> Result<Noted, Stop>
    requires { (place < 65536) × (n ≤ length noted.old) }
    ensures { Notes (test_at (ltb n (length noted.old)) place (tested walk)) n noted.old noted.new result }
{
    let (truth, end) = walk?;
    if noted.len() <= n {
        return Err(Stop::Stray);
    }
    put(noted, n, packed(place, truth));
    Ok(Noted {
        truth,
        end,
        rows: n + 1,
    })
}

// Kept: a table of numbers, as above; std's copies of slices call memmove of the C library, and the archive calls memcpy and memset alone.
// Moves the rows of a part down to a place before it, and says where they end then.
fn move_down(noted: &mut [u32], to: usize, start: usize, end: usize) -> usize
    requires { (to ≤ start) × (start ≤ end) × (end ≤ length noted.old) }
    ensures { Moved to start end noted.old noted.new result }
{
    let mut i = start;
    let mut j = to;
    while i < end {
        put(noted, j, number_at(noted, i));
        i += 1;
        j += 1;
    }
    j
}

// Kept: a table of numbers, as above; each flag says whether a side settles the answer, which settles works out of a truth value.
// Of two sides, whose rows start at n and m and end at k: those of the first that settles the answer, or those of both; where they end.
pub(crate) fn keep_needed(
    noted: &mut [u32],
    first: bool,
    second: bool,
    n: usize,
    m: usize,
    k: usize,
) -> usize
    requires { (n ≤ m) × (m ≤ k) × (k ≤ length noted.old) }
    ensures { Keeps first second n m k noted.old noted.new result }
{
    if first {
        return m;
    }
    if second {
        return move_down(noted, n, m, k);
    }
    k
}
