// How many records of a run are kept, and what an any or a unique comes out as by that.
ghost use Rattle.std.specs.Prelude.{◌≡◌, ℕ, ◌<◌, ◌≤◌};
ghost use Rattle.wire.specs.Limits.{max_contexts};
ghost use Rattle.meaning.specs.Meaning.{kept, answer_of};
ghost use Rattle.walking.specs.Walk.{at};
ghost use Rattle.surroundings.specs.Bindings.{binding_end, binding_count, cell};
ghost use Rattle.evaluator.specs.Kept.{kept_in};

use crate::rows::cell_of;
use meaning::Truth;
use surroundings::bindings::{BINDING_COUNT, BINDING_END};
use values::Stop;
use wire::codes::Quantifier;

// How many records of a run are kept, and the place after what asked for it.
pub(crate) type Kept = Result<(u32, usize), Stop>;

// How many are kept of one record whose condition comes out so: where it is missing none is.
fn kept_by(condition: Truth) -> u32
    ensures { (result ≡ kept condition 0) × (result ≤ 1) }
{
    match condition {
        Truth::True => 1,
        Truth::False => 0,
        Truth::Missing(_) => 0,
    }
}

// How many are kept of the records before and that one.
#[tactic(auto, using(crate::proofs::RunLaws::kept_sum))]
pub(crate) fn kept_with(condition: Truth, n: u32) -> u32
    requires { n < 4294967295 }
    ensures { result ≡ kept condition n }
{
    n + kept_by(condition)
}

// So many kept, and the place after what a row stands for. Kept, here and below: a table of numbers and a row, as in rows.rt.
pub(crate) fn kept_end(bindings: &[u32], row: usize, n: u32) -> Kept
    requires { row ≤ max_contexts }
    ensures { kept_in result ≡ at n (cell bindings.now row binding_end) }
{
    Ok((n, cell_of(bindings, row, BINDING_END)))
}

// The same for a row whose rse has no condition: every record of its run is kept.
pub(crate) fn all_kept(bindings: &[u32], row: usize) -> Kept
    requires { row ≤ max_contexts }
    ensures { kept_in result ≡
        at (cell bindings.now row binding_count) (cell bindings.now row binding_end) }
{
    kept_end(bindings, row, cell_of(bindings, row, BINDING_COUNT) as u32)
}

// What an any or a unique comes out as, where so many records are kept.
#[tactic(auto, unfolding(meaning::specs::Meaning::answer_of))]
pub(crate) fn answer_of_run(code: Quantifier, n: u32) -> Truth
    ensures { result ≡ answer_of code n }
{
    Truth::from(match code {
        Quantifier::Any => 1 <= n,
        Quantifier::Unique => n == 1,
    })
}
