// The runs that are lent for the rows of any, unique and statistic codes: one proper run for each, and what each holds.
ghost use Rattle.std.specs.Prelude.{◌≡◌, ◌-◌, min};
ghost use Rattle.wire.specs.Limits.{max_contexts};
ghost use Rattle.runs.specs.Filled.{Checked};

use records::runs::{proper_run, records_held};
use surroundings::bindings::{BINDING_COUNT, BINDING_FIRST, BINDING_RELATION, BINDING_ROW};
use wire::bytes::word_at;
use wire::entries::ENTRY_BODY;
use wire::limits::MAX_CONTEXTS;
use wire::table::{number_at, put};

// Kept: the rows of bindings are numbers of a lent table (surroundings, bindings.rt).
// Refusal 26: "placed as 22 is by kind 7 entries". Each row gets the place of its run's first record, and how many there are.
pub fn check_runs(
    dictionary: &[u8],
    bindings: &mut [u32],
    from: usize,
    to: usize,
    runs: &[u8],
) -> Result<(), usize>
    ensures { Checked dictionary.now runs.now (min to max_contexts - from) from
        bindings.old bindings.new result }
{
    let rows = to.min(MAX_CONTEXTS);
    let mut p: usize = 0;
    for row in from..rows {
        let at = row * BINDING_ROW;
        let relation = number_at(bindings, at + BINDING_RELATION) as usize;
        if !proper_run(dictionary, relation, runs, p) {
            return Err(p);
        }
        let bytes = word_at(runs, p) as usize;
        put(bindings, at + BINDING_FIRST, (p + ENTRY_BODY) as u32);
        put(
            bindings,
            at + BINDING_COUNT,
            records_held(dictionary, relation, bytes) as u32,
        );
        p += bytes;
    }
    if p < runs.len() {
        return Err(p);
    }
    Ok(())
}
