// Numbers that are found without a walk over the values at their places.
ghost use Rattle.evaluator.specs.Slices.{slices_in, TwoAfter};

use crate::places::place_after;
use crate::walk::Walk;
use inputs::singles::{Two, two_at};

// The two numbers that stand after the code at a place, where a level is left for them. In the frame of its callers, two numbers being copied.
#[inline(always)]
pub(crate) fn two_after(walk: &Walk, levels: usize, at: usize) -> Option<Two>
    ensures { TwoAfter (slices_in walk.now.slices) levels at result }
{
    if levels == 0 {
        return None;
    }
    let x = walk.slices;
    two_at(
        x.request,
        x.dictionary,
        x.bindings,
        walk.fields,
        x.records,
        x.runs,
        place_after(x.request, at),
    )
}
