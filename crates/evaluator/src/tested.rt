// A boolean by its place, for another crate, and what a walk goes over.
ghost use Rattle.std.specs.Prelude.{◌≡◌};
ghost use Rattle.values.specs.Values.{lent_in};
ghost use Rattle.evaluator.specs.Slices.{slices_in, lent_of};
ghost use Rattle.evaluator.specs.Outside.{TestedAt};

use crate::walk::{Walk, note};
use inputs::noted::NOTED_TABLE;
use surroundings::bindings::BINDING_TABLE;
use values::{Lent, Stop, Tested};

// The bytes of 32 runs of 65,535 bytes: so many runs can have at most.
pub const RUN_BYTES: usize = 2097120;

// What a walk goes over: the rows of the bindings, a request, a dictionary, the rows of the parameters, message images, records and runs.
// The bindings come first, since a walk over a run makes these anew with its own: what stands before them would be copied twice.
#[derive(Clone, Copy)]
pub struct Slices<'a> {
    pub bindings: &'a [u32],
    pub request: &'a [u8],
    pub dictionary: &'a [u8],
    pub parameters: &'a [u32],
    pub images: &'a [u8],
    pub records: &'a [u8],
    pub runs: &'a [u8],
}

impl<'a> Slices<'a> {
    // The slices that texts stand in.
    pub(crate) fn lent(self) -> Lent<'a>
        ensures { lent_in result ≡ lent_of (slices_in self.entry) }
    {
        Lent {
            request: self.request,
            images: self.images,
            records: self.records,
            runs: self.runs,
        }
    }
}

// A boolean whose code stands at a place, with so many levels left; stray where the bindings or the runs are too long.
// Kept: levels and place change from call to call, so a struct of the three would be made anew for each: no plainer.
pub fn tested_at(x: Slices, levels: usize, at: usize) -> Tested
    ensures { TestedAt (slices_in x.entry) levels at result }
{
    if BINDING_TABLE < x.bindings.len() {
        return Err(Stop::Stray);
    }
    if RUN_BYTES < x.runs.len() {
        return Err(Stop::Stray);
    }
    let mut fields = [0u32; NOTED_TABLE];
    note(x, at, &mut fields);
    let walk = Walk {
        slices: x,
        fields: &fields,
    };
    walk.bool_at(levels, at)
}
