// The kinds of the numbers of statistics, worked out on a request's bytes.
#![tactic(auto)]

ghost use Rattle.std.specs.Prelude.{◌≡◌};
ghost use Rattle.std.proofs.Math.Option.{none};
ghost use Rattle.kinds.specs.KindAt.{kinded};
ghost use Rattle.kinds.specs.Promises.{kinded_is};

mod around;
mod leaves;
pub mod note;
mod walk;

use grammar::Kind;

// The kind of what stands at a place, if it has one, and the place after it.
#[derive(Clone, Copy)]
pub(crate) struct KindStep {
    pub(crate) kind: Option<Kind>,
    pub(crate) end: usize,
}

impl KindStep {
    // No kind, for what stands at a place.
    fn none(end: usize) -> KindStep
        ensures { kinded_is result ≡ kinded none end }
    {
        KindStep { kind: None, end }
    }
}

// What the kind of a value depends on beside its place: the request, the dictionary, the parameter table and how many rows it has, and the
// rows of bindings.
#[derive(Clone, Copy)]
pub(crate) struct KindInputs<'a> {
    pub(crate) request: &'a [u8],
    pub(crate) dictionary: &'a [u8],
    pub(crate) parameters: &'a [u32],
    pub(crate) rows: usize,
    pub(crate) bindings: &'a [u32],
}
