// The place after so many values, booleans and clauses.
ghost use Rattle.std.specs.Prelude.{◌≡◌, ◌+◌, ◌≤◌, ◌<◌, length};
ghost use Rattle.wire.specs.Limits.{max_request_bytes};
ghost use Rattle.runs.specs.Passes.{on, pass_at, pass_by, passed, passed_by};

use crate::forms::{Form, form_of, literal_length};
use crate::stream::after_stream;
use wire::bytes::byte_on;

// A place, and how many values, booleans and clauses are due there.
#[derive(Clone, Copy)]
pub(crate) struct Pass {
    pub(crate) place: usize,
    pub(crate) due: usize,
}

impl Pass {
    // On to a place, with so many due instead of one.
    pub(crate) fn on(self, place: usize, more: usize) -> Pass
        requires { (0 < self.due) × (self.due ≤ 8589934592) × (more ≤ 256) × (place ≤ 131080) }
        ensures { (result ≡ on self place more) × (result.due ≤ self.due + 256) × (result.place ≤ 131080) }
    {
        Pass {
            place,
            due: self.due - 1 + more,
        }
    }

    // Nothing more is due.
    pub(crate) fn halt(self) -> Pass
        ensures { result ≡ pass_at self.place 0 }
    {
        Pass { due: 0, ..self }
    }

    // On over the code of a form at the place. In the frame of its caller, which has matched the form already.
    #[inline(always)]
    #[tactic(auto, unfolding(crate::specs::Passes::pass_by))]
    pub(crate) fn over(self, request: &[u8], form: Form) -> Pass
        requires { (length request.now ≤ max_request_bytes) × (0 < self.due) × (self.due ≤ 8589934592) × (self.place < length request.now) }
        ensures { (result ≡ pass_by request.now self form) × (result.due ≤ self.due + 256) × (result.place ≤ 131080) }
    {
        let p = self.place;
        match form {
            Form::Plain(n, more) => self.on(p + n as usize, more as usize),
            Form::Field => self.on(p + 3 + byte_on(request, p, 2) as usize, 0),
            Form::Literal => self.on(p + 1 + literal_length(request, p + 1), 0),
            Form::Sort => self.on(p + 2, byte_on(request, p, 1) as usize + 1),
            Form::Open(more) => self.on(after_stream(request, p + 3), more as usize + 1),
            Form::Such => self.on(p + 1, 2),
            Form::Close => self.on(p + 1, 0),
            Form::Other => self.halt(),
        }
    }

    // Kept: the length is asked of four functions; a struct with that fact would be made for one call of find_runs (no plainer).
    // On over the code at the place.
    #[tactic(auto, unfolding(crate::specs::Passes::passed, crate::specs::Passes::pass_by), using(crate::proofs::PassLaws::passed_ended))]
    pub(crate) fn over_code(self, request: &[u8]) -> Pass
        requires { (length request.now ≤ max_request_bytes) × (0 < self.due) × (self.due ≤ 8589934592) × (self.place ≤ 131080) }
        ensures { (result ≡ passed request.now self) × (result.due ≤ self.due + 256) × (result.place ≤ 131080) }
    {
        let p = self.place;
        if request.len() <= p {
            return self.halt();
        }
        self.over(request, form_of(request[p]))
    }
}

// Kept: as above.
// The place after so many that stand from a place on.
pub(crate) fn pass_over(request: &[u8], at: usize, count: usize) -> usize
    requires { (length request.now ≤ max_request_bytes) × (at ≤ 131080) × (count ≤ 4294967295) }
    ensures { (result ≡ passed_by request.now at count) × (result ≤ 131080) }
{
    let mut pass = Pass {
        place: at,
        due: count,
    };
    for _ in 0..request.len() {
        if pass.due == 0 {
            break;
        }
        pass = pass.over_code(request);
    }
    pass.place
}
