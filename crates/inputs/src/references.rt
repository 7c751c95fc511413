// References in a request: fields by name and by id, and parameters with and without a flag.
ghost use Rattle.std.specs.Prelude.{◌≡◌, ◌<◌, min, length};
ghost use Rattle.wire.specs.Limits.{max_parameters};
ghost use Rattle.meaning.specs.Meaning.{fetched_at};
ghost use Rattle.walking.specs.Walk.{ended};
ghost use Rattle.values.specs.Values as Values;
ghost use Rattle.values.specs.Values.{lent_in, valued};
ghost use Rattle.surroundings.specs.Bindings.{bound_around};
ghost use Rattle.inputs.specs.Answers.{fetched_in, reference_in, reference_end, Referred};

use crate::fields::Bound;
use crate::parameters::{plain, with_flag};
use crate::{Fetched, Unread};
use dictionary::names::name_at;
use meaning::Fault;
use values::{Lent, Stop, Valued};
use wire::bytes::{byte_at, word_at};
use wire::codes::ReferenceCode;
use wire::numbers::{ContextNumber, MessageNumber};

// What a reference comes out as: its code stands at a place, and it ends before another. 23: "the value code"
fn settled(x: Fetched, at: usize, after: usize) -> Valued
    ensures { (m : Values.Lent) → valued m result ≡ ended (fetched_at at (fetched_in m x)) after }
{
    match x {
        Ok(v) => Ok((v, after)),
        Err(Unread::Malformed) => Err(Stop::Refused(Fault::MalformedText, at)),
        Err(Unread::Nothing) => Err(Stop::Stray),
    }
}

// The place after the reference whose code stands at a place. Kept: that it lies in the request, as in literals.rt.
fn reference_end(request: &[u8], at: usize, code: ReferenceCode) -> usize
    requires { at < length request.now }
    ensures { result ≡ reference_end request.now at code }
{
    match code {
        ReferenceCode::Field => at + 3 + usize::from(byte_at(request, at + 2)),
        ReferenceCode::Fid | ReferenceCode::Parameter => at + 4,
        ReferenceCode::Parameter2 => at + 6,
    }
}

// What the reference whose code stands at a place gives. Kept: its parameters are those of reference.
fn fetch(
    m: Lent<'_>,
    dictionary: &[u8],
    bindings: &[u32],
    parameters: &[u32],
    rows: usize,
    at: usize,
    code: ReferenceCode,
) -> Fetched
    requires { at < length m.request.now }
    ensures { fetched_in (lent_in m.entry) result ≡
        bound_around dictionary.now parameters.now (min rows max_parameters)
        m.entry.images.now m.entry.records.now m.entry.runs.now bindings.now
        (reference_in m.entry.request.now at code) }
{
    let bound = Bound {
        dictionary,
        bindings,
        records: m.records,
        runs: m.runs,
    };
    let n = byte_at(m.request, at + 1);
    let word = word_at(m.request, at + 2);
    match code {
        ReferenceCode::Field => bound.by_name(ContextNumber(n), name_at(m.request, at + 2)),
        ReferenceCode::Fid => bound.by_id(ContextNumber(n), word as usize),
        ReferenceCode::Parameter => plain(parameters, rows, m.images, MessageNumber(n), word),
        ReferenceCode::Parameter2 => {
            let flag = word_at(m.request, at + 4);
            with_flag(parameters, rows, m.images, MessageNumber(n), word, flag)
        }
    }
}

// The reference whose code stands at a place of the request; past its end no code stands. Kept: a public function, which keeps its parameters.
// In a frame of its own: it would stand in that of each value on the way down.
#[inline(never)]
pub fn reference(
    m: Lent<'_>,
    dictionary: &[u8],
    bindings: &[u32],
    parameters: &[u32],
    rows: usize,
    at: usize,
    code: ReferenceCode,
) -> Valued
    ensures { Referred (lent_in m.entry)
        (bound_around dictionary.now parameters.now (min rows max_parameters)
        m.entry.images.now m.entry.records.now m.entry.runs.now bindings.now)
        at code result }
{
    if m.request.len() <= at {
        return Err(Stop::Stray);
    }
    let x = fetch(m, dictionary, bindings, parameters, rows, at, code);
    settled(x, at, reference_end(m.request, at, code))
}
