// The stream of an any, a unique or a statistic.
ghost use Rattle.std.specs.Prelude.{◌≡◌, ◌+◌, ◌≤◌};
ghost use Rattle.wire.specs.Limits.{max_request_bytes};
ghost use Rattle.dictionary.specs.Naming.{named};
ghost use Rattle.dictionary.specs.Internal.Walk.{relation_place};
ghost use Rattle.surroundings.specs.Slots.{place_or};
ghost use Rattle.runs.specs.Passes.{after_stream};
ghost use Rattle.runs.specs.Steps.{opened_at};

use classes::Code;
use dictionary::lookup::relation_named;
use dictionary::names::name_at;
use surroundings::scope::entry_of;
use wire::bytes::{byte_at, byte_on, word_on};
use wire::codes::StreamCode;

// Where the entry of its relation stands in the dictionary, or 0 (kept: as below); the number of its context; and the place after it.
#[derive(Clone, Copy)]
pub(crate) struct Opened {
    pub(crate) relation: u32,
    pub(crate) number: u8,
    pub(crate) after: usize,
}

// Where the entry of the relation of a name stands; 0 where there is none. Kept: a number of a lent table.
#[tactic(auto, using(surroundings::proofs::ContextLoops::place_below))]
fn entry_named(dictionary: &[u8], name: &[u8]) -> u32
    ensures { result ≡ place_or (relation_place dictionary.now (named name.now)) }
{
    match relation_named(dictionary, name) {
        Some(p) => p as u32,
        None => 0,
    }
}

// The stream whose code stands at a place.
#[tactic(auto, unfolding(crate::specs::Steps::opened_at))]
pub(crate) fn opened_at(request: &[u8], dictionary: &[u8], p: usize) -> Opened
    requires { p ≤ max_request_bytes + 3 }
    ensures { result ≡ opened_at dictionary.now request.now p }
{
    match StreamCode::of(byte_at(request, p)) {
        Ok(StreamCode::Relation) => {
            let n = byte_at(request, p + 1) as usize;
            Opened {
                relation: entry_named(dictionary, name_at(request, p + 1)),
                number: byte_at(request, p + 2 + n),
                after: p + 3 + n,
            }
        }
        Ok(StreamCode::Rid) => Opened {
            relation: entry_of(dictionary, word_on(request, p, 1)),
            number: byte_on(request, p, 3),
            after: p + 4,
        },
        Err(_) => Opened {
            relation: 0,
            number: 0,
            after: p + 1,
        },
    }
}

// The place after the stream whose code stands at a place.
#[tactic(auto, unfolding(crate::specs::Passes::after_stream))]
pub(crate) fn after_stream(request: &[u8], p: usize) -> usize
    requires { p ≤ max_request_bytes + 3 }
    ensures { (result ≡ after_stream request.now p) × (result ≤ p + 258) }
{
    match StreamCode::of(byte_at(request, p)) {
        Ok(StreamCode::Relation) => p + 3 + byte_at(request, p + 1) as usize,
        Ok(StreamCode::Rid) => p + 4,
        Err(_) => p + 1,
    }
}
