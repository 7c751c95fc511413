// A stream: its code, a relation by name or by id, and a context that is not in scope.
ghost use Rattle.std.specs.Prelude.{◌≡◌};
ghost use Rattle.grammar.specs.Statements.{naming, stream, stream_count};
ghost use Rattle.grammar.specs.Internal.Steps.{answer_of, same};
ghost use Rattle.scopes.specs.Scopes.{scope_of};
ghost use Rattle.openings.specs.Streams.{relations};
ghost use Rattle.openings.specs.Streams.{Proper, Counted, Fresh, placed_step, entry_of};
ghost use Rattle.openings.specs.Streams.{relation_named, context_in, stream_under};

use dictionary::lookup::{relation_named, relation_numbered};
use dictionary::names::name_at;
use grammar::{Cursor, Passed, Read, Refusal};
use scopes::scope::{Context, SCOPE, find};
use steps::{count_byte, next_code, next_number, next_word, skip_name};
use wire::codes::StreamCode;
use wire::limits::MAX_CONTEXTS;
use wire::numbers::ContextNumber;
use wire::refused::Refused;

// The count of an rse's streams, so many at most.
#[tactic(auto, unfolding(grammar::specs::Statements::stream_count, grammar::specs::Reader::tested))]
pub(crate) fn stream_count(request: &[u8], most: usize, c: Cursor) -> Read<u8>
    ensures { result ≡ answer_of same (stream_count most request.now c) }
{
    let (n, next) = count_byte(request, c)?;
    if most < n as usize {
        return Err(Refused::new(Refusal::TooGreat, c.at));
    }
    Ok((n, next))
}

// "32 context declarations": one more, whose code stands at a place.
#[tactic(auto, unfolding(grammar::specs::Reader::opened))]
pub(crate) fn open_context(c: Cursor, at: usize) -> Passed
    ensures { Counted at c result }
{
    if MAX_CONTEXTS <= c.contexts as usize {
        return Err(Refused::new(Refusal::TooGreat, at));
    }
    let mut next = c;
    next.contexts = c.contexts + 1;
    Ok(next)
}

// The relation that was looked up for what stands at a place: the place of its entry, in a dictionary of at most 65,535 bytes.
fn placed(found: Option<usize>, at: usize, next: Cursor) -> Read<u16>
    ensures { result ≡ placed_step found at next }
{
    let Some(q) = found else {
        return Err(Refused::new(Refusal::Unknown, at));
    };
    Ok(((q % 65536) as u16, next))
}

// The relation of a stream, by its name or by its id.
#[tactic(auto, unfolding(crate::specs::Streams::relation_named, grammar::specs::Reader::tested))]
fn read_relation(request: &[u8], dictionary: &[u8], k: StreamCode, c: Cursor) -> Read<u16>
    ensures { Proper dictionary.now → result ≡ answer_of (entry_of dictionary.now)
        (relation_named (relations dictionary.now) (naming k) request.now c) }
{
    match k {
        StreamCode::Relation => {
            let next = skip_name(request, c)?;
            placed(
                relation_named(dictionary, name_at(request, c.at)),
                c.at,
                next,
            )
        }
        StreamCode::Rid => {
            let (i, next) = next_word(request, c)?;
            placed(relation_numbered(dictionary, i), c.at, next)
        }
    }
}

// The number of a context that is not in scope.
#[tactic(auto, unfolding(crate::specs::Streams::fresh_byte, grammar::specs::Reader::tested))]
pub(crate) fn fresh_context(request: &[u8], scope: &[u16; SCOPE], c: Cursor) -> Read<ContextNumber>
    ensures { Fresh scope.now request.now c result }
{
    let (n, next) = next_number(request, c)?;
    if find(scope, n).is_some() {
        return Err(Refused::new(Refusal::BadContext, c.at));
    }
    Ok((n, next))
}

// A stream after its code.
#[tactic(auto, unfolding(crate::specs::Streams::stream_under))]
fn stream_under(
    request: &[u8],
    dictionary: &[u8],
    scope: &[u16; SCOPE],
    opener: u8,
    k: StreamCode,
    c: Cursor,
) -> Read<Context>
    ensures { Proper dictionary.now → result ≡ answer_of (context_in dictionary.now opener)
        (stream_under (relations dictionary.now) (scope_of dictionary.now scope.now)
        k request.now c) }
{
    let (relation, next) = read_relation(request, dictionary, k, c)?;
    let (number, last) = fresh_context(request, scope, next)?;
    Ok((
        Context {
            relation,
            number,
            opener,
        },
        last,
    ))
}

// A stream, of an rse or of a store.
#[tactic(auto, unfolding(grammar::specs::Statements::stream, crate::specs::Streams::stream_under, crate::specs::Streams::relation_named, crate::specs::Streams::fresh_byte))]
pub(crate) fn read_stream(
    request: &[u8],
    dictionary: &[u8],
    scope: &[u16; SCOPE],
    opener: u8,
    c: Cursor,
) -> Read<Context>
    ensures { Proper dictionary.now → result ≡ answer_of (context_in dictionary.now opener)
        (stream (relations dictionary.now) (scope_of dictionary.now scope.now)
        request.now c) }
{
    let (k, first) = next_code::<StreamCode>(request, c)?;
    let next = open_context(first, c.at)?;
    stream_under(request, dictionary, scope, opener, k, next)
}
