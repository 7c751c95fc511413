// The kinds of literals and references in a request, and the places after them.
ghost use Rattle.std.specs.Prelude.{◌≡◌, ◌+◌, ◌<◌, min, length};
ghost use Rattle.std.proofs.Math.Option.{some, map};
ghost use Rattle.wire.specs.Limits.{max_parameters};
ghost use Rattle.wire.specs.Options.{option_of};
ghost use Rattle.wire.specs.Versions.{version_of};
ghost use Rattle.dictionary.specs.Naming.{named, numbered};
ghost use Rattle.dictionary.specs.Internal.Walk.{entry_field};
ghost use Rattle.grammar.specs.Kinds.{flagged};
ghost use Rattle.grammar.specs.Internal.Steps.{fit_of, kind_in};
ghost use Rattle.walking.specs.Walk.{version_at};
ghost use Rattle.kinds.specs.Spans.{spans_in, span_around};
ghost use Rattle.kinds.specs.KindAt.{literal_at, literal_under, reference_at, span_kind, row_kind};
ghost use Rattle.kinds.specs.Promises.{kinded_is, entry_kind, span_relation, reference_in};

use crate::around::row_around;
use crate::{KindInputs, KindStep};
use classes::{Code, field_due};
use dictionary::field::{described, field_entry, named_entry};
use dictionary::format::width_bytes;
use dictionary::names::name_at;
use grammar::Kind;
use scopes::kinds::type_fit;
use surroundings::bindings::{BINDING_RELATION, BINDING_ROW};
use surroundings::images::parameter_of;
use wire::bytes::{byte_at, signed_byte, word_at};
use wire::codes::{LiteralType, ReferenceCode, Version};
use wire::numbers::{ContextNumber, MessageNumber};
use wire::table::number_at;

// Kept: a place before the end is asked of three functions, each of another struct or slice: one type for all is no plainer.
// A literal of a type that stands at a place.
#[tactic(auto, using(crate::proofs::Returns::width_small))]
fn literal_of(t: LiteralType, request: &[u8], at: usize) -> KindStep
    requires { at < length request.now }
    ensures { kinded_is result ≡ literal_under request.now at t }
{
    match t {
        LiteralType::NumberLiteral(w) => KindStep {
            kind: Some(Kind::Number(signed_byte(byte_at(request, at + 1)))),
            end: at + 2 + width_bytes(w),
        },
        LiteralType::TextLiteral => KindStep {
            kind: Some(Kind::Text),
            end: at + 3 + word_at(request, at + 1) as usize,
        },
    }
}

// The literal whose type stands at a place.
#[tactic(auto, unfolding(crate::specs::KindAt::literal_at), using(crate::proofs::Returns::no_literal))]
pub(crate) fn literal_kind(request: &[u8], at: usize) -> KindStep
    ensures { kinded_is result ≡ literal_at request.now at }
{
    if request.len() <= at {
        return KindStep::none(at);
    }
    match LiteralType::of(byte_at(request, at)) {
        Ok(t) => literal_of(t, request, at),
        Err(_) => KindStep::none(at),
    }
}

// The kind of a field whose entry was looked up, in a request of a version.
#[tactic(auto, unfolding(grammar::specs::Kinds::field_kind, grammar::specs::Kinds::format_kind))]
fn entry_kind(dictionary: &[u8], found: Option<usize>, v: Version) -> Option<Kind>
    ensures { result ≡ fit_of (entry_kind v dictionary.now found) }
{
    let x = described(dictionary, found?);
    if !field_due(v, x.data_type) {
        return None;
    }
    Some(type_fit(x.data_type, x.scale))
}

// Kept: the rows of bindings are numbers of a lent table (surroundings, bindings.rt).
// The entry of the relation of the context of a number in scope at a place.
#[tactic(auto, using(crate::proofs::Returns::around_row, crate::proofs::Returns::around_some, crate::proofs::Returns::around_none))]
fn relation_around(bindings: &[u32], number: ContextNumber, at: usize) -> Option<usize>
    ensures { result ≡ option_of (map span_relation (span_around (spans_in bindings.now) number.0 at)) }
{
    let row = row_around(bindings, number, at)?;
    Some(number_at(bindings, row * BINDING_ROW + BINDING_RELATION) as usize)
}

// The kind of a field by its name, of the context of a number in scope at a place.
#[tactic(auto, using(crate::proofs::Returns::named_is))]
fn named_kind(
    x: KindInputs,
    v: Version,
    at: usize,
    number: ContextNumber,
    name: &[u8],
) -> Option<Kind>
    ensures { result ≡ fit_of (span_kind v x.entry.dictionary.now (named name.now)
        (span_around (spans_in x.entry.bindings.now) number.0 at)) }
{
    let relation = relation_around(x.bindings, number, at)?;
    entry_kind(x.dictionary, named_entry(x.dictionary, relation, name), v)
}

// By its id.
#[tactic(auto, using(crate::proofs::Returns::numbered_is))]
fn numbered_kind(
    x: KindInputs,
    v: Version,
    at: usize,
    number: ContextNumber,
    id: u32,
) -> Option<Kind>
    ensures { result ≡ fit_of (span_kind v x.entry.dictionary.now (numbered id)
        (span_around (spans_in x.entry.bindings.now) number.0 at)) }
{
    let relation = relation_around(x.bindings, number, at)?;
    entry_kind(
        x.dictionary,
        field_entry(x.dictionary, relation, id as usize),
        v,
    )
}

// The kind of a parameter.
#[tactic(auto, unfolding(grammar::specs::Kinds::format_kind))]
fn parameter_kind(x: KindInputs, message: MessageNumber, index: u32) -> Option<Kind>
    ensures { result ≡ fit_of (row_kind x.entry.parameters.now (min x.entry.rows max_parameters) message.0 index) }
{
    let (found, _) = parameter_of(x.parameters, x.rows, message, index)?;
    Some(type_fit(found.data_type, found.scale))
}

// The kind of a parameter with a flag, which is a number.
fn flagged_kind(flag: Option<Kind>, kind: Option<Kind>) -> Option<Kind>
    ensures { result ≡ fit_of (flagged (kind_in flag) (kind_in kind)) }
{
    match flag {
        Some(Kind::Number(_)) => kind,
        _ => None,
    }
}

// Kept: a place before the end, as above.
// The reference whose code stands at a place.
#[tactic(auto, unfolding(crate::specs::KindAt::reference_at, crate::specs::KindAt::kind_given), using(crate::proofs::Returns::kind_fit))]
pub(crate) fn reference_kind(x: KindInputs, v: Version, at: usize, code: ReferenceCode) -> KindStep
    requires { at < length x.request.now }
    ensures { kinded_is result ≡ reference_at (reference_in x.entry v at) x.entry.request.now at code }
{
    let n = byte_at(x.request, at + 1);
    let word = word_at(x.request, at + 2);
    match code {
        ReferenceCode::Field => KindStep {
            kind: named_kind(x, v, at, ContextNumber(n), name_at(x.request, at + 2)),
            end: at + 3 + byte_at(x.request, at + 2) as usize,
        },
        ReferenceCode::Fid => KindStep {
            kind: numbered_kind(x, v, at, ContextNumber(n), word),
            end: at + 4,
        },
        ReferenceCode::Parameter => KindStep {
            kind: parameter_kind(x, MessageNumber(n), word),
            end: at + 4,
        },
        ReferenceCode::Parameter2 => KindStep {
            kind: flagged_kind(
                parameter_kind(x, MessageNumber(n), word_at(x.request, at + 4)),
                parameter_kind(x, MessageNumber(n), word),
            ),
            end: at + 6,
        },
    }
}
