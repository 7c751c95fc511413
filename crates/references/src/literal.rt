// Literals.
ghost use Rattle.std.specs.Prelude.{◌≡◌};
ghost use Rattle.wire.specs.declared.codes.LiteralType.TheVariants.{NumberLiteral, TextLiteral};
ghost use Rattle.grammar.specs.Values.{literal_under, read_literal};
ghost use Rattle.grammar.specs.Internal.Steps.{answer_of};
ghost use Rattle.references.specs.Promises.{literal_fit};

use classes::literal_due;
use dictionary::format::width_bytes;
use grammar::{Cursor, Kind, Read, Refusal};
use steps::{next_code, scale_byte, size_word, skip};
use wire::bytes::signed_byte;
use wire::codes::{LiteralType, Version, Width};
use wire::refused::Refused;

fn number_literal(request: &[u8], w: Width, c: Cursor) -> Read<Option<Kind>>
    ensures { result ≡ answer_of literal_fit (literal_under (NumberLiteral w) request.now c) }
{
    let (scale, first) = scale_byte(request, w, c)?;
    let after = skip(request, first, width_bytes(w))?;
    Ok((Some(Kind::Number(signed_byte(scale))), after))
}

#[tactic(auto, unfolding(grammar::specs::Values::literal_under, grammar::specs::Kinds::literal_kind))]
fn text_literal(request: &[u8], c: Cursor) -> Read<Option<Kind>>
    ensures { result ≡ answer_of literal_fit (literal_under TextLiteral request.now c) }
{
    let (n, first) = size_word(request, c)?;
    let after = skip(request, first, n as usize)?;
    Ok((Some(Kind::Text), after))
}

// A literal after its code, in a request of a version.
#[tactic(auto, unfolding(grammar::specs::Values::read_literal))]
pub fn read_literal(request: &[u8], v: Version, c: Cursor) -> Read<Option<Kind>>
    ensures { result ≡ answer_of literal_fit (read_literal v request.now c) }
{
    let (t, first) = next_code(request, c)?;
    if !literal_due(v, t) {
        return Err(Refused::new(Refusal::NotDue, c.at));
    }
    match t {
        LiteralType::NumberLiteral(w) => number_literal(request, w, first),
        LiteralType::TextLiteral => text_literal(request, first),
    }
}
