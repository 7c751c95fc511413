// What a code is to a scan of the bytes of a condition or a from-value, and the bytes of a literal.
ghost use Rattle.std.specs.Prelude.{◌≡◌, ◌≤◌};
ghost use Rattle.runs.specs.Forms.{form_of, literal_length};

use classes::Code;
use dictionary::format::width_bytes;
use wire::blr;
use wire::bytes::{byte_at, word_on};
use wire::codes::LiteralType;

// A plain code takes so many bytes, and so many values, booleans and clauses are due in its place; one that opens an rse has so many
// numbers due after that.
#[derive(Clone, Copy)]
pub(crate) enum Form {
    Plain(u8, u8),
    Field,
    Literal,
    Sort,
    Open(u8),
    Such,
    Close,
    Other,
}

#[tactic(auto, unfolding(crate::specs::Forms::form_of, crate::specs::Forms::form_in))]
pub(crate) fn form_of(code: u8) -> Form
    ensures { result ≡ form_of code }
{
    match code {
        blr::EQL
        | blr::NEQ
        | blr::GTR
        | blr::GEQ
        | blr::LSS
        | blr::LEQ
        | blr::CONTAINING
        | blr::MATCHING
        | blr::STARTING
        | blr::OR
        | blr::AND
        | blr::ADD
        | blr::SUBTRACT
        | blr::MULTIPLY
        | blr::DIVIDE => Form::Plain(1, 2),
        blr::BETWEEN => Form::Plain(1, 3),
        blr::NOT | blr::MISSING | blr::NEGATE | blr::ASCENDING | blr::DESCENDING => Form::Plain(
            1, 1,
        ),
        blr::FID | blr::PARAMETER => Form::Plain(4, 0),
        blr::PARAMETER2 => Form::Plain(6, 0),
        blr::FIELD => Form::Field,
        blr::LITERAL => Form::Literal,
        blr::ANY | blr::UNIQUE | blr::COUNT => Form::Open(0),
        blr::AVERAGE | blr::MAXIMUM | blr::MINIMUM | blr::TOTAL => Form::Open(1),
        blr::BOOLEAN => Form::Such,
        blr::SORT => Form::Sort,
        blr::END => Form::Close,
        _ => Form::Other,
    }
}

// The bytes of a literal whose type stands at a place.
#[tactic(auto, unfolding(crate::specs::Forms::literal_length))]
pub(crate) fn literal_length(s: &[u8], p: usize) -> usize
    ensures { (result ≡ literal_length s.now p) × (result ≤ 65538) }
{
    match LiteralType::of(byte_at(s, p)) {
        Ok(LiteralType::NumberLiteral(w)) => 2 + width_bytes(w),
        Ok(LiteralType::TextLiteral) => 3 + word_on(s, p, 1) as usize,
        Err(_) => 1,
    }
}
