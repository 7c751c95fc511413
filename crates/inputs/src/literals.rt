// Literals of a request.
ghost use Rattle.std.specs.Prelude.{◌≡◌, ◌<◌, length};
ghost use Rattle.values.specs.Values.{Lent, valued};
ghost use Rattle.walking.specs.Walk.{literal_under, literal_at};

use crate::numbers::number_at;
use crate::stored::held_at;
use classes::Code;
use dictionary::format::width_bytes;
use meaning::Source;
use values::{Stop, Value, Valued};
use wire::bytes::{byte_at, word_at};
use wire::codes::{LiteralType, TextType};

// A literal of a type that stands at a place. Kept: that it lies in the request is the caller's one test; a type for it is no plainer.
fn literal_of(t: LiteralType, request: &[u8], at: usize) -> Valued
    requires { at < length request.now }
    ensures { (m : Lent) → m.request ≡ request.now → valued m result ≡ literal_under request.now at t }
{
    match t {
        LiteralType::NumberLiteral(w) => {
            let scale = byte_at(request, at + 1);
            let x = number_at(w, scale, request, at + 2);
            Ok((Value::Number(x), at + 2 + width_bytes(w)))
        }
        LiteralType::TextLiteral => {
            let n = word_at(request, at + 1) as usize;
            let x = held_at(Source::Request, TextType::Text, n, request, at + 3);
            Ok((Value::Text(x), at + 3 + n))
        }
    }
}

// The literal whose type stands at a place, and the place after it.
pub fn literal(request: &[u8], at: usize) -> Valued
    ensures { (m : Lent) → m.request ≡ request.now → valued m result ≡ literal_at request.now at }
{
    if request.len() <= at {
        return Err(Stop::Stray);
    }
    match LiteralType::of(byte_at(request, at)) {
        Ok(t) => literal_of(t, request, at),
        Err(_) => Err(Stop::Stray),
    }
}
