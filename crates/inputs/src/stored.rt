// The value of a format whose bytes stand at a place of a slice.
ghost use Rattle.std.specs.Prelude.{◌≡◌, take, drop};
ghost use Rattle.wire.specs.declared.codes.FieldType.TheVariants.{Plain};
ghost use Rattle.dictionary.specs.Internal.FieldAnswers.{format_is};
ghost use Rattle.meaning.specs.Inputs.{text_in, type_value, value_at, kind_held};
ghost use Rattle.inputs.specs.Answers.{Gives, Holds, date_of};

use crate::numbers::{integer_at, long_on, number_at, reading_at};
use crate::{Fetched, Unread};
use dictionary::field::Description;
use dictionary::format::text_bytes;
use meaning::{Kind, Source};
use text::value::text_part;
use values::{Date, Held, Value};
use wire::codes::{DataType, FieldType, TextType, Width};

// The n bytes at a place of a text's slice; what of them lies past the end is left off.
pub(crate) fn held_at(source: Source, t: TextType, n: usize, s: &[u8], p: usize) -> Held
    ensures { Holds source t n s.now p result }
{
    let start = p.min(s.len());
    Held {
        source,
        of: t,
        start,
        end: start + n.min(s.len() - start),
    }
}

// A text of n bytes, or that it is malformed.
fn text_at(source: Source, t: TextType, n: usize, s: &[u8], p: usize) -> Fetched
    ensures { Gives source s.now result (text_in (take n (drop p s.now)) t) }
{
    let held = held_at(source, t, n, s, p);
    match text_part(t, &s[held.start..held.end]) {
        Some(_) => Ok(Value::Text(held)),
        None => Err(Unread::Malformed),
    }
}

// "A date is a signed 32-bit day, then an unsigned 32-bit fraction."
fn date_at(s: &[u8], p: usize) -> Date
    ensures { result ≡ date_of s.now p }
{
    Date {
        day: integer_at(Width::Long, s, p),
        fraction: long_on(s, p, 4),
    }
}

// The value of a descriptor's type, scale byte and size.
fn plain_at(t: DataType, scale: u8, size: u32, source: Source, s: &[u8], p: usize) -> Fetched
    ensures { Gives source s.now result (type_value (Plain t) scale size s.now p) }
{
    match t {
        DataType::Number(w) => Ok(Value::Number(number_at(w, scale, s, p))),
        DataType::Date => Ok(Value::Date(date_at(s, p))),
        DataType::Chars(x) => text_at(source, x, text_bytes(x, size), s, p),
    }
}

// The value of a format whose bytes stand at p of a source. "a house reading: 2 bytes, unsigned, with scale"
#[tactic(auto, unfolding(meaning::specs::Inputs::value_at))]
pub(crate) fn value_at(x: Description, source: Source, s: &[u8], p: usize) -> Fetched
    ensures { Gives source s.now result (value_at (format_is x) s.now p) }
{
    match x.data_type {
        FieldType::Plain(t) => plain_at(t, x.scale, x.size, source, s, p),
        FieldType::Reading => Ok(Value::Number(reading_at(x.scale, s, p))),
    }
}

// The kind of what a format holds.
#[tactic(auto, unfolding(meaning::specs::Inputs::kind_held))]
pub(crate) fn kind_held(x: Description) -> Kind
    ensures { result ≡ kind_held (format_is x) }
{
    match x.data_type {
        FieldType::Plain(DataType::Number(_)) | FieldType::Reading => Kind::Number,
        FieldType::Plain(DataType::Date) => Kind::Date,
        FieldType::Plain(DataType::Chars(_)) => Kind::Text,
    }
}
