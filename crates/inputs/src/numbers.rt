// Numbers as messages, records and literals have them.
ghost use Rattle.std.specs.Prelude.{◌≡◌, ◌+◌};
ghost use Rattle.wire.specs.Words.{long_at};
ghost use Rattle.meaning.specs.Inputs.{number_at};
ghost use Rattle.inputs.specs.Answers.{number_of, reading_of};

use decimal::Number;
use wire::bytes::{long_at, signed_byte, signed_int64_at, signed_long_at, signed_word_at, word_at};
use wire::codes::Width;

// The integer of a width at a place.
pub(crate) fn integer_at(w: Width, s: &[u8], p: usize) -> i64
    ensures { result ≡ number_at w s.now p }
{
    match w {
        Width::Short => signed_word_at(s, p),
        Width::Long => signed_long_at(s, p),
        Width::Int64 => signed_int64_at(s, p),
    }
}

// The number of a scale byte, whose value stands at a place.
pub(crate) fn number_at(w: Width, scale: u8, s: &[u8], p: usize) -> Number
    ensures { result ≡ number_of w scale s.now p }
{
    Number {
        value: integer_at(w, s, p),
        scale: signed_byte(scale),
    }
}

// A house reading of a scale byte: "2 bytes, unsigned, with scale".
pub(crate) fn reading_at(scale: u8, s: &[u8], p: usize) -> Number
    ensures { result ≡ reading_of scale s.now p }
{
    Number {
        value: i64::from(word_at(s, p)),
        scale: signed_byte(scale),
    }
}

// The unsigned four-byte number so many places on.
pub(crate) fn long_on(s: &[u8], at: usize, n: usize) -> u32
    ensures { result ≡ long_at s.now (at + n) }
{
    if s.len() <= at {
        return 0;
    }
    if s.len() - at <= n {
        return 0;
    }
    long_at(s, at + n)
}
