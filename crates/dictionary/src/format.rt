// How many bytes numbers and texts hold.
ghost use Rattle.std.specs.Prelude.{◌≡◌};
ghost use Rattle.dictionary.specs.Format.{width_bytes, text_bytes};

use wire::codes::{TextType, Width};
use wire::limits::{INT64_SIZE, LENGTH_WORD, LONG_SIZE, SHORT_SIZE};

// "short 7 and long 8 .. (2 and 4 bytes)"; 02, No. 8: type 16 "of 8 bytes".
pub fn width_bytes(w: Width) -> usize
    ensures { result ≡ width_bytes w }
{
    match w {
        Width::Short => SHORT_SIZE,
        Width::Long => LONG_SIZE,
        Width::Int64 => INT64_SIZE,
    }
}

// "text 14, varying 37, cstring 40, each with a word n (n, n+2, n bytes)"
pub fn text_bytes(t: TextType, n: u32) -> usize
    ensures { result ≡ text_bytes t n }
{
    let size = n as usize;
    match t {
        TextType::Text | TextType::Cstring => size,
        TextType::Varying => size + LENGTH_WORD,
    }
}
