// Ranges that fields, messages and literals share: of a scale byte and of a text's size.
ghost use Rattle.std.specs.Prelude.{◌≡◌};
ghost use Rattle.dictionary.specs.Format.{least_scale, scale_in_range, size_in_range};

use wire::bytes::signed_byte;
use wire::codes::Width;
use wire::limits::{MAX_TEXT_BYTES, MIN_INT64_SCALE, MIN_SCALE};

// "Scales -9 to 0"; 02, No. 8: type 16 "with a scale of -18 to 0".
fn least_scale(w: Width) -> i8
    ensures { result ≡ least_scale w }
{
    match w {
        Width::Short | Width::Long => MIN_SCALE,
        Width::Int64 => MIN_INT64_SCALE,
    }
}

// Whether a number of a width may have a scale byte.
#[tactic(auto, unfolding(crate::specs::Format::scale_in_range))]
pub fn scale_in_range(w: Width, b: u8) -> bool
    ensures { result ≡ scale_in_range w b }
{
    let scale = signed_byte(b);
    least_scale(w) <= scale && scale <= 0
}

// "Text n 1–255."
#[tactic(auto, unfolding(crate::specs::Format::size_in_range))]
pub fn size_in_range(n: u32) -> bool
    ensures { result ≡ size_in_range n }
{
    let size = n as usize;
    1 <= size && size <= MAX_TEXT_BYTES
}
