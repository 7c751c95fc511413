// Scales and decimal places.
ghost use Rattle.std.specs.Prelude.{◌≡◌, ◌+◌, ◌≤◌};
ghost use Rattle.decimal.specs.Number.{max_places, places, scale_of, common};

use super::Number;
use wire::limits::MIN_ARITHMETIC_SCALE;

// The decimal places of the least scale.
pub(crate) const MAX_PLACES: usize = 18;

// The decimal places of a scale.
pub(crate) fn places_of(scale: i8) -> usize
    ensures { (result ≡ places scale) × (result ≤ max_places) }
{
    scale.clamp(MIN_ARITHMETIC_SCALE, 0).unsigned_abs() as usize
}

// The decimal places of a number.
pub(crate) fn places_in(a: Number) -> usize
    ensures { (result ≡ places a.scale) × (result ≤ max_places) }
{
    places_of(a.scale)
}

// The larger count of decimal places of two numbers.
pub(crate) fn common(a: Number, b: Number) -> usize
    ensures { (result ≡ common a b) × (result ≤ max_places) }
{
    places_in(a).max(places_in(b))
}

// The scale of so many decimal places.
pub(crate) fn scale_of(k: usize) -> i8
    requires { k ≤ max_places + max_places }
    ensures { result ≡ scale_of k }
{
    -(k as i8)
}
