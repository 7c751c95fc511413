// Scaled numbers: a signed 64-bit value with a scale, a signed byte from -18 to 0. The number is the value times ten to the scale.
#![tactic(auto)]

ghost use Rattle.std.specs.Prelude.{◌≡◌};
ghost use Rattle.decimal.specs.Number.{places, rescaled, added, subtracted, multiplied, quotient, quotient5, negated, computed};
ghost use Rattle.decimal.specs.Number.{compared, scaled};
ghost use Rattle.decimal.specs.Internal.Plain.{has_places, PlainSum};

use std::cmp::Ordering;
use wire::codes::{Operator, Version};
use wire::limits::MIN_ARITHMETIC_SCALE;

mod order;
mod places;
mod powers;
mod rescaling;
mod values;

#[derive(Clone, Copy)]
pub struct Number {
    pub value: i64,
    pub scale: i8,
}

// Why an operation gives no number.
#[derive(Clone, Copy, PartialEq, Eq)]
pub enum ArithmeticError {
    Overflow,
    ZeroDivisor,
}

// What an operation gives.
pub type Computed = Result<Number, ArithmeticError>;

// The same number at another scale, or at its own where that has more places.
pub fn rescale(a: Number, scale: i8) -> Computed
    ensures { result ≡ rescaled (places scale) a }
{
    rescaling::at_places(a, places::places_of(scale))
}

// Kept, with subtract: a function of the operation would have to say in its contract what that answers, and both are four lines.
#[tactic(auto, unfolding(crate::specs::Number::added))]
pub(crate) fn add(a: Number, b: Number) -> Computed
    ensures { result ≡ added a b }
{
    let k = places::common(a, b);
    let x = rescaling::at_places(a, k)?;
    let y = rescaling::at_places(b, k)?;
    values::fitting(x.value.checked_add(y.value), places::scale_of(k))
}

#[tactic(auto, unfolding(crate::specs::Number::subtracted))]
pub(crate) fn subtract(a: Number, b: Number) -> Computed
    ensures { result ≡ subtracted a b }
{
    let k = places::common(a, b);
    let x = rescaling::at_places(a, k)?;
    let y = rescaling::at_places(b, k)?;
    values::fitting(x.value.checked_sub(y.value), places::scale_of(k))
}

pub(crate) fn multiply(a: Number, b: Number) -> Computed
    ensures { result ≡ multiplied a b }
{
    let k = places::places_in(a) + places::places_in(b);
    values::fitting(a.value.checked_mul(b.value), places::scale_of(k))
}

// The quotient, toward zero.
pub(crate) fn divide(a: Number, b: Number) -> Computed
    ensures { result ≡ quotient a b }
{
    let first = places::scale_of(places::places_in(a));
    let second = places::scale_of(places::places_in(b));
    values::quotient_of(a, b.value, first - second)
}

// The quotient of version 5, toward zero: the dividend is first raised by the divisor's places, twice.
#[tactic(auto, unfolding(crate::specs::Number::quotient5))]
pub(crate) fn divide5(a: Number, b: Number) -> Computed
    ensures { result ≡ quotient5 a b }
{
    if b.value == 0 {
        return Err(ArithmeticError::ZeroDivisor);
    }
    let p = places::places_in(a);
    let q = places::places_in(b);
    let dividend = rescaling::raise_twice(a.value, q, places::scale_of(p))?;
    values::quotient_of(dividend, b.value, places::scale_of(p + q))
}

pub fn negate(a: Number) -> Computed
    ensures { result ≡ negated a }
{
    values::fitting(
        a.value.checked_neg(),
        places::scale_of(places::places_in(a)),
    )
}

#[tactic(auto, unfolding(crate::specs::Number::computed))]
pub fn compute(v: Version, o: Operator, a: Number, b: Number) -> Computed
    ensures { result ≡ computed v o a b }
{
    match o {
        Operator::Add => add(a, b),
        Operator::Subtract => subtract(a, b),
        Operator::Multiply => multiply(a, b),
        Operator::Divide => match v {
            Version::Version4 => divide(a, b),
            Version::Version5 => divide5(a, b),
        },
    }
}

// The exact order of two numbers: that of their whole parts, and where these are equal that of their fractions.
// Kept: no `Ord`, since 30 with scale 0 and 300 with scale -1 are equal here and are no equal structs.
pub fn compare(a: Number, b: Number) -> Ordering
    ensures { result ≡ compared a b }
{
    order::by_parts(a.value, places::places_in(a), b.value, places::places_in(b))
}

// The same by values and scales. Numbers of one scale are in the order of their values, and no part of them is worked out.
// Kept, with sums_plainly: the values of records come by their parts, and a struct would go through memory.
pub fn order_of(x: i64, a: i8, y: i64, b: i8) -> Ordering
    ensures { result ≡ compared (scaled x a) (scaled y b) }
{
    if a == b {
        return x.cmp(&y);
    }
    order::by_parts(x, places::places_of(a), y, places::places_of(b))
}

// Whether a scale is one that arithmetic has.
fn has_places(scale: i8) -> bool
    ensures { result ≡ has_places scale }
{
    if 0 < scale {
        return false;
    }
    MIN_ARITHMETIC_SCALE <= scale
}

// Whether two numbers have one scale that arithmetic has, and the sum of their values fits: it is their sum then, at that scale.
pub fn sums_plainly(x: i64, a: i8, y: i64, b: i8) -> bool
    ensures { PlainSum x a y b result }
{
    if a == b {
        if has_places(a) {
            return x.checked_add(y).is_some();
        }
    }
    false
}
