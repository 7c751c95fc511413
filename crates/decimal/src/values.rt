// Values that an operation gives, each with a scale.
ghost use Rattle.std.specs.Prelude.{◌≡◌};
ghost use Rattle.decimal.specs.Number.{divided};
ghost use Rattle.decimal.specs.Internal.Values.{number_of};

use super::{ArithmeticError, Computed, Number};

// The number of a value and a scale; no value is overflow.
pub(crate) fn fitting(value: Option<i64>, scale: i8) -> Computed
    ensures { result ≡ number_of value scale }
{
    match value {
        Some(value) => Ok(Number { value, scale }),
        None => Err(ArithmeticError::Overflow),
    }
}

// The quotient of a number's value and another, toward zero.
pub(crate) fn quotient_of(a: Number, y: i64, scale: i8) -> Computed
    ensures { result ≡ divided a y scale }
{
    if y == 0 {
        return Err(ArithmeticError::ZeroDivisor);
    }
    fitting(a.value.checked_div(y), scale)
}
