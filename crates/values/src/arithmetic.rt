// The arithmetic operators and negation.
ghost use Rattle.std.specs.Prelude.{◌≡◌};
ghost use Rattle.values.specs.Outcomes.{at_place, ResultIs, CalculatedOf, NegatedOf};
ghost use Rattle.values.specs.Promises.{Calculated, Negated};
ghost use Rattle.values.specs.Numbers.{PlainlyComputed, NumbersComputed};

use crate::pairs::{Pair, paired};
use crate::{Stop, Value, Valued};
use decimal::{Computed, Number};
use meaning::{Fault, Kind};
use wire::codes::{Operator, Version};

// What a computation gives; a refusal is at a place.
pub(crate) fn computed_at(a: Computed, place: usize) -> Result<Number, Stop>
    ensures { result ≡ at_place place a }
{
    match a {
        Ok(x) => Ok(x),
        Err(e) => Err(Stop::Refused(Fault::from(e), place)),
    }
}

// The same as a value, with the place after it.
pub(crate) fn given(a: Computed, place: usize, end: usize) -> Valued
    ensures { ResultIs a place end result }
{
    let x = computed_at(a, place)?;
    Ok((Value::Number(x), end))
}

// A sum that fits, of two numbers of one scale. Kept: values and scales apart, as the public function below takes them.
fn plain_sum(o: Operator, x: i64, a: i8, y: i64, b: i8) -> bool
    ensures { PlainlyComputed o x a y b result }
{
    match o {
        Operator::Add => decimal::sums_plainly(x, a, y, b),
        Operator::Subtract | Operator::Multiply | Operator::Divide => false,
    }
}

// The operator on two numbers by their values and scales, with the place after them. The sum of numbers of one scale is worked out here, where
// it is handed back at once. Kept: a public function, which keeps its parameters.
#[tactic(auto, unfolding(meaning::specs::Data::arithmetic_of, meaning::specs::Data::pair, meaning::specs::Data::kind))]
pub fn numbers_computed(
    v: Version,
    o: Operator,
    x: i64,
    a: i8,
    y: i64,
    b: i8,
    place: usize,
    after: usize,
) -> Valued
    ensures { NumbersComputed v o x a y b place after result }
{
    if plain_sum(o, x, a, y, b) {
        let sum = Number {
            value: x + y,
            scale: a,
        };
        return Ok((Value::Number(sum), after));
    }
    let first = Number { value: x, scale: a };
    let second = Number { value: y, scale: b };
    given(decimal::compute(v, o, first, second), place, after)
}

#[tactic(auto, unfolding(meaning::specs::Data::arithmetic_of, meaning::specs::Data::pair, meaning::specs::Data::kind))]
fn arithmetic_of(v: Version, o: Operator, x: Value, y: Value, place: usize, end: usize) -> Valued
    ensures { CalculatedOf v o x y place end result }
{
    match paired(x, y) {
        Pair::Numbers(n, k) => numbers_computed(
            v, o, n.value, n.scale, k.value, k.scale, place, end,
        ),
        Pair::Lacking(Kind::Number, w) => Ok((Value::Missing(Kind::Number, w), end)),
        Pair::Lacking(Kind::Text | Kind::Date, _) => Err(Stop::Stray),
        Pair::Texts(_, _) | Pair::Dates(_, _) | Pair::Unfit => Err(Stop::Stray),
    }
}

// The operator at a place of a request of a version, on two values.
pub fn arithmetic(v: Version, o: Operator, a: Valued, b: Valued, place: usize) -> Valued
    ensures { Calculated v o a b place result }
{
    let (x, _) = a?;
    let (y, end) = b?;
    arithmetic_of(v, o, x, y, place, end)
}

#[tactic(auto, unfolding(meaning::specs::Data::negate_of))]
fn negation_of(x: Value, place: usize, end: usize) -> Valued
    ensures { NegatedOf x place end result }
{
    match x {
        Value::Number(n) => given(decimal::negate(n), place, end),
        Value::Missing(Kind::Number, w) => Ok((Value::Missing(Kind::Number, w), end)),
        Value::Missing(Kind::Text | Kind::Date, _) => Err(Stop::Stray),
        Value::Text(_) | Value::Date(_) => Err(Stop::Stray),
    }
}

// The negation at a place.
pub fn negation(a: Valued, place: usize) -> Valued
    ensures { Negated a place result }
{
    let (x, end) = a?;
    negation_of(x, place, end)
}
