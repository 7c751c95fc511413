// Two values of one kind, or that one is missing, with the cause of the first that is, or that the kinds don't fit.
ghost use Rattle.values.specs.Pairs.{OfKind, OfOneKind, Paired};

use crate::{Date, Held, Value};
use decimal::Number;
use meaning::Kind;
use records::missing::Cause;

#[derive(Clone, Copy)]
pub(crate) enum Pair {
    Numbers(Number, Number),
    Texts(Held, Held),
    Dates(Date, Date),
    Lacking(Kind, Cause),
    Unfit,
}

// In the frame of its caller, here and below: a pair that is answered is copied through memory, and that of numbers is what most tests are of.
#[inline(always)]
#[tactic(auto, unfolding(meaning::specs::Data::kind))]
fn kind_of(a: Value) -> Kind
    ensures { OfKind a result }
{
    match a {
        Value::Number(_) => Kind::Number,
        Value::Text(_) => Kind::Text,
        Value::Date(_) => Kind::Date,
        Value::Missing(k, _) => k,
    }
}

// Two values whose kinds are the same.
#[inline(always)]
fn of_one_kind(a: Value, b: Value) -> Pair
    ensures { OfOneKind a b result }
{
    match a {
        Value::Number(x) => match b {
            Value::Number(y) => Pair::Numbers(x, y),
            Value::Missing(k, w) => Pair::Lacking(k, w),
            Value::Text(_) | Value::Date(_) => Pair::Unfit,
        },
        Value::Text(x) => match b {
            Value::Text(y) => Pair::Texts(x, y),
            Value::Missing(k, w) => Pair::Lacking(k, w),
            Value::Number(_) | Value::Date(_) => Pair::Unfit,
        },
        Value::Date(x) => match b {
            Value::Date(y) => Pair::Dates(x, y),
            Value::Missing(k, w) => Pair::Lacking(k, w),
            Value::Number(_) | Value::Text(_) => Pair::Unfit,
        },
        Value::Missing(k, w) => Pair::Lacking(k, w),
    }
}

#[inline(always)]
#[tactic(auto, unfolding(meaning::specs::Data::pair))]
pub(crate) fn paired(a: Value, b: Value) -> Pair
    ensures { Paired a b result }
{
    if kind_of(a) == kind_of(b) {
        of_one_kind(a, b)
    } else {
        Pair::Unfit
    }
}
