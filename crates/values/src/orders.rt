// The order of two dates, and the comparisons that an order meets.
ghost use Rattle.std.specs.Prelude.{◌≡◌};
ghost use Rattle.meaning.specs.Data as Data;

use crate::Date;
use std::cmp::Ordering;
use wire::codes::Comparison;

// By the day, then by the fraction. Kept: the promise is the definition's order, and a derived order of Date would say it no plainer.
pub(crate) fn date_order(a: Date, b: Date) -> Ordering
    ensures { result ≡ Data.date_order a.day a.fraction b.day b.fraction }
{
    a.day.cmp(&b.day).then(a.fraction.cmp(&b.fraction))
}

// Whether an order meets a comparison.
pub(crate) fn holds(c: Comparison, o: Ordering) -> bool
    ensures { result ≡ Data.holds c o }
{
    match c {
        Comparison::Eql => o.is_eq(),
        Comparison::Neq => o.is_ne(),
        Comparison::Gtr => o.is_gt(),
        Comparison::Geq => o.is_ge(),
        Comparison::Lss => o.is_lt(),
        Comparison::Leq => o.is_le(),
    }
}
