// The six comparisons.
ghost use Rattle.values.specs.Values.{lent_in};
ghost use Rattle.values.specs.Outcomes.{ComparedOf};
ghost use Rattle.values.specs.Promises.{Compared};
ghost use Rattle.values.specs.Numbers.{NumbersCompared};

use crate::orders::{date_order, holds};
use crate::pairs::{Pair, paired};
use crate::{Lent, Stop, Tested, Value, Valued};
use meaning::Truth;
use wire::codes::Comparison;

// Of two values; their texts stand in the lent slices.
#[tactic(auto, unfolding(meaning::specs::Data::compare_of))]
pub(crate) fn comparison_of(m: Lent<'_>, c: Comparison, x: Value, y: Value) -> Result<Truth, Stop>
    ensures { ComparedOf (lent_in m.entry) c x y result }
{
    let order = match paired(x, y) {
        Pair::Numbers(n, k) => decimal::order_of(n.value, n.scale, k.value, k.scale),
        Pair::Texts(n, k) => text::order::compare(m.text(n), m.text(k)),
        Pair::Dates(n, k) => date_order(n, k),
        Pair::Lacking(_, w) => return Ok(Truth::Missing(w)),
        Pair::Unfit => return Err(Stop::Stray),
    };
    Ok(Truth::from(holds(c, order)))
}

// Of two numbers by their values and scales, with the place after them. Kept: a public function, which keeps its parameters.
#[tactic(auto, unfolding(meaning::specs::Data::compare_of, meaning::specs::Data::pair, meaning::specs::Data::kind))]
pub fn numbers_compared(c: Comparison, x: i64, a: i8, y: i64, b: i8, after: usize) -> Tested
    ensures { NumbersCompared c x a y b after result }
{
    Ok((Truth::from(holds(c, decimal::order_of(x, a, y, b))), after))
}

// Kept beside text_search, which has the same three steps on its own test: one function of both would take a closure, and be no plainer.
pub fn comparison(m: Lent<'_>, c: Comparison, a: Valued, b: Valued) -> Tested
    ensures { Compared (lent_in m.entry) c a b result }
{
    let (x, _) = a?;
    let (y, end) = b?;
    let t = comparison_of(m, c, x, y)?;
    Ok((t, end))
}
