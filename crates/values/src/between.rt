// Between: geq of the first two of three values and leq of the first and the third, joined by and.
ghost use Rattle.values.specs.Values.{lent_in};
ghost use Rattle.values.specs.Outcomes.{BetweenOf};
ghost use Rattle.values.specs.Promises.{Between};

use crate::comparison::comparison_of;
use crate::logic::connection;
use crate::{Lent, Stop, Tested, Value, Valued};
use meaning::Truth;
use wire::codes::{Comparison, Connective};

// The first stray met stands.
fn between_of(m: Lent<'_>, x: Value, y: Value, z: Value) -> Result<Truth, Stop>
    ensures { BetweenOf (lent_in m.entry) x y z result }
{
    let first = comparison_of(m, Comparison::Geq, x, y)?;
    let second = comparison_of(m, Comparison::Leq, x, z)?;
    Ok(connection(Connective::And, first, second))
}

#[tactic(auto, unfolding(meaning::specs::Data::between_of))]
pub fn between(m: Lent<'_>, a: Valued, b: Valued, c: Valued) -> Tested
    ensures { Between (lent_in m.entry) a b c result }
{
    let (x, _) = a?;
    let (y, _) = b?;
    let (z, end) = c?;
    let t = between_of(m, x, y, z)?;
    Ok((t, end))
}
