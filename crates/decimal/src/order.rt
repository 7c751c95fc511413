// The order of two numbers: that of their whole parts, and where these are equal that of their fractions.
ghost use Rattle.std.specs.Prelude.{◌≡◌, ◌≤◌};
ghost use Rattle.decimal.specs.Number.{max_places, scale_of, scaled};
ghost use Rattle.decimal.specs.Comparing.{by_parts};

use super::powers::powers_for;
use std::cmp::Ordering;

// Of two values with p and q places: first the whole parts; where these are equal, the fractions at the larger count of places.
// A fraction is below its power, and so its product below 10^18. Kept: the order of `compare`, which is no `Ord` (lib.rt).
pub(crate) fn by_parts(x: i64, p: usize, y: i64, q: usize) -> Ordering
    requires { (p ≤ max_places) × (q ≤ max_places) }
    ensures { result ≡ by_parts (scaled x (scale_of p)) (scaled y (scale_of q)) }
{
    let t = powers_for(p, q);
    match (x / t.first).cmp(&(y / t.second)) {
        Ordering::Less => Ordering::Less,
        Ordering::Equal => { (x % t.first * t.first_lacks).cmp(&(y % t.second * t.second_lacks)) }
        Ordering::Greater => Ordering::Greater,
    }
}
