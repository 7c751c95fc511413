// A number at more decimal places.
ghost use Rattle.std.specs.Prelude.{◌≡◌, ◌*◌, ◌≤◌, ◌^◌, pos, ◌*ℤ◌};
ghost use Rattle.decimal.specs.Number.{max_places, fitted, rescaled};

use super::places::{places_in, scale_of};
use super::powers::power;
use super::values::fitting;
use super::{Computed, Number};

// The value times a power of ten. By no places it is the value, and the table of powers is not read. Kept: k as in powers.rt.
pub(crate) fn raise(x: i64, k: usize, scale: i8) -> Computed
    requires { k ≤ max_places }
    ensures { result ≡ fitted (x *ℤ pos (10 ^ k)) scale }
{
    if k == 0 {
        return Ok(Number { value: x, scale });
    }
    fitting(x.checked_mul(power(k)), scale)
}

// The value times the same power of ten twice. Where the first product does not fit, the second does not. Kept: k as above.
pub(crate) fn raise_twice(x: i64, k: usize, scale: i8) -> Computed
    requires { k ≤ max_places }
    ensures { result ≡ fitted (x *ℤ pos (10 ^ (2 * k))) scale }
{
    let n = raise(x, k, scale)?;
    raise(n.value, k, scale)
}

// The number at k places, or at its own where these are more. Kept: k as above.
#[tactic(auto, unfolding(crate::specs::Number::rescaled))]
pub(crate) fn at_places(a: Number, k: usize) -> Computed
    requires { k ≤ max_places }
    ensures { result ≡ rescaled k a }
{
    let p = places_in(a);
    let m = k.max(p);
    raise(a.value, m - p, scale_of(m))
}
