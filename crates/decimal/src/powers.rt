// The powers of ten.
ghost use Rattle.std.specs.Prelude.{◌≡◌, ◌-◌, ◌≤◌, ◌^◌, max, pos};
ghost use Rattle.decimal.specs.Number.{max_places};

use super::places::MAX_PLACES;

// From ten to the 0 up to ten to the most places.
const POWERS: [i64; MAX_PLACES + 1] = [
    1,
    10,
    100,
    1000,
    10000,
    100000,
    1000000,
    10000000,
    100000000,
    1000000000,
    10000000000,
    100000000000,
    1000000000000,
    10000000000000,
    100000000000000,
    1000000000000000,
    10000000000000000,
    100000000000000000,
    1000000000000000000,
];

// Ten to the k. Kept, here and in rescaling.rt: a type of the counts up to 18 would be unpacked at each sum and difference of them.
pub(crate) fn power(k: usize) -> i64
    requires { k ≤ max_places }
    ensures { result ≡ pos (10 ^ k) }
{
    POWERS[k]
}

// Ten to the places of two numbers, and to the places that each lacks of the larger count.
#[derive(Clone, Copy)]
pub(crate) struct PlacePowers {
    pub first: i64,
    pub first_lacks: i64,
    pub second: i64,
    pub second_lacks: i64,
}

// The compiler copies the table to the stack wherever it is read: one copy serves all four.
pub(crate) fn powers_for(p: usize, q: usize) -> PlacePowers
    requires { (p ≤ max_places) × (q ≤ max_places) }
    ensures first_value { (result.first ≡ pos (10 ^ p)) × (result.first_lacks ≡ pos (10 ^ (max p q - p))) }
    ensures second_value { (result.second ≡ pos (10 ^ q)) × (result.second_lacks ≡ pos (10 ^ (max p q - q))) }
{
    let powers = POWERS;
    let most = p.max(q);
    PlacePowers {
        first: powers[p],
        first_lacks: powers[most - p],
        second: powers[q],
        second_lacks: powers[most - q],
    }
}
