// The order of two texts.
ghost use Rattle.std.specs.Prelude.{◌≡◌, get_or};
ghost use Rattle.text.specs.Value.{blank};
ghost use Rattle.text.specs.Tests.{text_order};

use crate::value::BLANK;
use std::cmp::Ordering;

// The byte at a place, or a blank past the end.
fn padded(s: &[u8], i: usize) -> u8
    ensures { result ≡ get_or s.now i blank }
{
    if i < s.len() { s[i] } else { BLANK }
}

// By unsigned bytes, the shorter padded with blanks. Kept: the order of slices puts the shorter first, without blanks.
pub fn compare(a: &[u8], b: &[u8]) -> Ordering
    ensures { result ≡ text_order a.now b.now }
{
    for i in 0..a.len().max(b.len()) {
        let order = padded(a, i).cmp(&padded(b, i));
        if order != Ordering::Equal {
            return order;
        }
    }
    Ordering::Equal
}
