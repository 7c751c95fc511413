// Counted names, of which a dictionary has many.
ghost use Rattle.std.specs.Prelude.{◌≡◌, ◌&&◌, leb};
ghost use Rattle.wire.specs.Lists.{same_bytes};
ghost use Rattle.wire.specs.Limits.{first_name_byte, last_name_byte};
ghost use Rattle.dictionary.specs.Dictionary.{name_at, good_name};

use wire::limits::{FIRST_NAME_BYTE, LAST_NAME_BYTE, MAX_NAME_BYTES};

// Whether two names are the same, from the last byte on, since the names of one relation often begin alike. Kept: with slices' `==`, which
// goes from the first, the check of the largest dictionary took 1.7 times as long.
pub(crate) fn same_bytes(a: &[u8], b: &[u8]) -> bool
    ensures { result ≡ same_bytes a.now b.now }
{
    if a.len() != b.len() {
        return false;
    }
    for i in (0..a.len()).rev() {
        if a[i] != b[i] {
            return false;
        }
    }
    true
}

// The counted name at a place; what of it lies past the end is left off.
pub fn name_at<'a>(d: &'a [u8], p: usize) -> &'a [u8]
    ensures { result.now ≡ name_at d.now p }
{
    if d.len() <= p {
        return &[];
    }
    let rest = &d[p + 1..];
    &rest[..rest.len().min(d[p] as usize)]
}

fn good_byte(x: u8) -> bool
    ensures { result ≡ (leb first_name_byte x && leb x last_name_byte) }
{
    FIRST_NAME_BYTE <= x && x <= LAST_NAME_BYTE
}

// "Names have 1 to 31 bytes of 33–126."
pub(crate) fn good_name(s: &[u8]) -> bool
    ensures { result ≡ good_name s.now }
{
    if s.is_empty() || MAX_NAME_BYTES < s.len() {
        return false;
    }
    s.iter().all(|x| good_byte(*x))
}
