// The value of a text: the part of the lent slice that holds it, without trailing blanks.
ghost use Rattle.std.specs.Prelude.{◌≡◌, ◌+◌, ◌≤◌, eqb, length, position};
ghost use Rattle.text.specs.Value.{kept, trimmed, text_part};
ghost use Rattle.text.specs.Internal.TextRead.{TextRead};

use wire::bytes::word_at;
use wire::codes::TextType;
use wire::limits::LENGTH_WORD;

pub(crate) const BLANK: u8 = 32;

// How many of the n bytes from p on are left without the blanks at their end.
// Kept, with trimmed_part: places of the whole slice are answered, so a part of it would be cut and its place added again.
fn kept_length(s: &[u8], p: usize, n: usize) -> usize
    requires { p + n ≤ length s.now }
    ensures { result ≡ kept s.now p n }
{
    for k in (0..n).rev() {
        if s[p + k] != BLANK {
            return k + 1;
        }
    }
    0
}

fn trimmed_part(s: &[u8], p: usize, n: usize) -> Option<(usize, usize)>
    requires { p + n ≤ length s.now }
    ensures { result ≡ trimmed s.now p n }
{
    Some((p, p + kept_length(s, p, n)))
}

// A length word, and the text after it.
#[tactic(auto, unfolding(crate::specs::Value::text_part))]
fn varying_part(s: &[u8]) -> Option<(usize, usize)>
    ensures { result ≡ text_part TextType.Varying s.now }
{
    if s.len() < LENGTH_WORD {
        return None;
    }
    let n = word_at(s, 0) as usize;
    if s.len() - LENGTH_WORD < n {
        return None;
    }
    trimmed_part(s, LENGTH_WORD, n)
}

fn first_zero(s: &[u8]) -> Option<usize>
    ensures { result ≡ position (λ x. eqb x 0) s.now }
{
    s.iter().position(|&x| x == 0)
}

// The bytes before the first zero.
#[tactic(auto, unfolding(crate::specs::Value::text_part))]
fn cstring_part(s: &[u8]) -> Option<(usize, usize)>
    ensures { result ≡ text_part TextType.Cstring s.now }
{
    let n = first_zero(s)?;
    trimmed_part(s, 0, n)
}

// Where the text starts and ends in the bytes that hold it; None: it is malformed.
#[tactic(auto, unfolding(crate::specs::Value::text_part))]
pub fn text_part(t: TextType, s: &[u8]) -> Option<(usize, usize)>
    ensures { result ≡ text_part t s.now }
{
    match t {
        TextType::Text => trimmed_part(s, 0, s.len()),
        TextType::Varying => varying_part(s),
        TextType::Cstring => cstring_part(s),
    }
}

// The text itself; of a malformed one an empty part.
#[tactic(auto, unfolding(crate::specs::Value::bytes_of))]
pub fn text_of<'a>(t: TextType, s: &'a [u8]) -> &'a [u8]
    ensures { TextRead t s.now result.now }
{
    match text_part(t, s) {
        Some((start, end)) => &s[start..end],
        None => &s[0..0],
    }
}
