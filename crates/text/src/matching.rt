// Whether a text matches a pattern: `*` is any run, `?` one byte.
ghost use Rattle.std.specs.Prelude.{◌≡◌, ◌<◌, length, drop};
ghost use Rattle.text.specs.Tests.{sign_matches, matches};
ghost use Rattle.text.specs.Internal.Matching.{Told};

use crate::letters::same_letter;

// `*`
const ANY_RUN: u8 = 42;

// `?`
const ONE_BYTE: u8 = 63;

// Never: the pattern matches no end of the text, so a run before it needs no more tries.
#[derive(Clone, Copy)]
enum Matched {
    Yes,
    No,
    Never,
}

// A slice without its first byte.
fn rest(s: &[u8]) -> &[u8]
    requires { 0 < length s.now }
    ensures { result.now ≡ drop 1 s.now }
{
    &s[1..]
}

// Whether the sign c of a pattern, which is no `*`, matches a byte.
fn sign_matches(c: u8, x: u8) -> bool
    ensures { result ≡ sign_matches c x }
{
    if c == ONE_BYTE {
        return true;
    }
    same_letter(c, x)
}

// In time pattern × text: once the part up to the next `*` is found, no later place for it is tried.
fn answer_of(p: &[u8], t: &[u8]) -> Matched
    ensures { Told result p.now t.now }
{
    if p.len() == 0 {
        if t.len() == 0 {
            return Matched::Yes;
        }
        return Matched::No;
    }
    let c = p[0];
    if c == ANY_RUN {
        match answer_of(rest(p), t) {
            Matched::Yes => {
                return Matched::Yes;
            }
            Matched::Never => {
                return Matched::Never;
            }
            Matched::No => {
                if t.len() == 0 {
                    return Matched::Never;
                }
                return answer_of(p, rest(t));
            }
        }
    }
    if t.len() == 0 {
        return Matched::Never;
    }
    if sign_matches(c, t[0]) {
        return answer_of(rest(p), rest(t));
    }
    Matched::No
}

// Whether the text a matches the pattern b.
pub(crate) fn matching(a: &[u8], b: &[u8]) -> bool
    ensures { result ≡ matches b.now a.now }
{
    match answer_of(b, a) {
        Matched::Yes => true,
        Matched::No => false,
        Matched::Never => false,
    }
}
