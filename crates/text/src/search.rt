// The three searches of a text.
ghost use Rattle.std.specs.Prelude.{◌≡◌, ◌≤◌, length};
ghost use Rattle.text.specs.Tests as tests;

use crate::letters::same_letter;
use crate::matching::matching;
use wire::codes::TextSearch;

// Whether a starts with b where the case of a letter does not count.
fn starting_any_case(a: &[u8], b: &[u8]) -> bool
    requires { length b.now ≤ length a.now }
    ensures { result ≡ tests.starts_by tests.same_letter a.now b.now }
{
    for i in 0..b.len() {
        if !same_letter(a[i], b[i]) {
            return false;
        }
    }
    true
}

// In a frame of its own: laid into its callers, it takes a quarter more time.
#[inline(never)]
pub(crate) fn containing(a: &[u8], b: &[u8]) -> bool
    ensures { result ≡ tests.containing a.now b.now }
{
    if a.len() < b.len() {
        return false;
    }
    for at in 0..=a.len() - b.len() {
        if starting_any_case(&a[at..], b) {
            return true;
        }
    }
    false
}

// Kept: std's method, under the equation that contracts cite.
#[tactic(auto, unfolding(crate::specs::Tests::starting), using(crate::proofs::SearchLaws::starts_with_is))]
pub(crate) fn starting(a: &[u8], b: &[u8]) -> bool
    ensures { result ≡ tests.starting a.now b.now }
{
    a.starts_with(b)
}

// Whether a contains, matches or starts with b.
#[tactic(auto, unfolding(crate::specs::Tests::search))]
pub fn searched(t: TextSearch, a: &[u8], b: &[u8]) -> bool
    ensures { result ≡ tests.search t a.now b.now }
{
    match t {
        TextSearch::Containing => containing(a, b),
        TextSearch::Matching => matching(a, b),
        TextSearch::Starting => starting(a, b),
    }
}
