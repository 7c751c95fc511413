// The tests of rows in a lent table.
ghost use Rattle.std.specs.Prelude.{◌≡◌, ℕ, ◌≤◌, length};
ghost use Rattle.explanation.specs.Internal.Noting.{RowsListed};

use crate::Explanation;
use crate::rows::OUTCOMES;
use grammar::Refusal;
use wire::refused::Refused;
use wire::table::put;

// Two numbers a test, place and outcome; 1 at 0 where they do not fit.
pub(crate) fn list_rows(noted: &[u32], tests: &mut [u32]) -> Explanation
    requires { length noted.now ≤ 10922 }
    ensures { RowsListed noted.now tests.old tests.new result }
{
    if tests.len() < 2 * noted.len() {
        return Err(Refused::new(Refusal::TablesTooShort, 0));
    }
    for i in 0..noted.len() {
        let row = noted[i];
        put(tests, 2 * i, row / OUTCOMES);
        put(tests, 2 * i + 1, row % OUTCOMES);
    }
    Ok(noted.len())
}
