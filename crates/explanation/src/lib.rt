// Why a condition came out as it did: the tests that decide it, in a lent table.
#![tactic(auto)]

ghost use Rattle.explanation.specs.Promise.{Listed};

use evaluator::prepared::Given;
use grammar::Refusal;
use reader::read_noting;
use wire::limits::{CONTEXT_TABLE, MAX_STATEMENTS, PARAMETER_TABLE, STATEMENT_TABLE};
use wire::refused::Refused;

mod conditions;
mod list;
mod rows;
mod settles;
mod walk;

// A table of so many numbers is never too short: two for each test that a condition of an accepted request can have.
pub const TEST_TABLE: usize = 21844;

// The answer of explanation: how many tests the table lists; or the refusal and its place.
pub type Explanation = Result<usize, Refused<Refusal>>;

// The condition of a number, from 0 in reading order: the tests that decide it with these message images, records and runs, two numbers a
// test, place and outcome, in a table that is cleared first; or the refusal and its place.
pub fn explain(
    request: &[u8],
    dictionary: &[u8],
    number: usize,
    images: &[u8],
    records: &[u8],
    runs: &[u8],
    tests: &mut [u32],
) -> Explanation
    ensures { Listed request.now dictionary.now number images.now records.now
        runs.now tests.old tests.new result }
{
    tests.fill(0);
    let mut statements = [0u32; STATEMENT_TABLE];
    let mut parameters = [0u32; PARAMETER_TABLE];
    let mut contexts = [0u32; CONTEXT_TABLE];
    let mut places = [0u32; MAX_STATEMENTS];
    let counts = read_noting(
        request,
        dictionary,
        &mut statements,
        &mut parameters,
        &mut contexts,
        &mut places,
    )?;
    let given = Given {
        request,
        dictionary,
        parameters: &parameters,
        contexts: &contexts,
        counts,
        images,
        records,
        runs,
    };
    conditions::explain_read(given, &places, number, tests)
}
