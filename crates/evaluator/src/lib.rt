// Evaluation: a condition of a request, by its number, and the from-value of an assignment, by its row, with messages, records and runs.
#![tactic(auto)]

ghost use Rattle.meaning.specs.Evaluated.{Evaluated};
ghost use Rattle.meaning.specs.ValueEvaluated.{ValueEvaluated};

use crate::prepared::Given;
use meaning::{Evaluation, ValueEvaluation};
use reader::{read, read_noting};
use wire::limits::{CONTEXT_TABLE, MAX_STATEMENTS, PARAMETER_TABLE, STATEMENT_TABLE};

pub mod answers;
mod conditions;
mod gathering;
mod numbers;
mod places;
pub mod prepared;
mod quantifiers;
mod rows;
pub mod tested;
mod walk;

// The condition of a number, from 0 in reading order: what it comes out as with these message images, records and runs, or the refusal and its place.
// Kept: README and docs name these arguments.
pub fn evaluate<'a>(
    request: &'a [u8],
    dictionary: &[u8],
    number: usize,
    images: &'a [u8],
    records: &'a [u8],
    runs: &'a [u8],
) -> Evaluation
    ensures { Evaluated request.now dictionary.now number images.now records.now
        runs.now result }
{
    let mut statements = [0u32; STATEMENT_TABLE];
    let mut parameters = [0u32; PARAMETER_TABLE];
    let mut contexts = [0u32; CONTEXT_TABLE];
    let mut places = [0u32; MAX_STATEMENTS];
    let counts = read_noting(
        request,
        dictionary,
        &mut statements,
        &mut parameters,
        &mut contexts,
        &mut places,
    )?;
    let given = Given {
        request,
        dictionary,
        parameters: &parameters,
        contexts: &contexts,
        counts,
        images,
        records,
        runs,
    };
    conditions::evaluate_read(given, &places, number)
}

// The from-value of an assignment, by the row of its statement, from 0: what it comes out as with these message images, records and runs, or
// the refusal and its place. Kept: README and docs name these arguments.
pub fn evaluate_value<'a>(
    request: &'a [u8],
    dictionary: &[u8],
    row: usize,
    images: &'a [u8],
    records: &'a [u8],
    runs: &'a [u8],
) -> ValueEvaluation
    ensures { ValueEvaluated request.now dictionary.now row images.now records.now
        runs.now result }
{
    let mut statements = [0u32; STATEMENT_TABLE];
    let mut parameters = [0u32; PARAMETER_TABLE];
    let mut contexts = [0u32; CONTEXT_TABLE];
    let counts = read(
        request,
        dictionary,
        &mut statements,
        &mut parameters,
        &mut contexts,
    )?;
    let given = Given {
        request,
        dictionary,
        parameters: &parameters,
        contexts: &contexts,
        counts,
        images,
        records,
        runs,
    };
    conditions::evaluate_row(given, &statements, row)
}
