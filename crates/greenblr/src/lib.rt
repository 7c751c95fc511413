// The product's functions for C (include/greenblr.h): numbers and slices only.
#![tactic(auto)]

ghost use Rattle.std.specs.Prelude.{◌≡◌, min};
ghost use Rattle.meaning.specs.Evaluation.{evaluation};
ghost use Rattle.greenblr.specs.Exports.{Exported, cause_given, truth_given, greatest_place, refusal_given, outcome_given, source_given, value_given, value_numbers, ValueExported};
ghost use Rattle.explanation.specs.Promise.{count_of};
ghost use Rattle.greenblr.specs.Explained.{count_given, ExplanationExported};
ghost use Rattle.greenblr.specs.Version.{version_given};

pub mod stores;
mod texts;

use explanation::Explanation;
use grammar::Refusal;
use meaning::{Source, Truth, ValueAnswer, ValueEvaluation};
use records::missing::Cause;
use values::Lent;
use wire::refused::Refused;

// The library's version (the file VERSION), in three numbers.
const MAJOR: u32 = 0;

const MINOR: u32 = 10;

const PATCH: u32 = 0;

// The version in one number: a later version has a greater one.
#[unsafe(no_mangle)]
pub extern "C" fn greenblr_version() -> u32
    ensures { result ≡ version_given }
{
    1000000 * MAJOR + 1000 * MINOR + PATCH
}

// Reads a request: 0 and the counts of rows, or the number of the refusal and its place. Kept: C gives these parameters, here and below.
#[unsafe(no_mangle)]
pub extern "C" fn greenblr_read(
    request: &[u8],
    dictionary: &[u8],
    statements: &mut [u32],
    parameters: &mut [u32],
    contexts: &mut [u32],
    answer: &mut [usize; 3],
) -> u32
    ensures { Exported request.now dictionary.now statements.old parameters.old contexts.old statements.new parameters.new contexts.new answer.new result }
{
    match reader::read(request, dictionary, statements, parameters, contexts) {
        Ok(counts) => {
            *answer = [counts.statements, counts.parameters, counts.contexts];
            0
        }
        Err(e) => {
            *answer = [e.place, 0, 0];
            u32::from(e.refusal)
        }
    }
}

// A cause as a number. Kept, here and below: C reads these numbers (include/greenblr.h), and no type of them is of this crate: no From.
fn cause_number(cause: Cause) -> u64
    ensures { result ≡ cause_given cause }
{
    match cause {
        Cause::Bit => 1,
        Cause::Reading => 2,
        Cause::Flag => 3,
        Cause::Nothing => 4,
    }
}

// The lowest byte of the answer of evaluation.
const FALSE: u64 = 0;

const TRUE: u64 = 1;

const MISSING: u64 = 2;

const REFUSED: u64 = 3;

// Of the answer of a from-value.
const NUMBER: u64 = 4;

const TEXT: u64 = 5;

const DATE: u64 = 6;

// Of the answer of an explanation.
const EXPLAINED: u64 = 7;

// One in the byte above it, where a cause or the number of a refusal stands; and one in the bits above that, where its place stands, or how
// many tests are listed.
const SECOND_BYTE: u64 = 256;

const PLACE_BITS: u64 = 65536;

// The greatest place that those bits hold, which are 48.
const GREATEST_PLACE: usize = 281474976710655;

// A truth value as a number; of missing, with the cause. Kept: as above.
fn truth_number(truth: Truth) -> u64
    ensures { result ≡ truth_given truth }
{
    match truth {
        Truth::False => FALSE,
        Truth::True => TRUE,
        Truth::Missing(w) => MISSING + SECOND_BYTE * cause_number(w),
    }
}

// A place, or the greatest that is held.
fn held_place(place: usize) -> u64
    ensures { result ≡ min place greatest_place }
{
    if place < GREATEST_PLACE {
        place as u64
    } else {
        GREATEST_PLACE as u64
    }
}

// A refusal and its place as a number. Kept: as above.
#[tactic(auto, using(crate::proofs::Numbers::number_few))]
fn refusal_number(refused: Refused<Refusal>) -> u64
    ensures { result ≡ refusal_given refused.refusal refused.place }
{
    REFUSED
        + SECOND_BYTE * u32::from(refused.refusal) as u64
        + PLACE_BITS * held_place(refused.place)
}

// Evaluates a condition by its number: what it comes out as, or the refusal and its place, in one number (include/greenblr.h).
#[unsafe(no_mangle)]
#[tactic(auto, unfolding(crate::specs::Exports::outcome_given))]
pub extern "C" fn greenblr_evaluate<'a>(
    request: &'a [u8],
    dictionary: &[u8],
    number: usize,
    images: &'a [u8],
    records: &'a [u8],
    runs: &'a [u8],
) -> u64
    ensures { result ≡ outcome_given
        (evaluation request.now dictionary.now number images.now records.now runs.now) }
{
    match evaluator::evaluate(request, dictionary, number, images, records, runs) {
        Ok(t) => truth_number(t),
        Err(e) => refusal_number(e),
    }
}

// What a text stands in, as a number. Kept: as above; another enum and other numbers than those of a cause.
fn source_number(source: Source) -> i64
    ensures { result ≡ source_given source }
{
    match source {
        Source::Request => 0,
        Source::Images => 2,
        Source::Records => 3,
        Source::Runs => 4,
    }
}

// What a from-value comes out as, as a number, with three more in the answer. Kept: the number and the three are what C reads.
fn value_number(value: ValueEvaluation, answer: &mut [i64; 3]) -> u64
    ensures { (result ≡ value_given value) × (answer.new ≡ value_numbers value) }
{
    match value {
        Ok(ValueAnswer::Number(n)) => {
            *answer = [n.value, n.scale as i64, 0];
            NUMBER
        }
        Ok(ValueAnswer::Text(source, start, end)) => {
            *answer = [
                source_number(source),
                held_place(start) as i64,
                held_place(end) as i64,
            ];
            TEXT
        }
        Ok(ValueAnswer::Date(day, fraction)) => {
            *answer = [day, fraction as i64, 0];
            DATE
        }
        Ok(ValueAnswer::Missing(w)) => {
            *answer = [0, 0, 0];
            truth_number(Truth::Missing(w))
        }
        Err(e) => {
            *answer = [0, 0, 0];
            refusal_number(e)
        }
    }
}

// Evaluates the from-value of an assignment by its row: what it comes out as, or the refusal and its place (include/greenblr.h).
#[unsafe(no_mangle)]
pub extern "C" fn greenblr_evaluate_value<'a>(
    request: &'a [u8],
    dictionary: &[u8],
    row: usize,
    images: &'a [u8],
    records: &'a [u8],
    runs: &'a [u8],
    answer: &mut [i64; 3],
) -> u64
    ensures { ValueExported request.now dictionary.now row images.now records.now
        runs.now answer.new result }
{
    let value = evaluator::evaluate_value(request, dictionary, row, images, records, runs);
    let lent = Lent {
        request,
        images,
        records,
        runs,
    };
    value_number(texts::inside(lent, value), answer)
}

// How many tests are listed, or a refusal and its place, as a number. Kept: as above.
#[tactic(auto, unfolding(crate::specs::Explained::count_given))]
fn explanation_number(explanation: Explanation) -> u64
    ensures { result ≡ count_given (count_of explanation) }
{
    match explanation {
        Ok(n) => EXPLAINED + PLACE_BITS * held_place(n),
        Err(e) => refusal_number(e),
    }
}

// Explains a condition by its number: the tests that decide it, in a lent table, and how many they are, or the refusal and its place, in one
// number (include/greenblr.h).
#[unsafe(no_mangle)]
pub extern "C" fn greenblr_explain<'a>(
    request: &'a [u8],
    dictionary: &[u8],
    number: usize,
    images: &'a [u8],
    records: &'a [u8],
    runs: &'a [u8],
    tests: &mut [u32],
) -> u64
    ensures { ExplanationExported request.now dictionary.now number images.now records.now
        runs.now tests.old tests.new result }
{
    let answer = explanation::explain(request, dictionary, number, images, records, runs, tests);
    explanation_number(answer)
}
