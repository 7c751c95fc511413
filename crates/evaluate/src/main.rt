// The program `evaluate`: reads the entries of a dictionary (kind 4), a request (5), the number of a boolean (9) or the row of an assignment
// (11), any number of message bytes (10), any number of records (3) and any number of runs (7) from standard input. Prints `true`, `false` or
// `missing`, or of an assignment the number, the text or the date that it puts into its target, or `missing`; a refusal; or that the input is
// not these entries.
#![tactic(auto)]

mod show;

ghost use Rattle.std.specs.Prelude.{◌≤◌, length};
ghost use Rattle.input.specs.Evaluation.{max_input_bytes};
ghost use Rattle.evaluate.specs.Program.{Answered};

use input::{MAX_INPUT_BYTES, NUMBER_ENTRY_BYTES};
use meaning::{Evaluation, ValueEvaluation};
use show::{bad_input, evaluation, value};
use wire::bytes::word_at;
use wire::entries::{ENTRY_BODY, MESSAGE_ENTRY};

// Kept: two kinds of answer, and an input that is none; an Option around an enum of the two is no plainer.
// Of a value also where request, records and runs begin in the input, for a text in one of them; messages stand in a space of their own.
#[derive(Clone, Copy)]
enum ProgramAnswer {
    Is(Evaluation),
    Value(ValueEvaluation, usize, usize, usize),
    BadInput,
}

// The answer to an input. A body starts four bytes after its entry; the messages are joined in a space as long as the longest input.
// Kept as a fact, in this file: the room for the joined messages; a struct around one lent slice is no plainer.
fn evaluate_input(s: &[u8], images: &mut [u8]) -> ProgramAnswer
    requires { max_input_bytes ≤ length images.old }
    ensures { Answered s.now result }
{
    let Some(at) = input::evaluation_entries(s) else {
        return ProgramAnswer::BadInput;
    };
    let joined = input::join_bodies(s, at.number + NUMBER_ENTRY_BYTES, MESSAGE_ENTRY, images);
    let bytes = &s[at.request + ENTRY_BODY..at.number];
    let dictionary = &s[ENTRY_BODY..at.request];
    let asked = word_at(s, at.number + ENTRY_BODY) as usize;
    let messages = &images[..joined];
    let rows = &s[at.records..at.runs];
    let behind = &s[at.runs..];
    if input::asks_row(s, at.number) {
        let v = evaluator::evaluate_value(bytes, dictionary, asked, messages, rows, behind);
        return ProgramAnswer::Value(v, at.request + ENTRY_BODY, at.records, at.runs);
    }
    ProgramAnswer::Is(evaluator::evaluate(bytes, dictionary, asked, messages, rows, behind))
}

// The answer to an input, with the message bytes joined.
fn show_answer(a: ProgramAnswer, s: &[u8], images: &[u8]) {
    match a {
        ProgramAnswer::Is(e) => evaluation(e),
        ProgramAnswer::Value(v, request, records, runs) => value(
            v, s, images, request, records, runs,
        ),
        ProgramAnswer::BadInput => bad_input(),
    }
}

// With room for one byte more than the longest input, a longer one is seen to be too long.
const INPUT_SPACE: usize = MAX_INPUT_BYTES + 1;

// Reads the input into a space, and shows the answer.
fn run(space: &mut [u8], images: &mut [u8])
    requires { max_input_bytes ≤ length images.old }
{
    let n = io::read_full(0, space);
    let answer = evaluate_input(&space[..n], images);
    show_answer(answer, &space[..n], images);
}

// Lends the two arrays as slices, whose lengths are those of the arrays' types.
fn with_space(space: &mut [u8; INPUT_SPACE], images: &mut [u8; MAX_INPUT_BYTES]) {
    run(space, images);
}

fn main() {
    let mut space = [0u8; INPUT_SPACE];
    let mut images = [0u8; MAX_INPUT_BYTES];
    with_space(&mut space, &mut images);
}
