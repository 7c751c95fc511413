// The program `explain`: reads the entries of a dictionary (kind 4), a request (5), the number of a boolean (9), any number of message bytes
// (10), any number of records (3) and any number of runs (7) from standard input. Prints the tests that decide the boolean, a line each with
// place and outcome; a refusal; or that the input is not these entries.
#![tactic(auto)]

mod show;

ghost use Rattle.std.specs.Prelude.{◌≤◌, length};
ghost use Rattle.input.specs.Evaluation.{max_input_bytes};
ghost use Rattle.explain.specs.Program.{Answered};

use explanation::{Explanation, TEST_TABLE};
use input::{MAX_INPUT_BYTES, NUMBER_ENTRY_BYTES};
use show::{bad_input, explanation_lines};
use wire::bytes::word_at;
use wire::entries::{ENTRY_BODY, MESSAGE_ENTRY};

// The answer to an input, if it is one, with the tests in a lent table. A body starts four bytes after its entry; the messages are joined in a space as
// long as the longest input.
// Kept as a fact, in this file: the room for the joined messages; a struct around one lent slice is no plainer.
fn explain_input(s: &[u8], images: &mut [u8], tests: &mut [u32]) -> Option<Explanation>
    requires { max_input_bytes ≤ length images.old }
    ensures { Answered s.now tests.old tests.new result }
{
    let at = input::evaluation_entries(s)?;
    if input::asks_row(s, at.number) {
        return None;
    }
    let joined = input::join_bodies(s, at.number + NUMBER_ENTRY_BYTES, MESSAGE_ENTRY, images);
    let bytes = &s[at.request + ENTRY_BODY..at.number];
    let dictionary = &s[ENTRY_BODY..at.request];
    let asked = word_at(s, at.number + ENTRY_BODY) as usize;
    let messages = &images[..joined];
    let rows = &s[at.records..at.runs];
    let behind = &s[at.runs..];
    Some(explanation::explain(bytes, dictionary, asked, messages, rows, behind, tests))
}

// The answer to an input, with the tests that were listed.
fn show_answer(answer: Option<Explanation>, tests: &[u32]) {
    match answer {
        Some(e) => explanation_lines(e, tests),
        None => bad_input(),
    }
}

// With room for one byte more than the longest input, a longer one is seen to be too long.
const INPUT_SPACE: usize = MAX_INPUT_BYTES + 1;

// Reads the input into a space, and shows the answer.
fn run(space: &mut [u8], images: &mut [u8], tests: &mut [u32])
    requires { max_input_bytes ≤ length images.old }
{
    let n = io::read_full(0, space);
    let answer = explain_input(&space[..n], images, tests);
    show_answer(answer, tests);
}

// Lends the arrays as slices, whose lengths are those of the arrays' types.
fn with_space(
    space: &mut [u8; INPUT_SPACE],
    images: &mut [u8; MAX_INPUT_BYTES],
    tests: &mut [u32; TEST_TABLE],
) {
    run(space, images, tests);
}

fn main() {
    let mut space = [0u8; INPUT_SPACE];
    let mut images = [0u8; MAX_INPUT_BYTES];
    let mut tests = [0u32; TEST_TABLE];
    with_space(&mut space, &mut images, &mut tests);
}
