// The listing program: reads an entry of kind 4 (the dictionary) and one of kind 5 (the request) from standard input, and prints the rows of
// the request, its refusal, or that the input is not these two entries.
#![tactic(auto)]

mod show;
mod table;

use show::{bad_input, line, refused};
use table::rows;
use wire::entries::ENTRY_BODY;
use wire::limits::{
    CONTEXT_ROW, CONTEXT_TABLE, PARAMETER_ROW, PARAMETER_TABLE, STATEMENT_ROW, STATEMENT_TABLE,
};

// The rows of a request beside a dictionary, or its refusal. The tables are as short as reading allows.
fn list(dictionary: &[u8], body: &[u8]) {
    let mut statements = [0u32; STATEMENT_TABLE];
    let mut parameters = [0u32; PARAMETER_TABLE];
    let mut contexts = [0u32; CONTEXT_TABLE];
    match reader::read(
        body,
        dictionary,
        &mut statements,
        &mut parameters,
        &mut contexts,
    ) {
        Ok(counts) => {
            line(b"request ", body.len());
            rows(b"statement", &statements, STATEMENT_ROW, counts.statements);
            rows(b"parameter", &parameters, PARAMETER_ROW, counts.parameters);
            rows(b"context", &contexts, CONTEXT_ROW, counts.contexts);
        }
        Err(e) => refused(e),
    }
}

// The listing of an input: a body starts four bytes after its entry.
fn answer(s: &[u8]) {
    match input::request_entry(s) {
        Some(at) => list(&s[ENTRY_BODY..at], &s[at + ENTRY_BODY..]),
        None => bad_input(),
    }
}

// Two entries have at most 131,070 bytes; with room for one more, a longer input is seen to be too long.
const INPUT_SPACE: usize = 131071;

fn main() {
    let mut space = [0u8; INPUT_SPACE];
    let n = io::read_full(0, &mut space);
    answer(&space[..n]);
}
