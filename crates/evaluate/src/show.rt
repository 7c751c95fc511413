// Lines on standard output, of this program alone: no contract can say what is written, so these functions have none, and a public function
// of a library has one. So `text`, `refused` and `bad_input` stand in `listing`, `evaluate` and `explain` alike.
use grammar::Refusal;
use meaning::{Evaluation, Source, Truth, ValueAnswer, ValueEvaluation};
use wire::bytes::byte_on;
use wire::refused::Refused;

// Kept, in this file: `println!` hands a failed write to its caller, which the programs pass over; with `let _ =` on each line it is no plainer.
// Kept as twins: `text`, `refused` and `bad_input` stand in three programs, as the head of this file says.
fn text(s: &[u8]) {
    io::write_all(1, s);
}

fn truth(t: Truth) {
    match t {
        Truth::True => text(b"true\n"),
        Truth::False => text(b"false\n"),
        Truth::Missing(_) => text(b"missing\n"),
    }
}

// A refusal's number and place.
fn refused(e: Refused<Refusal>) {
    text(b"refused ");
    io::print_decimal(1, u64::from(u32::from(e.refusal)));
    text(b" at ");
    io::print_decimal(1, e.place as u64);
    text(b"\n");
}

pub(crate) fn evaluation(e: Evaluation) {
    match e {
        Ok(t) => truth(t),
        Err(e) => refused(e),
    }
}

// A signed number.
// Kept: `io` prints numbers without a sign only, and no heap or runtime is at hand for a Display.
fn signed(n: i64) {
    if n < 0 {
        text(b"-");
    }
    io::print_decimal(1, n.unsigned_abs());
}

// Two numbers after a word.
fn pair(word: &[u8], a: i64, b: i64) {
    text(word);
    signed(a);
    text(b" ");
    signed(b);
    text(b"\n");
}

// The bytes of a text as they are, from one place to another of the slice that begins at `from`.
// Kept: past the end of the slice it prints zeros, which a part of the slice does not have.
fn bytes(s: &[u8], from: usize, start: usize, end: usize) {
    text(b"text ");
    for p in start..end {
        text(&[byte_on(s, from, p)]);
    }
    text(b"\n");
}

// What a from-value comes out as; a text stands in the input, where request, records and runs begin, or in the message bytes.
pub(crate) fn value(
    v: ValueEvaluation,
    s: &[u8],
    images: &[u8],
    request: usize,
    records: usize,
    runs: usize,
) {
    match v {
        Ok(ValueAnswer::Number(n)) => pair(b"number ", n.value, i64::from(n.scale)),
        Ok(ValueAnswer::Text(source, start, end)) => match source {
            Source::Request => bytes(s, request, start, end),
            Source::Images => bytes(images, 0, start, end),
            Source::Records => bytes(s, records, start, end),
            Source::Runs => bytes(s, runs, start, end),
        },
        Ok(ValueAnswer::Date(day, fraction)) => pair(b"date ", day, i64::from(fraction)),
        Ok(ValueAnswer::Missing(_)) => text(b"missing\n"),
        Err(e) => refused(e),
    }
}

pub(crate) fn bad_input() {
    text(b"bad input\n");
}
