// Lines on standard output, of this program alone: no contract can say what is written, so these functions have none, and a public function
// of a library has one. So `text`, `refused` and `bad_input` stand in `listing`, `evaluate` and `explain` alike.
use explanation::Explanation;
use grammar::Refusal;
use wire::refused::Refused;

// Kept, in this file: `println!` hands a failed write to its caller, which the programs pass over; with `let _ =` on each line it is no plainer.
// Kept as twins: `text`, `refused` and `bad_input` stand in three programs, as the head of this file says.
fn text(s: &[u8]) {
    io::write_all(1, s);
}

// A refusal's number and place.
fn refused(e: Refused<Refusal>) {
    text(b"refused ");
    io::print_decimal(1, u64::from(u32::from(e.refusal)));
    text(b" at ");
    io::print_decimal(1, e.place as u64);
    text(b"\n");
}

// A place, and an outcome by its number in the table.
fn line(place: u32, outcome: u32) {
    io::print_decimal(1, place as u64);
    match outcome {
        0 => text(b" false\n"),
        1 => text(b" true\n"),
        _ => text(b" missing\n"),
    }
}

// A line for each of so many tests: two numbers of the table each, which has room for all.
fn lines(n: usize, tests: &[u32]) {
    for test in tests.chunks_exact(2).take(n) {
        line(test[0], test[1]);
    }
}

pub(crate) fn explanation_lines(e: Explanation, tests: &[u32]) {
    match e {
        Ok(n) => lines(n, tests),
        Err(e) => refused(e),
    }
}

pub(crate) fn bad_input() {
    text(b"bad input\n");
}
