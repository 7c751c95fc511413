// Lines on standard output, of this program alone: no contract can say what is written, so these functions have none, and a public function
// of a library has one. So `text`, `refused` and `bad_input` stand in `listing`, `evaluate` and `explain` alike.
use grammar::Refusal;
use wire::refused::Refused;

// Kept, in this file: `println!` hands a failed write to its caller, which the programs pass over; with `let _ =` on each line it is no plainer.
// Kept as twins: `text`, `refused` and `bad_input` stand in three programs, as the head of this file says.
pub(crate) fn text(s: &[u8]) {
    io::write_all(1, s);
}

pub(crate) fn number(n: u32) {
    io::print_decimal(1, n as u64);
}

// A line with a number after a text.
pub(crate) fn line(s: &[u8], n: usize) {
    text(s);
    io::print_decimal(1, n as u64);
    text(b"\n");
}

pub(crate) fn bad_input() {
    text(b"bad input\n");
}

// A refusal's number and place.
pub(crate) fn refused(e: Refused<Refusal>) {
    text(b"refused ");
    number(u32::from(e.refusal));
    line(b" at ", e.place);
}
