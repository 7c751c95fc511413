// The contexts in scope at a place, by the rows of bindings.
ghost use Rattle.std.specs.Prelude.{◌≡◌, ◌+◌, ◌*◌, ◌≤◌, length};
ghost use Rattle.wire.specs.Options.{option_of};
ghost use Rattle.surroundings.specs.Bindings.{binding_row_numbers, rows_in};
ghost use Rattle.kinds.specs.Spans.{span_at, holds, row_around};

use surroundings::bindings::{BINDING_CODE, BINDING_END, BINDING_NUMBER, BINDING_ROW};
use wire::numbers::ContextNumber;
use wire::table::number_at;

// Kept: the rows of bindings are numbers of a lent table (surroundings, bindings.rt), here and below.
// Whether the context of a row has a number and is in scope at a place.
fn holds_at(bindings: &[u32], row: usize, number: ContextNumber, at: usize) -> bool
    requires { row * binding_row_numbers + binding_row_numbers ≤ length bindings.now }
    ensures { result ≡ holds number.0 at (span_at bindings.now row) }
{
    let first = row * BINDING_ROW;
    let code = number_at(bindings, first + BINDING_CODE) as usize;
    let end = number_at(bindings, first + BINDING_END) as usize;
    number_at(bindings, first + BINDING_NUMBER) == u32::from(number.0)
        && (code == 0 || code < at && at < end)
}

// Kept: as above.
// The first row whose context has a number and is in scope at a place.
pub(crate) fn row_around(bindings: &[u32], number: ContextNumber, at: usize) -> Option<usize>
    ensures { result ≡ option_of (row_around bindings.now number.0 at (rows_in bindings.now) 0) }
{
    let rows = bindings.len() / BINDING_ROW;
    for row in 0..rows {
        if holds_at(bindings, row, number, at) {
            return Some(row);
        }
    }
    None
}
