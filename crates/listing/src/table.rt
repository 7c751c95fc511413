// Rows of a table as lines of the listing. The module is private to the program, and its functions ask for room in the table.
ghost use Rattle.std.specs.Prelude.{◌*◌, ◌≤◌, length};

use crate::show::{number, text};

// A row: a name and its numbers.
fn row(name: &[u8], numbers: &[u32]) {
    text(name);
    for n in numbers {
        text(b" ");
        number(*n);
    }
    text(b"\n");
}

// The first rows of a table that holds so many.
pub(crate) fn rows(name: &[u8], table: &[u32], width: usize, count: usize)
    requires { count * width ≤ length table.now }
{
    for n in 0..count {
        let start = n * width;
        row(name, &table[start..start + width]);
    }
}
