// The rows of a table of bindings.
// Kept: a row's and a column's bounds are asked for, since a struct of a table and a row would have to be shown to have the walk's own
// table (no plainer); the rows are numbers of a lent table (surroundings, bindings.rt).
ghost use Rattle.std.specs.Prelude.{◌≡◌, ℕ, ◌+◌, ◌*◌, ◌<◌, ◌≤◌};
ghost use Rattle.std.proofs.lemmas.List.Edits.{sets};
ghost use Rattle.wire.specs.Limits.{max_contexts};
ghost use Rattle.surroundings.specs.Bindings.{binding_row_numbers, cell};

use surroundings::bindings::BINDING_ROW;
use wire::table::{number_at, put};

// Where a number of a row stands in a table of bindings.
pub(crate) fn cell_place(row: usize, column: usize) -> usize
    requires { (row ≤ max_contexts) × (column < binding_row_numbers) }
    ensures { result ≡ row * binding_row_numbers + column }
{
    row * BINDING_ROW + column
}

// A number of a row.
pub(crate) fn cell_of(bindings: &[u32], row: usize, column: usize) -> usize
    requires { (row ≤ max_contexts) × (column < binding_row_numbers) }
    ensures { (result ≡ cell bindings.now row column) × (result < 4294967296) }
{
    number_at(bindings, cell_place(row, column)) as usize
}

// Kept: std's copy_from_slice calls memmove of the C library, and the archive calls memcpy and memset alone.
// Lays a table over the start of another.
pub(crate) fn copy(from: &[u32], to: &mut [u32])
    ensures { to.new ≡ sets to.old 0 from.now }
{
    let mut i: usize = 0;
    while i < from.len() {
        put(to, i, from[i]);
        i += 1;
    }
}
