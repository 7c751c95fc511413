// The table of bindings: the contexts of a condition or a from-value, a row each; those in scope there with their records, then those of
// its any, unique and statistic codes with their runs.
ghost use Rattle.std.specs.Prelude.{◌≡◌, ◌+◌, ◌*◌, ◌≤◌, min, length};
ghost use Rattle.std.proofs.lemmas.List.Edits.{sets};
ghost use Rattle.wire.specs.Limits.{max_contexts};
ghost use Rattle.wire.specs.Options.{option_of};
ghost use Rattle.surroundings.specs.Bindings.{binding_row_numbers, binding_row, binding_rows, context_binding, bound_contexts, rows_in};
ghost use Rattle.surroundings.specs.Bindings.{binds_at, row_binding, row_coded};
ghost use Rattle.surroundings.specs.Tables.{slots_in};

use wire::bytes::word_at;
use wire::limits::MAX_CONTEXTS;
use wire::numbers::ContextNumber;
use wire::table::{number_at, put};

// The numbers of a row, and those of a table with a row for each context that a request may have.
pub const BINDING_ROW: usize = 10;

pub const BINDING_TABLE: usize = 320;

// The columns; they are the numbers of specs/Bindings.antt.
pub const BINDING_CODE: usize = 0;

pub const BINDING_NUMBER: usize = 1;

pub const BINDING_RELATION: usize = 2;

pub const BINDING_RECORD: usize = 3;

pub const BINDING_SUCH: usize = 4;

pub const BINDING_END: usize = 5;

pub const BINDING_FIRST: usize = 6;

pub const BINDING_COUNT: usize = 7;

pub const BINDING_AFTER: usize = 8;

pub const BINDING_KIND: usize = 9;

// The numbers of kinds: 1 and on up to here a number of scale 0 and on down; then text and date.
pub const NUMBER_KINDS: usize = 19;

pub const TEXT_KIND: u32 = 20;

pub const DATE_KIND: u32 = 21;

// Kept: the rows of bindings are numbers of a lent table, since nothing allocates, and a type of rows would ask more of the callers.
// Numbers of a row, from a place of the table on.
pub fn put_numbers(bindings: &mut [u32], at: u32, numbers: &[u32])
    ensures { bindings.new ≡ sets bindings.old at numbers.now }
{
    let p = at as usize;
    for k in 0..numbers.len() {
        put(bindings, p + k, numbers[k]);
    }
}

// Kept: a table of numbers, as above; the bound of the row keeps the place of its numbers in 32 bits.
// The row of a context in scope.
fn put_context(bindings: &mut [u32], row: usize, number: u32, relation: u32, place: u32)
    requires { row ≤ max_contexts }
    ensures { bindings.new ≡
        sets bindings.old (row * binding_row_numbers) (binding_row (context_binding number relation place)) }
{
    let at = (row * BINDING_ROW) as u32;
    put_numbers(
        bindings,
        at,
        &[0, number, relation, place, 0, 0, 0, 0, 0, 0],
    );
}

// Kept: tables of numbers, as above: whatever table is lent, the promise says what stands in it.
// The rows of so many contexts in scope, at most 32. The record of each stands after those of the contexts before it, by their length
// words.
pub fn lay_contexts(
    numbers: &[u32],
    relations: &[u32],
    count: usize,
    records: &[u8],
    bindings: &mut [u32],
)
    ensures { bindings.new ≡ sets bindings.old 0 (binding_rows (bound_contexts
        (slots_in numbers.now relations.now (min count max_contexts) 0) records.now 0)) }
{
    let rows = count.min(MAX_CONTEXTS);
    let mut p: usize = 0;
    for row in 0..rows {
        put_context(
            bindings,
            row,
            number_at(numbers, row),
            number_at(relations, row),
            p as u32,
        );
        p += word_at(records, p) as usize;
    }
}

// Kept: a table of numbers, as above; a struct of a table and a row would say no more than the bound that is asked for.
// Whether a row's context has a number, and a record.
fn binds_at(bindings: &[u32], row: usize, number: ContextNumber) -> bool
    requires { row * binding_row_numbers + binding_row_numbers ≤ length bindings.now }
    ensures { result ≡ binds_at bindings.now number.0 row }
{
    let at = row * BINDING_ROW;
    number_at(bindings, at + BINDING_NUMBER) == u32::from(number.0)
        && (number_at(bindings, at + BINDING_CODE) == 0
            || number_at(bindings, at + BINDING_RECORD) != 0)
}

// Kept: a table of numbers, as above; the walk changes its rows by their numbers, so the answer is one.
// The first row that binds a number.
pub fn binding_of(bindings: &[u32], number: ContextNumber) -> Option<usize>
    ensures { result ≡ option_of (row_binding bindings.now number.0 (rows_in bindings.now) 0) }
{
    let rows = bindings.len() / BINDING_ROW;
    for row in 0..rows {
        if binds_at(bindings, row, number) {
            return Some(row);
        }
    }
    None
}

// Kept: as above.
// The first row whose any, unique or statistic code stands at a place.
pub fn row_coded(bindings: &[u32], at: usize) -> Option<usize>
    ensures { result ≡ option_of (row_coded bindings.now at (rows_in bindings.now) 0) }
{
    let rows = bindings.len() / BINDING_ROW;
    for row in 0..rows {
        if number_at(bindings, row * BINDING_ROW + BINDING_CODE) as usize == at {
            return Some(row);
        }
    }
    None
}
