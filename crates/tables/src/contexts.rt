// The rows of contexts.
ghost use Rattle.std.specs.Prelude.{◌≡◌};
ghost use Rattle.tables.specs.Written.{with_context_row, closed_after};

use crate::NUMBERS;
use grammar::{Cursor, Passed};
use wire::limits::{CONTEXT_ROW, MAX_CONTEXTS};
use wire::numbers::ContextNumber;
use wire::rows::{
    CONTEXT_END, CONTEXT_NUMBER, CONTEXT_OPENER, CONTEXT_PLACE, CONTEXT_RELATION, CONTEXT_START,
};
use wire::table::put;

// The row of a context whose scope is not yet known; a row above the greatest count is not written.
pub fn put_context(
    table: &mut [u32],
    row: usize,
    number: ContextNumber,
    place: usize,
    relation: u32,
    opener: u8,
)
    ensures { table.new ≡ with_context_row table.old row number.0 place relation opener }
{
    if row <= MAX_CONTEXTS {
        let at = row * CONTEXT_ROW;
        put(table, at + CONTEXT_NUMBER, number.0 as u32);
        put(table, at + CONTEXT_PLACE, (place % NUMBERS) as u32);
        put(table, at + CONTEXT_START, 0);
        put(table, at + CONTEXT_END, 0);
        put(table, at + CONTEXT_RELATION, relation);
        put(table, at + CONTEXT_OPENER, opener as u32);
    }
}

// The scope of the contexts from a row on that were opened up to a cursor: it ends where what stands in it was passed.
pub fn close(contexts: &mut [u32], row: usize, from: Cursor, to: Passed)
    ensures { contexts.new ≡ closed_after contexts.old row from to }
{
    if let Ok(end) = to {
        let opened = from.contexts as usize;
        if opened <= MAX_CONTEXTS {
            for i in row..opened {
                let at = i * CONTEXT_ROW;
                put(contexts, at + CONTEXT_START, (from.at % NUMBERS) as u32);
                put(contexts, at + CONTEXT_END, (end.at % NUMBERS) as u32);
            }
        }
    }
}
