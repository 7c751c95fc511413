// The rows of statements.
ghost use Rattle.std.specs.Prelude.{◌≡◌};
ghost use Rattle.wire.specs.Words.{byte_at};
ghost use Rattle.tables.specs.Written.{with_statement_row, with_boolean, finished};

use crate::NUMBERS;
use grammar::{Cursor, Passed};
use wire::bytes::byte_at;
use wire::limits::{MAX_STATEMENTS, STATEMENT_ROW};
use wire::rows::{
    STATEMENT_BOOLEAN, STATEMENT_CODE, STATEMENT_END, STATEMENT_PARENT, STATEMENT_PLACE,
};
use wire::table::put;

// The row of a statement but for the number of its boolean; a row above the greatest count is not written.
pub fn put_statement(
    table: &mut [u32],
    row: usize,
    place: usize,
    code: u8,
    parent: usize,
    end: usize,
)
    ensures { table.new ≡ with_statement_row table.old row place code parent end }
{
    if row <= MAX_STATEMENTS {
        let at = row * STATEMENT_ROW;
        put(table, at + STATEMENT_PLACE, (place % NUMBERS) as u32);
        put(table, at + STATEMENT_CODE, code as u32);
        put(table, at + STATEMENT_PARENT, (parent % NUMBERS) as u32);
        put(table, at + STATEMENT_END, (end % NUMBERS) as u32);
    }
}

// The number plus one of a statement's boolean, or 0 for none; a row above the greatest count is not written.
pub fn put_boolean(table: &mut [u32], row: usize, number: usize)
    ensures { table.new ≡ with_boolean table.old row number }
{
    if MAX_STATEMENTS >= row {
        put(
            table,
            row * STATEMENT_ROW + STATEMENT_BOOLEAN,
            (number % NUMBERS) as u32,
        );
    }
}

// The row of a statement that was passed, whose code stands at a cursor, but for the number of its boolean.
pub fn finish(request: &[u8], statements: &mut [u32], c: Cursor, parent: usize, to: Passed)
    ensures { statements.new ≡ finished request.now statements.old c parent to }
{
    if let Ok(end) = to {
        put_statement(
            statements,
            c.statements as usize,
            c.at,
            byte_at(request, c.at),
            parent,
            end.at,
        );
    }
}
