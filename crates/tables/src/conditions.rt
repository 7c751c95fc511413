// The places of conditions, and their numbers in the rows of statements.
ghost use Rattle.std.specs.Prelude.{◌≡◌};
ghost use Rattle.tables.specs.Written.{with_place, with_number, numbered};

use crate::NUMBERS;
use crate::statements::put_boolean;
use grammar::Cursor;
use wire::limits::MAX_STATEMENTS;
use wire::table::put;

// A condition that was read, from a place on, gets a number, which the row of its statement tells.
pub fn note(
    statements: &mut [u32],
    conditions: &mut [u32],
    row: usize,
    c: Cursor,
    place: Option<usize>,
) -> Cursor
    ensures { (result ≡ numbered c place) × ((conditions.new ≡ with_place conditions.old c place)
        × (statements.new ≡ with_number statements.old row c place)) }
{
    let Some(at) = place else {
        return c;
    };
    let number = c.conditions as usize;
    if MAX_STATEMENTS < number {
        return c;
    }
    put(conditions, number, (at % NUMBERS) as u32);
    put_boolean(statements, row, number + 1);
    let mut next = c;
    next.conditions = c.conditions + 1;
    next
}
