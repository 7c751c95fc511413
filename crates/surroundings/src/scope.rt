// Contexts in scope by the rows of the context table: number, place, scope start, scope end, relation id. Rows after the most that document
// 01 allows are not looked at.
ghost use Rattle.std.specs.Prelude.{◌≡◌, ◌≤◌, min};
ghost use Rattle.wire.specs.Limits.{max_contexts};
ghost use Rattle.dictionary.specs.Naming.{numbered};
ghost use Rattle.dictionary.specs.Internal.Walk.{relation_place};
ghost use Rattle.surroundings.specs.Slots.{row_holds, place_or, slots_from};
ghost use Rattle.surroundings.specs.Tables.{Laid};

use dictionary::lookup::relation_numbered;
use wire::limits::{CONTEXT_ROW, MAX_CONTEXTS};
use wire::rows::{CONTEXT_END, CONTEXT_NUMBER, CONTEXT_RELATION, CONTEXT_START};
use wire::table::{number_at, put};

// Kept: the rows are the reader's table, of a layout that C has; the bound of the row keeps its numbers' place in range.
// Whether a context row's scope holds a place.
fn row_holds(contexts: &[u32], at: usize, row: usize) -> bool
    requires { row ≤ max_contexts }
    ensures { result ≡ row_holds contexts.now at row }
{
    let start = number_at(contexts, row * CONTEXT_ROW + CONTEXT_START) as usize;
    let end = number_at(contexts, row * CONTEXT_ROW + CONTEXT_END) as usize;
    start <= at && at < end
}

// Where the entry of the relation of an id stands; 0 where there is none. Kept: a number of a lent table.
#[tactic(auto, using(crate::proofs::ContextLoops::place_below))]
pub fn entry_of(dictionary: &[u8], id: u32) -> u32
    ensures { result ≡ place_or (relation_place dictionary.now (numbered id)) }
{
    match relation_numbered(dictionary, id) {
        Some(p) => p as u32,
        None => 0,
    }
}

// Kept: two tables of numbers, since the records are checked by the second of them alone, as a slice.
// The contexts in scope at a place: their numbers, and where the entries of their relations stand. What does not fit a table is not
// written, and the count is of all.
pub fn in_scope(
    dictionary: &[u8],
    contexts: &[u32],
    count: usize,
    at: usize,
    numbers: &mut [u32],
    relations: &mut [u32],
) -> usize
    ensures { Laid (slots_from dictionary.now contexts.now at (min count max_contexts) 0)
        numbers.old relations.old numbers.new relations.new result }
{
    let rows = count.min(MAX_CONTEXTS);
    let mut filled: usize = 0;
    for row in 0..rows {
        if row_holds(contexts, at, row) {
            put(
                numbers,
                filled,
                number_at(contexts, row * CONTEXT_ROW + CONTEXT_NUMBER),
            );
            put(
                relations,
                filled,
                entry_of(
                    dictionary,
                    number_at(contexts, row * CONTEXT_ROW + CONTEXT_RELATION),
                ),
            );
            filled += 1;
        }
    }
    filled
}
