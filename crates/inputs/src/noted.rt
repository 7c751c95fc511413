// The table of fields: where the fields stand that a condition or a from-value with runs names, noted once, so that they are not looked up again
// for each record. A row is right by itself: its entry and its offset are those of the field of its index in its relation. A field that has no
// row is looked up.
ghost use Rattle.std.specs.Prelude.{◌≡◌, ◌<◌};
ghost use Rattle.inputs.specs.Noted.{row_place, with_row, StaysNoted, LocatedBy};

use records::lengths::{Located, locate};
use surroundings::bindings::{BINDING_CODE, BINDING_NUMBER, BINDING_RELATION, BINDING_ROW};
use wire::blr;
use wire::bytes::{byte_at, word_at};
use wire::limits::MAX_DICTIONARY_BYTES;
use wire::table::{number_at, put};

// Kept as numbers: the table is an array of a fixed size on the stack (no heap), and what note_fields promises speaks of its numbers.
// The rows, the numbers of a row, and those of the table.
const NOTED_ROWS: usize = 64;

const NOTED_ROW: usize = 4;

pub const NOTED_TABLE: usize = 256;

// A row begins with the entry of the relation. Its other columns: the index of the field, the field's entry, and its offset in a record, which is
// 0 in an empty row.
const NOTED_INDEX: usize = 1;

const NOTED_ENTRY: usize = 2;

const NOTED_OFFSET: usize = 3;

// Where the row of a field begins.
#[tactic(auto, unfolding(crate::specs::Noted::row_of))]
fn row_place(relation: usize, i: usize) -> usize
    ensures { result ≡ row_place relation i }
{
    (relation % NOTED_ROWS + i % NOTED_ROWS) % NOTED_ROWS * NOTED_ROW
}

// Field i of a relation, by its row or, where it has none, by the dictionary.
pub(crate) fn located(d: &[u8], fields: &[u32], relation: usize, i: usize) -> Option<Located>
    ensures { LocatedBy d.now fields.now relation i result }
{
    let row = row_place(relation, i);
    if number_at(fields, row) as usize == relation {
        if number_at(fields, row + NOTED_INDEX) as usize == i {
            let offset = number_at(fields, row + NOTED_OFFSET) as usize;
            if offset != 0 {
                let entry = number_at(fields, row + NOTED_ENTRY) as usize;
                return Some(Located { entry, offset });
            }
        }
    }
    locate(d, relation, i)
}

// Writes a row.
fn put_row(fields: &mut [u32], row: usize, relation: u32, i: u32, entry: u32, offset: u32)
    requires { row < 4096 }
    ensures { fields.new ≡ with_row fields.old row relation i entry offset }
{
    put(fields, row, relation);
    put(fields, row + NOTED_INDEX, i);
    put(fields, row + NOTED_ENTRY, entry);
    put(fields, row + NOTED_OFFSET, offset);
}

// The row of field i of a relation, if there is such a field.
fn note_row(d: &[u8], fields: &mut [u32], relation: u32, i: u32)
    ensures { StaysNoted d.now fields.old fields.new }
{
    let Some(l) = locate(d, relation as usize, i as usize) else {
        return;
    };
    if l.entry <= MAX_DICTIONARY_BYTES {
        let row = row_place(relation as usize, i as usize);
        put_row(fields, row, relation, i, l.entry as u32, l.offset as u32);
    }
}

// The rows of field i of the relations of the contexts of a number, as the table of bindings has them.
fn note_field(d: &[u8], bindings: &[u32], number: u8, i: u32, fields: &mut [u32])
    ensures { StaysNoted d.now fields.old fields.new }
{
    for row in 0..bindings.len() / BINDING_ROW {
        let at = row * BINDING_ROW;
        if number_at(bindings, at + BINDING_NUMBER) == u32::from(number) {
            note_row(d, fields, number_at(bindings, at + BINDING_RELATION), i);
        }
    }
}

// How many places from the first on are looked at.
const NOTED_PLACES: usize = 256;

// Whether the code of a run stands among those places.
fn runs_among(bindings: &[u32], from: usize) -> bool {
    for row in 0..bindings.len() / BINDING_ROW {
        let code = number_at(bindings, row * BINDING_ROW + BINDING_CODE) as usize;
        if from <= code && code - from < NOTED_PLACES {
            return true;
        }
    }
    false
}

// Kept: a public function, which keeps its parameters.
// Notes the fields of a condition, a test or a from-value at a place, if it goes over runs: without one each field is looked up once. What looks
// like a field by its id and is none gets rows that are right too.
pub fn note_fields(request: &[u8], d: &[u8], bindings: &[u32], at: usize, fields: &mut [u32])
    ensures { StaysNoted d.now fields.old fields.new }
{
    if !runs_among(bindings, at) {
        return;
    }
    for p in at..request.len().min(at.saturating_add(NOTED_PLACES)) {
        if request[p] == blr::FID {
            let number = byte_at(request, p + 1);
            note_field(d, bindings, number, word_at(request, p + 2), fields);
        }
    }
}
