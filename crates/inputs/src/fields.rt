// The fields of records.
ghost use Rattle.std.specs.Prelude.{◌≡◌, ◌<◌};
ghost use Rattle.wire.specs.Words.{word_at};
ghost use Rattle.dictionary.specs.Naming.{named, numbered};
ghost use Rattle.dictionary.specs.Internal.Walk.{relation_at};
ghost use Rattle.records.specs.Record.{bit_at, reading_missing, field_place, presence_of};
ghost use Rattle.meaning.specs.Inputs.{field_in};
ghost use Rattle.surroundings.specs.Bindings.{rows_in, bound_value};
ghost use Rattle.inputs.specs.Answers.{Gives, GivesBound, clamped, row_field, row_named};

use crate::stored::{kind_held, value_at};
use crate::{Fetched, Unread};
use dictionary::field::{described, field_entry, field_named};
use meaning::Source;
use records::lengths::offset_within;
use records::missing::{Cause, by_reading, missing_bit};
use surroundings::bindings::{
    BINDING_CODE, BINDING_RECORD, BINDING_RELATION, BINDING_ROW, binding_of,
};
use values::Value;
use wire::bytes::word_at;
use wire::codes::FieldType;
use wire::limits::MISSING_READING;
use wire::numbers::ContextNumber;
use wire::table::number_at;

// Kept, here and in the two below: a slice, a place in it and an index; a struct of the three would be made anew for each call.
// Where field i stands in the record at p, or the end of the records where that lies past it.
fn field_place(d: &[u8], relation: usize, s: &[u8], p: usize, i: usize) -> usize
    ensures { result ≡ clamped s.now (field_place (relation_at d.now relation) p i) }
{
    if s.len() <= p {
        return s.len();
    }
    match offset_within(d, relation, i, s.len() - p) {
        Some(n) => p + n,
        None => s.len(),
    }
}

// "A field is missing if its bit is set, or if it is a reading of 65535."; "bit before reading where both hold". Field i has its bytes at
// a place, in the record at p.
fn presence(t: FieldType, s: &[u8], p: usize, i: usize, at: usize) -> Option<Cause>
    ensures { result ≡ presence_of (bit_at s.now p i) (reading_missing t (word_at s.now at)) }
{
    if missing_bit(s, p, i) {
        return Some(Cause::Bit);
    }
    match t {
        FieldType::Plain(_) => None,
        FieldType::Reading => by_reading(word_at(s, at) == MISSING_READING),
    }
}

// Field i of a relation, in the record at p of a source.
fn field_in(d: &[u8], relation: usize, source: Source, s: &[u8], p: usize, i: usize) -> Fetched
    ensures { Gives source s.now result (field_in (relation_at d.now relation) s.now p i) }
{
    let Some(q) = field_entry(d, relation, i) else {
        return Err(Unread::Nothing);
    };
    let x = described(d, q);
    let at = field_place(d, relation, s, p, i);
    match presence(x.data_type, s, p, i, at) {
        Some(w) => Ok(Value::Missing(kind_held(x), w)),
        None => value_at(x, source, s, at),
    }
}

// What the fields of the contexts are read from.
#[derive(Clone, Copy)]
pub(crate) struct Bound<'a> {
    pub dictionary: &'a [u8],
    pub bindings: &'a [u32],
    pub records: &'a [u8],
    pub runs: &'a [u8],
}

impl Bound<'_> {
    // Field i of the record that a row binds: among the records where its code is 0, and in the runs where it is not.
    fn field_at(self, row: usize, i: usize) -> Fetched
        requires { row < rows_in self.bindings.now }
        ensures { GivesBound self.entry.records.now self.entry.runs.now result
            (row_field self.entry.dictionary.now self.entry.bindings.now self.entry.records.now self.entry.runs.now row i) }
    {
        let at = row * BINDING_ROW;
        let relation = number_at(self.bindings, at + BINDING_RELATION) as usize;
        let p = number_at(self.bindings, at + BINDING_RECORD) as usize;
        if number_at(self.bindings, at + BINDING_CODE) == 0 {
            return field_in(
                self.dictionary,
                relation,
                Source::Records,
                self.records,
                p,
                i,
            );
        }
        field_in(self.dictionary, relation, Source::Runs, self.runs, p, i)
    }

    // The field of a name, of the record that a row binds.
    fn named_at(self, row: usize, name: &[u8]) -> Fetched
        requires { row < rows_in self.bindings.now }
        ensures { GivesBound self.entry.records.now self.entry.runs.now result
            (row_named self.entry.dictionary.now self.entry.bindings.now self.entry.records.now self.entry.runs.now (named name.now) row) }
    {
        let relation = number_at(self.bindings, row * BINDING_ROW + BINDING_RELATION) as usize;
        let Some(i) = field_named(self.dictionary, relation, name) else {
            return Err(Unread::Nothing);
        };
        self.field_at(row, i)
    }

    // The field of a name, of the context of a number.
    pub(crate) fn by_name(self, context: ContextNumber, name: &[u8]) -> Fetched
        ensures { GivesBound self.entry.records.now self.entry.runs.now result
            (bound_value self.entry.dictionary.now self.entry.bindings.now self.entry.records.now self.entry.runs.now context.0
            (named name.now)) }
    {
        let Some(row) = binding_of(self.bindings, context) else {
            return Err(Unread::Nothing);
        };
        self.named_at(row, name)
    }

    // The field of an id, of the context of a number.
    pub(crate) fn by_id(self, context: ContextNumber, id: usize) -> Fetched
        ensures { GivesBound self.entry.records.now self.entry.runs.now result
            (bound_value self.entry.dictionary.now self.entry.bindings.now self.entry.records.now self.entry.runs.now context.0
            (numbered id)) }
    {
        let Some(row) = binding_of(self.bindings, context) else {
            return Err(Unread::Nothing);
        };
        self.field_at(row, id)
    }
}
