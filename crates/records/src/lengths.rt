// How long the records of a relation are, and where each field stands in them.
ghost use Rattle.std.specs.Prelude.{◌≡◌, ◌+◌, ◌/◌, ◌≤◌, ◌<◌, length, take};
ghost use Rattle.wire.specs.declared.codes.FieldType.TheVariants.{Plain};
ghost use Rattle.dictionary.specs.Format.{type_bytes, held};
ghost use Rattle.dictionary.specs.Internal.Walk.{fields_from, relation_at};
ghost use Rattle.records.specs.Record.{field_count, offset_of, record_length};
ghost use Rattle.records.specs.Internal.Answers.{format_at, all_held, within, length_answer};
ghost use Rattle.records.specs.Internal.Locations.{located_of, reached_from, located_in};

use dictionary::entries::{is_field, next_place, type_at};
use dictionary::format::{text_bytes, width_bytes};
use wire::bytes::word_on;
use wire::codes::{DataType, FieldType};
use wire::entries::{FIELD_SIZE, RECORD_BITS};
use wire::limits::{DATE_SIZE, MAX_RECORD_BYTES, READING_SIZE};

// "date 35 (8 bytes)"
fn plain_bytes(t: DataType, n: u32) -> usize
    ensures { result ≡ type_bytes (Plain t) n }
{
    match t {
        DataType::Number(w) => width_bytes(w),
        DataType::Date => DATE_SIZE,
        DataType::Chars(x) => text_bytes(x, n),
    }
}

// "a house reading: 2 bytes, unsigned, with scale"
fn type_bytes(t: FieldType, n: u32) -> usize
    ensures { result ≡ type_bytes t n }
{
    match t {
        FieldType::Plain(x) => plain_bytes(x, n),
        FieldType::Reading => READING_SIZE,
    }
}

// The bytes that a field holds.
pub fn held_bytes(d: &[u8], q: usize) -> usize
    ensures { result ≡ held (format_at d.now q) }
{
    type_bytes(type_at(d, q), word_on(d, q, FIELD_SIZE))
}

// How many fields stand one after another from a place on.
fn count_from(d: &[u8], from: usize) -> usize
    ensures { result ≡ length (fields_from d.now from) }
{
    let mut q = from;
    let mut n: usize = 0;
    while is_field(d, q) {
        n += 1;
        q = next_place(d, q);
    }
    n
}

// How many fields a relation has.
pub fn field_count(d: &[u8], relation: usize) -> usize
    ensures { result ≡ field_count (relation_at d.now relation) }
{
    count_from(d, next_place(d, relation))
}

// "one missing bit a field": the bytes of n bits.
pub fn missing_bytes(n: usize) -> usize
    ensures { result ≡ (n + 7) / 8 }
{
    n.div_ceil(8)
}

// A start and the bytes of i fields from a place on, up to a limit.
fn packed_within(d: &[u8], from: usize, i: usize, start: usize, limit: usize) -> Option<usize>
    requires { start ≤ limit }
    ensures { result ≡ within limit (start + all_held d.now (take i (fields_from d.now from))) }
{
    let mut q = from;
    let mut sum = start;
    for _ in 0..i {
        if !is_field(d, q) {
            return Some(sum);
        }
        let n = held_bytes(d, q);
        if limit - sum < n {
            return None;
        }
        sum += n;
        q = next_place(d, q);
    }
    Some(sum)
}

// "relation id word, one missing bit a field .., then the fields packed"
// Kept: a public function, which keeps its parameters.
pub fn offset_within(d: &[u8], relation: usize, i: usize, limit: usize) -> Option<usize>
    ensures { result ≡ within limit (offset_of (relation_at d.now relation) i) }
{
    let start = RECORD_BITS + missing_bytes(field_count(d, relation));
    if limit < start {
        return None;
    }
    packed_within(d, next_place(d, relation), i, start, limit)
}

// Where a field's entry stands in the dictionary, and its bytes in a record's entry.
#[derive(Clone, Copy)]
pub struct Located {
    pub entry: usize,
    pub offset: usize,
}

// Field i of those from a place on, with the bytes of the fields before it.
fn reached(d: &[u8], from: usize, i: usize) -> Option<Located>
    ensures { located_of result ≡ reached_from d.now from i }
{
    let mut q = from;
    let mut sum: usize = 0;
    for _ in 0..i {
        if !is_field(d, q) {
            return None;
        }
        let n = held_bytes(d, q);
        if MAX_RECORD_BYTES - sum < n {
            return None;
        }
        sum += n;
        q = next_place(d, q);
    }
    if !is_field(d, q) {
        return None;
    }
    Some(Located {
        entry: q,
        offset: sum,
    })
}

// Field i of a relation, by one pass over the entries of its fields; none if there is no such field, or if it would stand past the end of the
// longest record.
// Kept: a public function, which keeps its parameters.
pub fn locate(d: &[u8], relation: usize, i: usize) -> Option<Located>
    ensures { located_of result ≡ located_in d.now relation i }
{
    let field = reached(d, next_place(d, relation), i)?;
    let fields = i + count_from(d, field.entry);
    let offset = RECORD_BITS + missing_bytes(fields) + field.offset;
    if MAX_RECORD_BYTES < offset {
        return None;
    }
    Some(Located { offset, ..field })
}

// Where field i stands in a record's entry.
// Kept: a public function, which keeps its parameters.
pub fn field_offset(d: &[u8], relation: usize, i: usize) -> Option<usize>
    ensures { result ≡ length_answer (offset_of (relation_at d.now relation) i) }
{
    offset_within(d, relation, i, MAX_RECORD_BYTES)
}

// The length of a relation's record entry.
pub fn record_length(d: &[u8], relation: usize) -> Option<usize>
    ensures { result ≡ length_answer (record_length (relation_at d.now relation)) }
{
    offset_within(d, relation, d.len(), MAX_RECORD_BYTES)
}
