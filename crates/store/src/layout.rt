// The records of a relation as the store sees them: a few numbers, and a table of the places of the readings.
ghost use Rattle.std.specs.Prelude.{◌≡◌, ◌+◌, ◌*◌, ◌≤◌, length};
ghost use Rattle.std.specs.Int.Count.{ones};
ghost use Rattle.std.proofs.lemmas.List.Edits.{sets};
ghost use Rattle.wire.specs.Limits.{max_record_bytes};
ghost use Rattle.wire.specs.Options.{option_of};
ghost use Rattle.dictionary.specs.Internal.Walk.{relation_at};
ghost use Rattle.records.specs.Record.{record_length};
ghost use Rattle.store.specs.Store.{max_store_bytes, store_header};
ghost use Rattle.store.specs.Internal.Layouts.{reading_place, places_of, spare_after, proper_by, lost_at, marked_field, marked_at, kept_at, ones_at};
ghost use Rattle.store.specs.Internal.Layouts.{tally as tallyFrom, layout_by, LaidOut};
ghost use Rattle.store.specs.Internal.Changes.{Fair};

use crate::STORE_HEADER;
use dictionary::entries::{is_field, next_place, type_at};
use records::lengths::{field_count, held_bytes, missing_bytes, record_length};
use records::missing::missing_bit;
use wire::bytes::{byte_on, word_at, word_on};
use wire::codes::FieldType;
use wire::entries::{ENTRY_ID, ENTRY_KIND, RECORD_BITS, RECORD_ENTRY};
use wire::limits::{MAX_RECORD_BYTES, MISSING_READING};
use wire::table::{number_at, put};

// The relation's id, the length of a record, the number of fields, and the bytes of their missing bits.
#[derive(Clone, Copy)]
pub(crate) struct Layout {
    pub id: u32,
    pub size: usize,
    pub fields: usize,
    pub bits: usize,
}

// The place of a field if it is a reading, and 0 if not. Kept: a number of the table of places.
fn reading_place(t: FieldType, at: u32) -> u32
    ensures { result ≡ reading_place t at }
{
    match t {
        FieldType::Plain(_) => 0,
        FieldType::Reading => at,
    }
}

// Puts the places of the readings into the table.
fn lay_out(d: &[u8], relation: usize, table: &mut [u32])
    requires { record_length (relation_at d.now relation) ≤ max_record_bytes }
    ensures { table.new ≡ sets table.old 0 (places_of (relation_at d.now relation)) }
{
    let mut q = next_place(d, relation);
    let mut at = RECORD_BITS + missing_bytes(field_count(d, relation));
    let mut i: usize = 0;
    while is_field(d, q) {
        put(table, i, reading_place(type_at(d, q), at as u32));
        at += held_bytes(d, q);
        i += 1;
        q = next_place(d, q);
    }
}

// The layout of a relation's records, by their length.
fn described(d: &[u8], relation: usize, size: usize) -> Layout
    ensures { result ≡ layout_by (relation_at d.now relation) size }
{
    let fields = field_count(d, relation);
    Layout {
        id: word_on(d, relation, ENTRY_ID),
        size,
        fields,
        bits: missing_bytes(fields),
    }
}

// The layout of a relation's records, and the table. Of records that are too long the length is one that no record has.
pub(crate) fn lay_of(d: &[u8], relation: usize, table: &mut [u32]) -> Layout
    ensures { LaidOut (relation_at d.now relation) table.old table.new result }
{
    match record_length(d, relation) {
        Some(n) => {
            lay_out(d, relation, table);
            described(d, relation, n)
        }
        None => described(d, relation, MAX_RECORD_BYTES + 1),
    }
}

// Whether the spare bits behind those of n fields are 0, all in one byte.
fn is_spare_clear(s: &[u8], p: usize, n: usize) -> bool
    ensures { result ≡ spare_after s.now p n }
{
    n % 8 == 0 || byte_on(s, p, RECORD_BITS + n / 8) >> (n % 8) == 0
}

// Whether the entry at a place is a proper record.
#[tactic(auto, unfolding(crate::specs::Internal::Layouts::proper_by))]
pub(crate) fn is_proper(s: &[u8], p: usize, l: Layout) -> bool
    ensures { result ≡ proper_by l s.now p }
{
    l.size <= MAX_RECORD_BYTES
        && p <= s.len()
        && l.size <= s.len() - p
        && word_at(s, p) as usize == l.size
        && word_on(s, p, ENTRY_KIND) == RECORD_ENTRY
        && word_on(s, p, ENTRY_ID) == l.id
        && is_spare_clear(s, p, l.fields)
}

// Whether the field that the table has at i is a reading of 65535.
#[tactic(auto, unfolding(crate::specs::Internal::Layouts::lost_at))]
pub(crate) fn is_lost(table: &[u32], s: &[u8], p: usize, i: usize) -> bool
    ensures { result ≡ lost_at table.now s.now p i }
{
    let at = number_at(table, i) as usize;
    at != 0 && word_on(s, p, at) == MISSING_READING
}

// Whether the field that the table has at i is no reading of 65535, or has its missing bit set.
fn is_marked_at(table: &[u32], s: &[u8], p: usize, i: usize) -> bool
    ensures { result ≡ marked_field table.now s.now p i }
{
    !is_lost(table, s, p, i) || missing_bit(s, p, i)
}

// Whether each reading of 65535 has its missing bit set.
fn is_marked(table: &[u32], s: &[u8], p: usize, n: usize) -> bool
    ensures { result ≡ marked_at table.now s.now p n }
{
    (0..n).all(|i| is_marked_at(table, s, p, i))
}

// Whether the entry at a place is a record as a store keeps it.
#[tactic(auto, unfolding(crate::specs::Internal::Layouts::kept_at))]
fn is_kept(table: &[u32], s: &[u8], p: usize, l: Layout) -> bool
    ensures { result ≡ kept_at l table.now s.now p }
{
    is_proper(s, p, l) && is_marked(table, s, p, l.fields)
}

// "the number of bits set", in one byte.
fn byte_ones(x: u8) -> usize
    ensures { (result ≡ ones x) × (result ≤ 8) }
{
    u8::count_ones(x) as usize
}

// The bits set in n bytes from a place on.
pub(crate) fn count_ones(s: &[u8], p: usize, n: usize) -> usize
    requires { (p + n ≤ length s.now) × (length s.now ≤ max_store_bytes) }
    ensures { (result ≡ ones_at s.now p n) × (result ≤ 8 * n) }
{
    let mut sum: usize = 0;
    for x in &s[p..p + n] {
        sum += byte_ones(*x);
    }
    sum
}

// The bits set in the missing bytes of so many records behind the header, if they all are as a store keeps them.
// Kept as a fact: as in `changes::mark`.
pub(crate) fn tally_of(table: &[u32], s: &[u8], l: Layout, count: usize) -> Option<usize>
    requires { (length s.now ≤ max_store_bytes) × Fair l }
    ensures { result ≡ option_of (tallyFrom l table.now s.now count store_header) }
{
    let mut p = STORE_HEADER;
    let mut sum: usize = 0;
    for _ in 0..count {
        if !is_kept(table, s, p, l) {
            return None;
        }
        sum += count_ones(s, p + RECORD_BITS, l.bits);
        p += l.size;
    }
    Some(sum)
}
