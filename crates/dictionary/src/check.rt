// Whether a dictionary is proper, and if not the first entry at fault.
ghost use Rattle.std.specs.Prelude.{◌≡◌, ℕ, Bool, ◌+◌, ◌≤◌, ◌<◌, ◌&&◌, eqb, length};
ghost use Rattle.wire.specs.Lists.{any_of};
ghost use Rattle.wire.specs.Options.{option_of};
ghost use Rattle.dictionary.specs.Format.{fitting};
ghost use Rattle.dictionary.specs.Dictionary.{whole_entry, dictionary, kind_at, name_at};
ghost use Rattle.wire.specs.Lists.{same_bytes};
ghost use Rattle.wire.specs.Words.{byte_at, word_at};
ghost use Rattle.wire.specs.Limits.{max_dictionary_bytes};
ghost use Rattle.wire.specs.Entries.{field_type, field_name, field_entry_kind};
ghost use Rattle.wire.specs.declared.codes.FieldType.TheVariants.{Plain};
ghost use Rattle.wire.specs.declared.codes.DataType.TheVariants.{Number as IsNumber};
ghost use Rattle.wire.specs.Classes.{field_class};
ghost use Rattle.dictionary.specs.Internal.Walk.{between, same_relation, same_field};
ghost use Rattle.dictionary.specs.Internal.Walk.{relation_good, field_good, relation_met, field_met, meet};
ghost use Rattle.dictionary.specs.Internal.Answers.{answer_of};

use crate::entries::word_within;
use crate::format::width_bytes;
use crate::names::{good_name, name_at, same_bytes};
use crate::ranges::{scale_in_range, size_in_range};
use classes::Code;
use wire::bytes::{byte_at, word_at};
use wire::codes::{DataType, FieldType, Width};
use wire::entries::{
    ENTRY_ID, ENTRY_KIND, FIELD_ENTRY, FIELD_NAME, FIELD_SCALE, FIELD_SIZE, FIELD_TYPE,
    RELATION_ENTRY, RELATION_NAME,
};
use wire::limits::{DATE_SIZE, MAX_DICTIONARY_BYTES, MAX_FIELDS, MAX_RELATIONS, READING_SIZE};

// How far a check has come: relations met, fields of the last, and the place of the last.
#[derive(Clone, Copy)]
pub(crate) struct Met {
    pub relations: usize,
    pub fields: usize,
    pub last: usize,
}

// An entry's length word is its whole length, and the entry is whole.
fn whole_entry(d: &[u8], p: usize, k: usize) -> bool
    requires { (length d.now ≤ max_dictionary_bytes) × ((p ≤ max_dictionary_bytes) × (k ≤ field_name)) }
    ensures { result ≡ whole_entry d.now p k }
{
    let n = word_at(d, p) as usize;
    let c = byte_at(d, p + k) as usize;
    n == k + 1 + c && p + n <= d.len()
}

fn number_fits(w: Width, scale: u8, size: u32) -> bool
    ensures { result ≡ fitting (Plain (IsNumber w)) scale size }
{
    scale_in_range(w, scale) && size as usize == width_bytes(w)
}

fn plain_fits(t: DataType, scale: u8, size: u32) -> bool
    ensures { result ≡ fitting (Plain t) scale size }
{
    match t {
        DataType::Number(w) => number_fits(w, scale, size),
        DataType::Date => scale == 0 && size as usize == DATE_SIZE,
        DataType::Chars(_) => scale == 0 && size_in_range(size),
    }
}

fn fits(t: FieldType, scale: u8, size: u32) -> bool
    ensures { result ≡ fitting t scale size }
{
    match t {
        FieldType::Plain(x) => plain_fits(x, scale, size),
        FieldType::Reading => scale_in_range(Width::Short, scale) && size as usize == READING_SIZE,
    }
}

// The entry at q is a relation's with the id or the name of the one at p.
// Kept: said of bytes at two places of one slice; there is no type whose equality it would be.
#[tactic(auto, unfolding(crate::specs::Internal::Walk::same_relation))]
fn same_relation(d: &[u8], p: usize, q: usize) -> bool
    requires { (p ≤ max_dictionary_bytes) × (q ≤ max_dictionary_bytes) }
    ensures { result ≡ same_relation d.now p q }
{
    word_at(d, q + ENTRY_KIND) == RELATION_ENTRY
        && (word_at(d, q + ENTRY_ID) == word_at(d, p + ENTRY_ID)
            || same_bytes(name_at(d, q + RELATION_NAME), name_at(d, p + RELATION_NAME)))
}

// The entry at q is a field's with a name. Kept: as above, of a place and a name.
fn same_field(d: &[u8], name: &[u8], q: usize) -> bool
    requires { q ≤ max_dictionary_bytes }
    ensures { result ≡ (eqb (kind_at d.now q) field_entry_kind && same_bytes (name_at d.now (q + field_name)) name.now) }
{
    same_bytes(name_at(d, q + FIELD_NAME), name) && word_at(d, q + ENTRY_KIND) == FIELD_ENTRY
}

// Whether an entry from a place on and before p has what must not repeat. In a frame of its own: laid into the check, the search takes longer.
#[inline(never)]
fn taken<F: Fn(usize) -> bool>(d: &[u8], from: usize, p: usize, same: F) -> bool
    requires short { (length d.now ≤ max_dictionary_bytes) × (p < length d.now) }
    requires callable { (q : ℕ) → q ≤ max_dictionary_bytes → F.pre same q }
    ensures { (t : ℕ → Bool) → ((q : ℕ) (b : Bool) → F.post same q b → b ≡ t q) → result ≡ any_of t (between d.now from p) }
{
    let mut q: usize = from;
    while q < p {
        let n = word_within(d, q) as usize;
        if n == 0 {
            return false;
        }
        if same(q) {
            return true;
        }
        q += n;
    }
    false
}

#[tactic(auto, unfolding(crate::specs::Internal::Walk::relation_good))]
fn relation_good(d: &[u8], p: usize, m: Met) -> bool
    requires { (length d.now ≤ max_dictionary_bytes) × (p < length d.now) }
    ensures { result ≡ relation_good d.now p m }
{
    whole_entry(d, p, RELATION_NAME)
        && good_name(name_at(d, p + RELATION_NAME))
        && m.relations < MAX_RELATIONS
        && !taken(d, 0, p, |q| same_relation(d, p, q))
}

#[tactic(auto, unfolding(crate::specs::Internal::Walk::field_good, crate::specs::Internal::Walk::same_field))]
fn field_good(d: &[u8], p: usize, t: FieldType, m: Met) -> bool
    requires { (length d.now ≤ max_dictionary_bytes) × (p < length d.now) }
    ensures { result ≡ field_good d.now p t m }
{
    let name = name_at(d, p + FIELD_NAME);
    whole_entry(d, p, FIELD_NAME)
        && word_at(d, p + ENTRY_ID) as usize == m.fields
        && fits(t, byte_at(d, p + FIELD_SCALE), word_at(d, p + FIELD_SIZE))
        && good_name(name)
        && m.fields < MAX_FIELDS
        && !taken(d, m.last, p, |q| same_field(d, name, q))
}

#[tactic(auto, unfolding(crate::specs::Internal::Walk::relation_met))]
fn meet_relation(d: &[u8], p: usize, m: Met) -> Option<Met>
    requires { ((length d.now ≤ max_dictionary_bytes) × (p < length d.now)) × (m.relations ≤ max_dictionary_bytes) }
    ensures { result ≡ option_of (relation_met d.now p m) }
{
    if !relation_good(d, p, m) {
        return None;
    }
    Some(Met {
        relations: m.relations + 1,
        fields: 0,
        last: p,
    })
}

#[tactic(auto, unfolding(crate::specs::Internal::Walk::field_met))]
fn meet_field(d: &[u8], p: usize, m: Met) -> Option<Met>
    requires { ((length d.now ≤ max_dictionary_bytes) × (p < length d.now)) × (m.fields ≤ max_dictionary_bytes) }
    ensures { result ≡ option_of (field_met d.now p (field_class (byte_at d.now (p + field_type))) m) }
{
    let t = FieldType::of(byte_at(d, p + FIELD_TYPE)).ok()?;
    if m.relations == 0 || !field_good(d, p, t, m) {
        return None;
    }
    Some(Met {
        fields: m.fields + 1,
        ..m
    })
}

#[tactic(auto, unfolding(crate::specs::Internal::Walk::meet))]
fn meet_entry(d: &[u8], p: usize, m: Met) -> Option<Met>
    requires { ((length d.now ≤ max_dictionary_bytes) × (p < length d.now)) × ((m.relations ≤ max_dictionary_bytes) × (m.fields ≤ max_dictionary_bytes)) }
    ensures { result ≡ option_of (meet d.now p m) }
{
    match word_at(d, p + ENTRY_KIND) {
        RELATION_ENTRY => meet_relation(d, p, m),
        FIELD_ENTRY => meet_field(d, p, m),
        _ => None,
    }
}

// Whether a dictionary of any bytes is proper, or the start of the first entry at fault.
pub fn check(d: &[u8]) -> Result<(), usize>
    ensures { result ≡ answer_of (dictionary d.now) }
{
    if MAX_DICTIONARY_BYTES < d.len() {
        return Err(0);
    }
    let mut m = Met {
        relations: 0,
        fields: 0,
        last: 0,
    };
    let mut p: usize = 0;
    while p < d.len() {
        m = meet_entry(d, p, m).ok_or(p)?;
        p += word_at(d, p) as usize;
    }
    Ok(())
}
