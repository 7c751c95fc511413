// Looking up the fields of a relation, which is given by the place of its entry, in a dictionary of any bytes.
ghost use Rattle.std.specs.Prelude.{◌≡◌, ◌<◌, length};
ghost use Rattle.std.proofs.Math.ListN.{get_elem?};
ghost use Rattle.wire.specs.Lists.{find};
ghost use Rattle.wire.specs.Options.{option_of};
ghost use Rattle.dictionary.specs.Naming.{named, field_of};
ghost use Rattle.dictionary.specs.Internal.Walk.{fields_of, has_name, relation_at, entry_field};
ghost use Rattle.dictionary.specs.Internal.FieldAnswers.{format_is};

use crate::entries::{is_field, next_place, type_at};
use crate::names::{name_at, same_bytes};
use wire::bytes::{byte_on, word_on};
use wire::codes::FieldType;
use wire::entries::{FIELD_NAME, FIELD_SCALE, FIELD_SIZE};

// What a field's entry says of its bytes: the type, the scale byte as it stands, and the size word.
#[derive(Clone, Copy)]
pub struct Description {
    pub data_type: FieldType,
    pub scale: u8,
    pub size: u32,
}

// Whether the field of the entry at q has a name.
fn has_name(d: &[u8], q: usize, name: &[u8]) -> bool
    requires { q < length d.now }
    ensures { result ≡ has_name d.now name.now q }
{
    same_bytes(name_at(d, q + FIELD_NAME), name)
}

// The id of the field of a name.
pub fn field_named(d: &[u8], relation: usize, name: &[u8]) -> Option<usize>
    ensures { result ≡ option_of (field_of (relation_at d.now relation) (named name.now)) }
{
    let mut q = next_place(d, relation);
    let mut i: usize = 0;
    while is_field(d, q) {
        if has_name(d, q, name) {
            return Some(i);
        }
        i += 1;
        q = next_place(d, q);
    }
    None
}

// The place of the entry of the field of a name.
pub fn named_entry(d: &[u8], relation: usize, name: &[u8]) -> Option<usize>
    ensures { result ≡ option_of (find (has_name d.now name.now) (fields_of d.now relation)) }
{
    let mut q = next_place(d, relation);
    while is_field(d, q) {
        if has_name(d, q, name) {
            return Some(q);
        }
        q = next_place(d, q);
    }
    None
}

// The place of the entry of the field of an id.
pub fn field_entry(d: &[u8], relation: usize, id: usize) -> Option<usize>
    ensures { result ≡ option_of (get_elem? (fields_of d.now relation) id) }
{
    let mut q = next_place(d, relation);
    let mut left = id;
    while is_field(d, q) {
        if left == 0 {
            return Some(q);
        }
        left -= 1;
        q = next_place(d, q);
    }
    None
}

// The type, scale and size of the field whose entry stands at q.
#[tactic(auto, unfolding(crate::specs::Internal::Walk::entry_field))]
pub fn described(d: &[u8], q: usize) -> Description
    ensures { format_is result ≡ (entry_field d.now q).format }
{
    let t = type_at(d, q);
    Description {
        data_type: t,
        scale: byte_on(d, q, FIELD_SCALE),
        size: word_on(d, q, FIELD_SIZE),
    }
}
