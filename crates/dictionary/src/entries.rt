// Entry by entry through the fields of a relation, in a dictionary of any bytes.
ghost use Rattle.std.specs.Prelude.{◌≡◌, ◌+◌, ◌<◌, length};
ghost use Rattle.wire.specs.Words.{byte_at, word_at};
ghost use Rattle.wire.specs.Entries.{field_type};
ghost use Rattle.wire.specs.Classes.{field_class};
ghost use Rattle.dictionary.specs.Internal.Walk.{is_field, next_place, type_of};

use classes::Code;
use wire::bytes::{byte_on, word_at, word_on};
use wire::codes::FieldType;
use wire::entries::{ENTRY_KIND, FIELD_ENTRY, FIELD_TYPE};

// The type of a field's entry; any other code counts as a reading, which no proper dictionary has.
pub fn type_at(d: &[u8], q: usize) -> FieldType
    ensures { result ≡ type_of (field_class (byte_at d.now (q + field_type))) }
{
    FieldType::of(byte_on(d, q, FIELD_TYPE)).unwrap_or(FieldType::Reading)
}

// The place after an entry, or the end of the dictionary.
#[tactic(auto, unfolding(crate::specs::Internal::Walk::next_place))]
pub fn next_place(d: &[u8], q: usize) -> usize
    ensures { result ≡ next_place d.now q }
{
    q.saturating_add(word_at(d, q) as usize).min(d.len())
}

// Whether a field's entry stands at a place.
#[tactic(auto, unfolding(crate::specs::Internal::Walk::is_field))]
pub fn is_field(d: &[u8], q: usize) -> bool
    ensures { result ≡ is_field d.now q }
{
    q < d.len() && word_at(d, q) != 0 && word_on(d, q, ENTRY_KIND) == FIELD_ENTRY
}

// The word at a place where both its bytes stand. A check and a search read one in each entry, and `wire::bytes::word_at`, which tests for
// each byte whether it stands there, made the check slower by a fifth: so both are read here without a test.
pub(crate) fn word_within(d: &[u8], at: usize) -> u32
    requires { at + 1 < length d.now }
    ensures { (result ≡ word_at d.now at) × (result < 65536) }
{
    d[at] as u32 + 256 * d[at + 1] as u32
}
