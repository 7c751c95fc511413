// Looking up relations, in a dictionary of any bytes. In a proper one what is found is what the definition means (proofs/Relations.antt).
ghost use Rattle.std.specs.Prelude.{◌≡◌, ℕ, Bool, ◌≤◌};
ghost use Rattle.wire.specs.Options.{option_of};
ghost use Rattle.wire.specs.Limits.{max_dictionary_bytes};
ghost use Rattle.dictionary.specs.Naming.{named, numbered};
ghost use Rattle.dictionary.specs.Internal.Walk.{is_named, relation_place, last_place};

use crate::names::{name_at, same_bytes};
use wire::bytes::word_at;
use wire::entries::{ENTRY_ID, ENTRY_KIND, RELATION_ENTRY, RELATION_NAME};
use wire::limits::MAX_DICTIONARY_BYTES;

// Whether the entry at q is the relation's of a name.
#[tactic(auto, unfolding(crate::specs::Internal::Walk::is_named))]
fn has_name(d: &[u8], q: usize, name: &[u8]) -> bool
    requires { q ≤ max_dictionary_bytes }
    ensures { result ≡ is_named d.now (named name.now) q }
{
    word_at(d, q + ENTRY_KIND) == RELATION_ENTRY && same_bytes(name_at(d, q + RELATION_NAME), name)
}

// Whether the entry at q is the relation's of an id.
#[tactic(auto, unfolding(crate::specs::Internal::Walk::is_named))]
fn has_id(d: &[u8], q: usize, id: u32) -> bool
    requires { q ≤ max_dictionary_bytes }
    ensures { result ≡ is_named d.now (numbered id) q }
{
    word_at(d, q + ENTRY_KIND) == RELATION_ENTRY && word_at(d, q + ENTRY_ID) == id
}

// The last entry that is wanted.
fn find_relation<F: Fn(usize) -> bool>(d: &[u8], wanted: F) -> Option<usize>
    requires { (q : ℕ) → q ≤ max_dictionary_bytes → F.pre wanted q }
    ensures { (t : ℕ → Bool) → ((q : ℕ) (b : Bool) → F.post wanted q b → b ≡ t q) → result ≡ option_of (last_place d.now t) }
{
    let mut found = None;
    if MAX_DICTIONARY_BYTES < d.len() {
        return found;
    }
    let mut q: usize = 0;
    while q < d.len() {
        let n = word_at(d, q) as usize;
        if n == 0 {
            return found;
        }
        if wanted(q) {
            found = Some(q);
        }
        q += n;
    }
    found
}

// The entry of the relation of a name.
#[tactic(auto, unfolding(crate::specs::Internal::Walk::relation_place))]
pub fn relation_named(d: &[u8], name: &[u8]) -> Option<usize>
    ensures { result ≡ option_of (relation_place d.now (named name.now)) }
{
    find_relation(d, |q| has_name(d, q, name))
}

// The entry of the relation of an id.
#[tactic(auto, unfolding(crate::specs::Internal::Walk::relation_place))]
pub fn relation_numbered(d: &[u8], id: u32) -> Option<usize>
    ensures { result ≡ option_of (relation_place d.now (numbered id)) }
{
    find_relation(d, |q| has_id(d, q, id))
}
