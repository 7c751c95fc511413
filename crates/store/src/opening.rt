// Opening a store: its dictionary, its header and its records.
ghost use Rattle.std.specs.Prelude.{◌≡◌, ◌≤◌, ◌<◌, length};
ghost use Rattle.wire.specs.Limits.{max_fields};
ghost use Rattle.dictionary.specs.Internal.Walk.{relation_at};
ghost use Rattle.store.specs.Calls.{store_in};
ghost use Rattle.dictionary.specs.Dictionary.{dictionary};
ghost use Rattle.store.specs.Internal.Layouts.{dictionary_answer, layout_of, headed, closed_at, settled, store_of_relation, Opens};
ghost use Rattle.store.specs.Internal.Changes.{Fair};

use crate::bytes::is_clear;
use crate::layout::{Layout, lay_of, tally_of};
use crate::{
    Answer, MAX_STORE_BYTES, Refusal, STORE_COUNT, STORE_ENTRY, STORE_HEADER, STORE_MISSING,
    refused,
};
use dictionary::check::check;
use dictionary::lookup::relation_numbered;
use wire::bytes::word_at;
use wire::entries::{ENTRY_ID, ENTRY_KIND};
use wire::refused::Refused;

// An open store: the layout of its records, and its counts.
#[derive(Clone, Copy)]
pub(crate) struct Store {
    pub layout: Layout,
    pub count: usize,
    pub missing: usize,
}

// Refuses a dictionary that is not proper, at the start of the first entry at fault.
pub(crate) fn good_dictionary(d: &[u8]) -> Answer<()>
    ensures { result ≡ dictionary_answer (dictionary d.now) }
{
    match check(d) {
        Ok(()) => Ok(()),
        Err(p) => Err(Refused::new(Refusal::BadDictionary, p)),
    }
}

// Whether a buffer is not too long and starts as a store does.
#[tactic(auto, unfolding(crate::specs::Internal::Layouts::headed))]
fn is_headed(b: &[u8]) -> bool
    ensures { result ≡ headed b.now }
{
    b.len() <= MAX_STORE_BYTES
        && word_at(b, 0) as usize == STORE_HEADER
        && word_at(b, ENTRY_KIND) == STORE_ENTRY
}

// Whether a buffer has a missing count, and zeros from a place on.
#[tactic(auto, unfolding(crate::specs::Internal::Layouts::closed_at))]
fn is_closed(b: &[u8], end: usize, missing: usize) -> bool
    ensures { result ≡ closed_at b.now end missing }
{
    end <= b.len() && word_at(b, STORE_MISSING) as usize == missing && is_clear(b, end)
}

// The store in a buffer whose records are as they should be.
#[tactic(auto, unfolding(crate::specs::Internal::Layouts::settled))]
fn settle(b: &[u8], l: Layout, count: usize, missing: usize) -> Answer<Store>
    requires { (count < 65536) × (l.size ≤ 4097) }
    ensures { result ≡ settled b.now l count missing }
{
    if !is_closed(b, STORE_HEADER + count * l.size, missing) {
        return refused(Refusal::MalformedStore);
    }
    Ok(Store {
        layout: l,
        count,
        missing,
    })
}

// The store of the relation whose entry stands at a place.
fn open_of(d: &[u8], relation: usize, b: &[u8], table: &mut [u32]) -> Answer<Store>
    requires { Fair (layout_of (relation_at d.now relation)) × (max_fields ≤ length table.old) }
    ensures { Opens (store_of_relation (relation_at d.now relation) b.now) table.new result }
{
    if !is_headed(b) {
        return refused(Refusal::MalformedStore);
    }
    let l = lay_of(d, relation, table);
    let count = word_at(b, STORE_COUNT) as usize;
    match tally_of(table, b, l, count) {
        Some(missing) => settle(b, l, count, missing),
        None => refused(Refusal::MalformedStore),
    }
}

// The store of a buffer: 3, then 50. The table has the places of its readings.
pub(crate) fn open_store(d: &[u8], b: &[u8], table: &mut [u32]) -> Answer<Store>
    requires { max_fields ≤ length table.old }
    ensures { Opens (store_in d.now b.now) table.new result }
{
    good_dictionary(d)?;
    match relation_numbered(d, word_at(b, ENTRY_ID)) {
        Some(relation) => open_of(d, relation, b, table),
        None => refused(Refusal::MalformedStore),
    }
}
