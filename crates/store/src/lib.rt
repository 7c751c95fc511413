// A store: the records of one relation in a lent buffer, beside a house dictionary. Buffers, dictionaries and records are of any bytes.
#![tactic(auto)]

ghost use Rattle.std.specs.Prelude.{◌≡◌, ◌≤◌, Err};
ghost use Rattle.wire.specs.Options.{refused_at};
ghost use Rattle.store.specs.Calls.{number, make as Make, change, add as Add, erase as Erase, replace as Replace};
ghost use Rattle.dictionary.specs.Internal.Walk.{relation_at};
ghost use Rattle.store.specs.Calls.{store_in, Called, reading_of, place_in};
ghost use Rattle.store.specs.Internal.Changes.{MadeOf, Numbers, place_by};

mod bytes;
mod changes;
mod layout;
mod opening;

use crate::bytes::{clear, put_word};
use crate::changes::{add_to, erase_at, replace_at};
use crate::opening::{Store, good_dictionary, open_store};
use dictionary::lookup::relation_numbered;
use wire::bytes::word_on;
use wire::entries::{ENTRY_ID, ENTRY_KIND};
use wire::limits::MAX_FIELDS;
use wire::refused::Refused;

// "a lent buffer of at most 65,535 bytes"
pub const MAX_STORE_BYTES: usize = 65535;

// "an entry of kind 8 (words: known relation id, record count, missing count)": its kind, the places of its counts, and its length.
pub const STORE_ENTRY: u32 = 8;

pub const STORE_COUNT: usize = 6;

pub const STORE_MISSING: usize = 8;

pub const STORE_HEADER: usize = 10;

// Why a call is refused.
#[derive(Clone, Copy, PartialEq, Eq)]
pub enum Refusal {
    BadDictionary,
    UnknownRelation,
    MalformedStore,
    NoPosition,
    WrongRecord,
    NoRoom,
}

// The number of a refusal.
impl From<Refusal> for u32 {
    fn from(refusal: Refusal) -> u32
        ensures { result ≡ number refusal }
    {
        match refusal {
            Refusal::BadDictionary => 3,
            Refusal::UnknownRelation => 12,
            Refusal::MalformedStore => 50,
            Refusal::NoPosition => 51,
            Refusal::WrongRecord => 52,
            Refusal::NoRoom => 53,
        }
    }
}

// What a call gives, or its refusal.
pub type Answer<T> = Result<T, Refused<Refusal>>;

// What a store holds: its relation's id, its record count and its missing count.
#[derive(Clone, Copy)]
pub struct Counts {
    pub relation: u32,
    pub records: usize,
    pub missing: usize,
}

// A refusal at 0, as all are but that of a dictionary.
fn refused<T>(r: Refusal) -> Answer<T>
    ensures { result ≡ Err (refused_at r 0) }
{
    Err(Refused::new(r, 0))
}

// The header of an empty store of the relation whose entry stands at a place, then zeros.
fn make_of(d: &[u8], relation: usize, buffer: &mut [u8]) -> Answer<()>
    ensures { MadeOf (relation_at d.now relation) buffer.old buffer.new result }
{
    if MAX_STORE_BYTES < buffer.len() {
        return refused(Refusal::MalformedStore);
    }
    if buffer.len() < STORE_HEADER {
        return refused(Refusal::NoRoom);
    }
    clear(buffer, 0);
    put_word(buffer, 0, STORE_HEADER as u32);
    put_word(buffer, ENTRY_KIND, STORE_ENTRY);
    put_word(buffer, ENTRY_ID, word_on(d, relation, ENTRY_ID));
    Ok(())
}

// "A first call makes it empty": a store of the relation of an id.
pub fn make(dictionary: &[u8], buffer: &mut [u8], relation: u32) -> Answer<()>
    ensures { Called dictionary.now buffer.old (Make relation) buffer.new result }
{
    good_dictionary(dictionary)?;
    match relation_numbered(dictionary, relation) {
        Some(q) => make_of(dictionary, q, buffer),
        None => refused(Refusal::UnknownRelation),
    }
}

// A record at the end.
pub fn add(dictionary: &[u8], buffer: &mut [u8], entry: &[u8]) -> Answer<()>
    ensures { Called dictionary.now buffer.old (change (Add entry.now)) buffer.new result }
{
    let mut table: [u32; 64] = [0; MAX_FIELDS];
    let s = open_store(dictionary, buffer, &mut table)?;
    add_to(buffer, s, &table, entry)
}

// "erase by position (from 0)"
// Kept: a public function, which keeps its parameters.
pub fn erase(dictionary: &[u8], buffer: &mut [u8], position: usize) -> Answer<()>
    ensures { Called dictionary.now buffer.old (change (Erase position)) buffer.new result }
{
    let mut table: [u32; 64] = [0; MAX_FIELDS];
    let s = open_store(dictionary, buffer, &mut table)?;
    erase_at(buffer, s, position)
}

// Another record at a position.
// Kept: a public function, which keeps its parameters.
pub fn replace(dictionary: &[u8], buffer: &mut [u8], position: usize, entry: &[u8]) -> Answer<()>
    ensures { Called dictionary.now buffer.old (change (Replace position entry.now)) buffer.new result }
{
    let mut table: [u32; 64] = [0; MAX_FIELDS];
    let s = open_store(dictionary, buffer, &mut table)?;
    replace_at(buffer, s, position, &table, entry)
}

// Whether a store is well-formed, with its counts.
pub fn read(dictionary: &[u8], buffer: &[u8]) -> Answer<Counts>
    ensures { result ≡ reading_of (store_in dictionary.now buffer.now) }
{
    let mut table: [u32; 64] = [0; MAX_FIELDS];
    let s = open_store(dictionary, buffer, &mut table)?;
    Ok(Counts {
        relation: s.layout.id,
        records: s.count,
        missing: s.missing,
    })
}

// Where record k of an open store stands, and its length.
fn place_in(s: Store, k: usize) -> Answer<(usize, usize)>
    requires { Numbers s }
    ensures { result ≡ place_by s k }
{
    if s.count <= k {
        return refused(Refusal::NoPosition);
    }
    Ok((STORE_HEADER + k * s.layout.size, s.layout.size))
}

// Where a record stands in the buffer, by its position, and its length.
pub fn find(dictionary: &[u8], buffer: &[u8], position: usize) -> Answer<(usize, usize)>
    ensures { result ≡ place_in (store_in dictionary.now buffer.now) position }
{
    let mut table: [u32; 64] = [0; MAX_FIELDS];
    let s = open_store(dictionary, buffer, &mut table)?;
    place_in(s, position)
}
