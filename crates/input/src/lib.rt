// What the programs read from standard input: whole entries, one after another.
#![tactic(auto)]

ghost use Rattle.std.specs.Prelude.{◌≡◌, ◌+◌, ◌^◌, ◌<◌, length};
ghost use Rattle.std.proofs.lemmas.List.Edits.{sets};
ghost use Rattle.wire.specs.Options.{option_of};
ghost use Rattle.input.specs.Input.{whole, entry_end, request_entry};
ghost use Rattle.input.specs.Evaluation.{whole_word, whole_number, asks_row, after_entries, evaluation_input, Joined};

use wire::bytes::{word_at, word_on};
use wire::entries::{
    DICTIONARY_ENTRY, ENTRY_BODY, ENTRY_KIND, MESSAGE_ENTRY, NUMBER_ENTRY, RECORD_ENTRY,
    REQUEST_ENTRY, RUN_ENTRY,
};

// The longest input of the programs `evaluate` and `explain`, in bytes.
pub const MAX_INPUT_BYTES: usize = 3000000;

// The bytes of the entry of a boolean's number or an assignment's row: length, kind, and the number, a word each.
pub const NUMBER_ENTRY_BYTES: usize = 6;

// The kind of an entry that has the row of an assignment.
const ROW_ENTRY: u32 = 11;

// Where the request's entry, the number's entry, the first record and the first run begin in an evaluation's input.
#[derive(Clone, Copy)]
pub struct Entries {
    pub request: usize,
    pub number: usize,
    pub records: usize,
    pub runs: usize,
}

// Whether a whole entry of a kind stands at a place.
// Kept, here and below: place and kind change from call to call, so a struct of the three would be made anew for each: no plainer.
#[tactic(auto, unfolding(crate::specs::Input::whole))]
fn is_whole(s: &[u8], at: usize, kind: u32) -> bool
    ensures { result ≡ whole s.now at kind }
{
    let n = word_at(s, at) as usize;
    if n < ENTRY_BODY || s.len() < at || s.len() - at < n {
        return false;
    }
    word_at(s, at + ENTRY_KIND) == kind
}

// The place after the whole entry of a kind that stands at a place, if one does.
fn entry_end(s: &[u8], at: usize, kind: u32) -> Option<usize>
    ensures { result ≡ option_of (entry_end s.now at kind) }
{
    if !is_whole(s, at, kind) {
        return None;
    }
    Some(at + word_at(s, at) as usize)
}

// The place of the second entry, where an entry of kind 4 stands, then one of kind 5, and nothing more.
#[tactic(auto, unfolding(crate::specs::Input::request_entry))]
pub fn request_entry(s: &[u8]) -> Option<usize>
    ensures { result ≡ option_of (request_entry s.now) }
{
    let at = entry_end(s, 0, DICTIONARY_ENTRY)?;
    if entry_end(s, at, REQUEST_ENTRY)? != s.len() {
        return None;
    }
    Some(at)
}

// Whether an entry of a kind with one word stands at a place.
#[tactic(auto, unfolding(crate::specs::Evaluation::whole_word))]
fn is_word(s: &[u8], at: usize, kind: u32) -> bool
    ensures { result ≡ whole_word s.now at kind }
{
    is_whole(s, at, kind) && word_at(s, at) as usize == NUMBER_ENTRY_BYTES
}

// Whether the number of a boolean or the row of an assignment stands at a place.
#[tactic(auto, unfolding(crate::specs::Evaluation::whole_number))]
fn is_number(s: &[u8], at: usize) -> bool
    ensures { result ≡ whole_number s.now at }
{
    is_word(s, at, NUMBER_ENTRY) || is_word(s, at, ROW_ENTRY)
}

// Whether the number's entry at a place is that of a row.
pub fn asks_row(s: &[u8], at: usize) -> bool
    ensures { result ≡ asks_row s.now at }
{
    word_on(s, at, ENTRY_KIND) == ROW_ENTRY
}

// The place after the entries of a kind that stand one after another from a place on.
fn after_entries(s: &[u8], at: usize, kind: u32) -> usize
    ensures { result ≡ after_entries s.now at kind }
{
    let mut p = at;
    while let Some(next) = entry_end(s, p, kind) {
        p = next;
    }
    p
}

// Where the entries of the programs `evaluate` and `explain` stand: of kinds 4, 5, and 9 or 11, then those of kind 10, then those of kind 3, then those
// of kind 7, and nothing more. Of kind 11 `explain` takes none, by `asks_row`.
#[tactic(auto, unfolding(crate::specs::Evaluation::evaluation_input, crate::specs::Evaluation::whole_input, crate::specs::Evaluation::records_at, crate::specs::Evaluation::runs_at))]
pub fn evaluation_entries(s: &[u8]) -> Option<Entries>
    ensures { result ≡ evaluation_input s.now }
{
    if MAX_INPUT_BYTES < s.len() {
        return None;
    }
    let request = entry_end(s, 0, DICTIONARY_ENTRY)?;
    let number = entry_end(s, request, REQUEST_ENTRY)?;
    if !is_number(s, number) {
        return None;
    }
    let records = after_entries(s, number + NUMBER_ENTRY_BYTES, MESSAGE_ENTRY);
    let runs = after_entries(s, records, RECORD_ENTRY);
    if after_entries(s, runs, RUN_ENTRY) != s.len() {
        return None;
    }
    Some(Entries {
        request,
        number,
        records,
        runs,
    })
}

// Copies bytes into a lent slice from a place on, as far as it goes.
// Kept: as far as it goes; by `copy_from_slice` it takes two lengths and two slices, which is no plainer.
fn put_all(lent: &mut [u8], at: usize, bytes: &[u8])
    requires { at + length bytes.now < 2 ^ 64 }
    ensures { lent.new ≡ sets lent.old at bytes.now }
{
    for (i, x) in bytes.iter().enumerate() {
        if at + i < lent.len() {
            lent[at + i] = *x;
        }
    }
}

// Copies the bodies of the entries of a kind that stand one after another from a place on, joined, into a lent slice as far as it goes.
// Answers how many bytes they are.
pub fn join_bodies(s: &[u8], at: usize, kind: u32, lent: &mut [u8]) -> usize
    ensures { Joined s.now at kind lent.old lent.new result }
{
    let mut p = at;
    let mut n: usize = 0;
    while let Some(next) = entry_end(s, p, kind) {
        put_all(lent, n, &s[p + ENTRY_BODY..next]);
        n += next - p - ENTRY_BODY;
        p = next;
    }
    n
}
