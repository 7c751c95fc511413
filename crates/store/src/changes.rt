// Adding, erasing and replacing records of an open store.
ghost use Rattle.std.specs.Prelude.{◌≡◌, ◌+◌, ◌^◌, ◌<◌, ◌≤◌, length};
ghost use Rattle.store.specs.Store.{max_store_bytes, store_header, bit_place};
ghost use Rattle.store.specs.Internal.Changes.{bit_set, marked_with, one_by, counted, Fair, Ready, Changes, Writes};
ghost use Rattle.store.specs.Internal.Changes.{add_refusal, add_bytes, erase_refusal, erase_bytes, replace_refusal, replace_bytes};

use crate::bytes::{close_gap, copy, put_word};
use crate::layout::{Layout, count_ones, is_lost, is_proper};
use crate::opening::Store;
use crate::{Answer, Refusal, STORE_COUNT, STORE_HEADER, STORE_MISSING, refused};
use records::missing::missing_bit;
use wire::entries::RECORD_BITS;

// Whether bytes are one proper record and nothing more.
#[tactic(auto, unfolding(crate::specs::Internal::Changes::one_by))]
fn is_one(x: &[u8], l: Layout) -> bool
    ensures { result ≡ one_by l x.now }
{
    is_proper(x, 0, l) && x.len() == l.size
}

// 2 to the power k.
fn power(k: usize) -> u8
    requires { k < 8 }
    ensures { result ≡ 2 ^ k }
{
    1 << k
}

// Sets the missing bit of field i of the record at a place.
#[tactic(auto, unfolding(crate::specs::Internal::Changes::bit_set))]
fn set_bit(b: &mut [u8], p: usize, i: usize)
    requires { p + bit_place i < length b.old }
    ensures { b.new ≡ bit_set b.old p i }
{
    if !missing_bit(b, p, i) {
        b[p + (RECORD_BITS + i / 8)] += power(i % 8);
    }
}

// Sets the missing bits of the readings of 65535 of a record that was copied to a place.
// Kept as a fact: a layout is made of any relation, and only that of a proper dictionary is fair; so a type cannot have it.
fn mark(b: &mut [u8], p: usize, x: &[u8], l: Layout, table: &[u32])
    requires { Fair l × (p + l.size ≤ length b.old) }
    ensures { b.new ≡ marked_with table.now x.now b.old p l.fields }
{
    for i in 0..l.fields {
        if is_lost(table, x, 0, i) {
            set_bit(b, p, i);
        }
    }
}

// Writes a record at a place: its bytes, then its marks. Answers how many missing bits it has.
fn write(b: &mut [u8], p: usize, x: &[u8], l: Layout, table: &[u32]) -> usize
    requires { Fair l × ((length x.now ≡ l.size) × ((p + l.size ≤ length b.old) × (length b.old ≤ max_store_bytes))) }
    ensures { Writes l table.now b.old p x.now b.new result }
{
    copy(b, p, x);
    mark(b, p, x, l, table);
    count_ones(b, p + RECORD_BITS, l.bits)
}

// Writes both counts of the header.
fn put_counts(b: &mut [u8], count: usize, missing: usize)
    requires { (store_header ≤ length b.old) × ((count < 65536) × (missing < 65536)) }
    ensures { b.new ≡ counted b.old count missing }
{
    put_word(b, STORE_COUNT, count as u32);
    put_word(b, STORE_MISSING, missing as u32);
}

// A record at the end.
// Kept as a fact, here and below: it ties the store to a buffer that the call changes, and a struct of both would hold the borrow.
pub(crate) fn add_to(b: &mut [u8], s: Store, table: &[u32], x: &[u8]) -> Answer<()>
    requires { Ready s b.old }
    ensures { Changes (add_refusal s b.old x.now)
        b.old (add_bytes s table.now b.old x.now) b.new result }
{
    if !is_one(x, s.layout) {
        return refused(Refusal::WrongRecord);
    }
    let end = STORE_HEADER + s.count * s.layout.size;
    if b.len() - end < x.len() {
        return refused(Refusal::NoRoom);
    }
    let ones = write(b, end, x, s.layout, table);
    put_counts(b, s.count + 1, s.missing + ones);
    Ok(())
}

// No record at a position any more: the gap is closed.
pub(crate) fn erase_at(b: &mut [u8], s: Store, k: usize) -> Answer<()>
    requires { Ready s b.old }
    ensures { Changes (erase_refusal s k) b.old (erase_bytes s b.old k) b.new result }
{
    if s.count <= k {
        return refused(Refusal::NoPosition);
    }
    let at = STORE_HEADER + k * s.layout.size;
    let ones = count_ones(b, at + RECORD_BITS, s.layout.bits);
    close_gap(b, at, s.layout.size);
    put_counts(b, s.count - 1, s.missing - ones);
    Ok(())
}

// Another record at a position.
pub(crate) fn replace_at(b: &mut [u8], s: Store, k: usize, table: &[u32], x: &[u8]) -> Answer<()>
    requires { Ready s b.old }
    ensures { Changes (replace_refusal s k x.now)
        b.old (replace_bytes s table.now b.old k x.now) b.new result }
{
    if s.count <= k {
        return refused(Refusal::NoPosition);
    }
    if !is_one(x, s.layout) {
        return refused(Refusal::WrongRecord);
    }
    let at = STORE_HEADER + k * s.layout.size;
    let old = count_ones(b, at + RECORD_BITS, s.layout.bits);
    let new = write(b, at, x, s.layout, table);
    put_counts(b, s.count, s.missing - old + new);
    Ok(())
}
