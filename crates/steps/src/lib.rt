// The fields of a request: a byte, a word, a code, a counted name, and those with a test of their own. Any place has an answer.
#![tactic(auto)]

ghost use Rattle.std.specs.Prelude.{◌≡◌, ◌≤◌, ◌+◌, ℕ, length};
ghost use Rattle.wire.specs.Words.{byte_at};
ghost use Rattle.grammar.specs.Reader.{on, byte, word, bytes, peek, name, code, coded};
ghost use Rattle.steps.specs.Fields.{stands};
ghost use Rattle.grammar.specs.Messages.{scale_byte, size_word};
ghost use Rattle.grammar.specs.Sizes.{count_in_range};
ghost use Rattle.grammar.specs.Statements.{count_byte};
ghost use Rattle.grammar.specs.Internal.Steps.{answer_of, cursor_of, same};

use classes::{Code, NotDue};
use dictionary::ranges::{scale_in_range, size_in_range};
use grammar::{Cursor, Passed, Read, Refusal};
use wire::bytes::{byte_at, word_at};
use wire::codes::Width;
use wire::limits::MAX_STREAMS;
use wire::numbers::{ContextNumber, LabelNumber, MessageNumber};
use wire::refused::Refused;

// The bytes of a word.
const WORD_BYTES: usize = 2;

// A number that one byte holds. Not std's From: it tells of a relation, and a clause of next_number names the number.
pub trait ByteNumber: Copy {
    ghost number: { ℕ → Self };

    fn of(byte: u8) -> Self
        ensures { result ≡ number byte };
}

impl ByteNumber for ContextNumber {
    ghost number = { λ n. record { 0 = n } };

    fn of(byte: u8) -> ContextNumber {
        ContextNumber(byte)
    }
}

impl ByteNumber for MessageNumber {
    ghost number = { λ n. record { 0 = n } };

    fn of(byte: u8) -> MessageNumber {
        MessageNumber(byte)
    }
}

impl ByteNumber for LabelNumber {
    ghost number = { λ n. record { 0 = n } };

    fn of(byte: u8) -> LabelNumber {
        LabelNumber(byte)
    }
}

// The cursor n bytes on.
fn moved(c: Cursor, n: usize, length: usize) -> Cursor
    requires { c.at + n ≤ length }
    ensures { result ≡ on c n }
{
    Cursor { at: c.at + n, ..c }
}

// Whether n bytes stand from a place on. No slice for them: where they do not stand there is none, and the refusal names the request's length.
fn stand(s: &[u8], at: usize, n: usize) -> bool
    ensures { result ≡ stands s.now at n }
{
    at <= s.len() && n <= s.len() - at
}

// A byte.
#[tactic(auto, unfolding(grammar::specs::Reader::taken))]
pub fn next_byte(s: &[u8], c: Cursor) -> Read<u8>
    ensures { result ≡ answer_of same (byte s.now c) }
{
    if !stand(s, c.at, 1) {
        return Err(Refused::new(Refusal::EndsEarly, s.len()));
    }
    Ok((byte_at(s, c.at), moved(c, 1, s.len())))
}

// A number of a context, a message or a label: it reads a byte and converts nothing by itself, and From would say no more, as above.
pub fn next_number<N: ByteNumber>(s: &[u8], c: Cursor) -> Read<N>
    ensures { result ≡ answer_of N.number (byte s.now c) }
{
    let (n, next) = next_byte(s, c)?;
    Ok((N::of(n), next))
}

// The next byte, which stays.
#[tactic(auto, unfolding(grammar::specs::Reader::peek))]
pub fn peek_byte(s: &[u8], c: Cursor) -> Read<u8>
    ensures { result ≡ answer_of same (peek s.now c) }
{
    if !stand(s, c.at, 1) {
        return Err(Refused::new(Refusal::EndsEarly, s.len()));
    }
    Ok((byte_at(s, c.at), c))
}

// A word.
#[tactic(auto, unfolding(grammar::specs::Reader::taken))]
pub fn next_word(s: &[u8], c: Cursor) -> Read<u32>
    ensures { result ≡ answer_of same (word s.now c) }
{
    if !stand(s, c.at, WORD_BYTES) {
        return Err(Refused::new(Refusal::EndsEarly, s.len()));
    }
    Ok((word_at(s, c.at), moved(c, WORD_BYTES, s.len())))
}

// A field of n bytes.
#[tactic(auto, unfolding(grammar::specs::Reader::taken))]
pub fn skip(s: &[u8], c: Cursor, n: usize) -> Passed
    ensures { result ≡ cursor_of (bytes n s.now c) }
{
    if !stand(s, c.at, n) {
        return Err(Refused::new(Refusal::EndsEarly, s.len()));
    }
    Ok(moved(c, n, s.len()))
}

// A counted name.
#[tactic(auto, unfolding(grammar::specs::Reader::name))]
pub fn skip_name(s: &[u8], c: Cursor) -> Passed
    ensures { result ≡ cursor_of (name s.now c) }
{
    let (n, first) = next_byte(s, c)?;
    skip(s, first, n as usize)
}

// A code that is due, and the refusal where another stands.
#[tactic(auto, unfolding(grammar::specs::Reader::code, grammar::specs::Reader::tested))]
pub fn due_code(s: &[u8], c: Cursor, k: u8, r: Refusal) -> Passed
    ensures { result ≡ cursor_of (code k r s.now c) }
{
    let (x, next) = next_byte(s, c)?;
    if k != x {
        return Err(Refused::new(r, c.at));
    }
    Ok(next)
}

// A code of a class; one that is left out, or foreign, is refused at its place.
#[tactic(auto, unfolding(grammar::specs::Reader::coded))]
pub fn next_code<T: Code>(s: &[u8], c: Cursor) -> Read<T>
    ensures { result ≡ answer_of same (coded T.class s.now c) }
{
    let (x, next) = next_byte(s, c)?;
    match T::of(x) {
        Ok(due) => Ok((due, next)),
        Err(NotDue::LeftOut) => Err(Refused::new(Refusal::LeftOut, c.at)),
        Err(NotDue::Foreign) => Err(Refused::new(Refusal::NotDue, c.at)),
    }
}

// The scale byte of a number of a width.
#[tactic(auto, unfolding(grammar::specs::Messages::scale_byte, grammar::specs::Reader::tested))]
pub fn scale_byte(s: &[u8], w: Width, c: Cursor) -> Read<u8>
    ensures { result ≡ answer_of same (scale_byte w s.now c) }
{
    let (scale, next) = next_byte(s, c)?;
    if !scale_in_range(w, scale) {
        return Err(Refused::new(Refusal::OutOfRange, c.at));
    }
    Ok((scale, next))
}

// The n of a text.
#[tactic(auto, unfolding(grammar::specs::Messages::size_word, grammar::specs::Reader::tested))]
pub fn size_word(s: &[u8], c: Cursor) -> Read<u32>
    ensures { result ≡ answer_of same (size_word s.now c) }
{
    let (n, next) = next_word(s, c)?;
    if !size_in_range(n) {
        return Err(Refused::new(Refusal::OutOfRange, c.at));
    }
    Ok((n, next))
}

// "Streams 1–8, sort values 1–8."
#[tactic(auto, unfolding(grammar::specs::Sizes::count_in_range))]
fn count_in_range(n: u8) -> bool
    ensures { result ≡ count_in_range n }
{
    1 <= n && n as usize <= MAX_STREAMS
}

// The count of an rse's streams or of a sort's values.
#[tactic(auto, unfolding(grammar::specs::Statements::count_byte, grammar::specs::Reader::tested))]
pub fn count_byte(s: &[u8], c: Cursor) -> Read<u8>
    ensures { result ≡ answer_of same (count_byte s.now c) }
{
    let (count, next) = next_byte(s, c)?;
    if !count_in_range(count) {
        return Err(Refused::new(Refusal::OutOfRange, c.at));
    }
    Ok((count, next))
}
