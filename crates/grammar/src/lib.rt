// What the reader and the evaluator share: refusals, and how far a reading has come.
#![tactic(auto)]

ghost use Rattle.std.specs.Prelude.{◌≡◌};
ghost use Rattle.grammar.specs.Refusals.{number};

use wire::refused::Refused;

// The refusals of document 01, named by what went wrong. The definition `number` has 01's number for each.
#[derive(Clone, Copy, PartialEq, Eq)]
pub enum Refusal {
    TablesTooShort,
    RequestTooLong,
    BadDictionary,
    EndsEarly,
    BadVersion,
    NotDue,
    LeftOut,
    TooGreat,
    BadMessage,
    NoParameter,
    BadContext,
    Unknown,
    Unfit,
    Misplaced,
    BytesAfterEnd,
    OutOfRange,
    NoBoolean,
    BadMessageBytes,
    BadRecords,
    MalformedText,
    Overflow,
    ZeroDivisor,
    BadRuns,
}

// Document 01's number of a refusal.
impl From<Refusal> for u32 {
    #[tactic(auto, unfolding(crate::specs::Refusals::number))]
    fn from(refusal: Refusal) -> u32
        ensures { result ≡ number refusal }
    {
        match refusal {
            Refusal::TablesTooShort => 1,
            Refusal::RequestTooLong => 2,
            Refusal::BadDictionary => 3,
            Refusal::EndsEarly => 4,
            Refusal::BadVersion => 5,
            Refusal::NotDue => 6,
            Refusal::LeftOut => 7,
            Refusal::TooGreat => 8,
            Refusal::BadMessage => 9,
            Refusal::NoParameter => 10,
            Refusal::BadContext => 11,
            Refusal::Unknown => 12,
            Refusal::Unfit => 13,
            Refusal::Misplaced => 14,
            Refusal::BytesAfterEnd => 15,
            Refusal::OutOfRange => 16,
            Refusal::NoBoolean => 20,
            Refusal::BadMessageBytes => 21,
            Refusal::BadRecords => 22,
            Refusal::MalformedText => 23,
            Refusal::Overflow => 24,
            Refusal::ZeroDivisor => 25,
            Refusal::BadRuns => 26,
        }
    }
}

// How far a reading has come: the place of the next byte, and the statements, contexts and conditions met, of which there are 512 at most.
#[derive(Clone, Copy, PartialEq, Eq)]
pub struct Cursor {
    pub at: usize,
    pub statements: u16,
    pub contexts: u16,
    pub conditions: u16,
}

// A thing that was read and the cursor after it; or the refusal and its place.
pub type Read<T> = Result<(T, Cursor), Refused<Refusal>>;

// The cursor after what was read; or the refusal and its place.
pub type Passed = Result<Cursor, Refused<Refusal>>;

// What a reference is read as: a value, or the target of the assignment at a place.
#[derive(Clone, Copy, PartialEq, Eq)]
pub enum Role {
    AsValue,
    AsTarget(usize),
}

// The kind of a value; a number with its scale.
#[derive(Clone, Copy, PartialEq, Eq)]
pub enum Kind {
    Number(i8),
    Text,
    Date,
}

// The rows of statements, parameters and contexts of a request that was read.
#[derive(Clone, Copy, PartialEq, Eq)]
pub struct Counts {
    pub statements: usize,
    pub parameters: usize,
    pub contexts: usize,
}
