// Values and truth values as the evaluator has them, and the operators and tests on them.
#![tactic(auto)]

use decimal::Number;
use meaning::{Fault, Kind, Source, Truth};
use records::missing::Cause;
use wire::codes::TextType;

pub mod arithmetic;
pub mod between;
pub mod comparison;
pub mod logic;
pub mod missing;
pub mod opposite;
mod orders;
mod pairs;
pub mod search;
pub mod spans;
pub mod statistics;
mod texts;

// The slices that texts stand in: the request, the message images, the records and the runs.
#[derive(Clone, Copy)]
pub struct Lent<'a> {
    pub request: &'a [u8],
    pub images: &'a [u8],
    pub records: &'a [u8],
    pub runs: &'a [u8],
}

// The bytes that hold a text: where they start and end in their slice, and the type that says which part of them is the text.
#[derive(Clone, Copy)]
pub struct Held {
    pub source: Source,
    pub of: TextType,
    pub start: usize,
    pub end: usize,
}

// Where a text stands: the slice, and where it starts and ends there.
#[derive(Clone, Copy)]
pub struct Span {
    pub source: Source,
    pub start: usize,
    pub end: usize,
}

#[derive(Clone, Copy)]
pub struct Date {
    pub day: i64,
    pub fraction: u32,
}

// A value: there, or missing, with its kind all the same and the cause.
#[derive(Clone, Copy)]
pub enum Value {
    Number(Number),
    Text(Held),
    Date(Date),
    Missing(Kind, Cause),
}

// Why there is no answer: a refusal and its place; or that something that is named is not there or does not fit.
#[derive(Clone, Copy)]
pub enum Stop {
    Refused(Fault, usize),
    Stray,
}

// What a value comes out as, and the place after it.
pub type Valued = Result<(Value, usize), Stop>;

// What a boolean comes out as, likewise.
pub type Tested = Result<(Truth, usize), Stop>;
