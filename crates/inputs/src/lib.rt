// What messages, records and literals hold: the value of each field, parameter and literal.
#![tactic(auto)]

mod fields;
pub mod literals;
pub mod noted;
mod numbers;
mod parameters;
pub mod references;
pub mod singles;
mod stored;

use values::Value;

// Why a reference gives no value: a malformed text, or that there is no such thing.
#[derive(Clone, Copy, PartialEq, Eq)]
pub(crate) enum Unread {
    Malformed,
    Nothing,
}

// What a reference gives.
pub(crate) type Fetched = Result<Value, Unread>;
