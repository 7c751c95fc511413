// The tables that a caller lends: rows of statements and contexts, the scopes of contexts, and the places of conditions.
#![tactic(auto)]

pub mod conditions;
pub mod contexts;
pub mod statements;

// A number in a table has 32 bits.
pub(crate) const NUMBERS: usize = 4294967296;
