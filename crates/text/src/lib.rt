// Texts: the part of a slice that holds one, order, and the three searches.
#![tactic(auto)]

mod letters;
mod matching;
pub mod order;
pub mod search;
pub mod value;
