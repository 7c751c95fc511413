// The house dictionary.
#![tactic(auto)]

pub mod check;
pub mod entries;
pub mod field;
pub mod format;
pub mod lookup;
pub mod names;
pub mod ranges;
