// What requests, dictionaries and records are written in: bytes, words, codes by their kind of place, entries; sizes, and the rows of tables.
#![tactic(auto)]

pub mod blr;
pub mod bytes;
pub mod codes;
pub mod entries;
pub mod limits;
pub mod numbers;
pub mod refused;
pub mod rows;
pub mod table;
