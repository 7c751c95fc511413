// The records of a relation, which is given by the place of its entry in the dictionary; a field is given by the place of its own entry.
// Dictionaries and records are of any bytes.
#![tactic(auto)]

pub mod lengths;
pub mod missing;
pub mod proper;
pub mod runs;
