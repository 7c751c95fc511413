// The messages of a request: what was declared, and reading the declarations with their rows. `descriptor` is private, for `reading` alone.
#![tactic(auto)]

pub mod declared;
mod descriptor;
pub mod reading;
