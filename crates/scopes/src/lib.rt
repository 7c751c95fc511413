// What is in scope at a place of a request, and the kinds of values.
#![tactic(auto)]

pub mod kinds;
pub mod scope;
