// The readers of values, of booleans and of the clauses of an rse.
#![tactic(auto)]

pub mod booleans;
pub mod clauses;
pub mod fits;
mod heads;
mod rses;
pub mod values;
