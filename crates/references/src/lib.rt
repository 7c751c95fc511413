// Values and targets that hold no other: literals, fields and parameters.
#![tactic(auto)]

mod field;
pub mod literal;
mod parameter;
pub mod reference;
mod role;
