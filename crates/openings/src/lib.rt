// The codes of statements, what opens a scope, and what holds no other statement.
#![tactic(auto)]

pub mod beside;
pub mod heads;
pub mod opening;
pub mod parts;
mod streams;
