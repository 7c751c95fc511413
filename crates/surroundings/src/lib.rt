// From the reader's tables to what a condition needs: the bytes of all images, the contexts in scope, the table of bindings with
// their records, and a parameter's format and place.
#![tactic(auto)]

pub mod bindings;
pub mod images;
pub mod scope;
