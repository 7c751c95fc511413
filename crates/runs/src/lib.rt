// The runs of a condition or a from-value: from its bytes to a row for each any, unique and statistic, and from the rows and the lent runs
// to what each holds.
#![tactic(auto)]

pub mod check;
mod forms;
mod pass;
pub mod scan;
mod stream;
