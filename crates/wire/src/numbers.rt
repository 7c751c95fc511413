// Document 01: "Context numbers, message numbers and label numbers are three countings: a 1 in one is never a 1 in another." Each is a type of its own.
#[derive(Clone, Copy, PartialEq, Eq)]
pub struct ContextNumber(pub u8);

#[derive(Clone, Copy, PartialEq, Eq)]
pub struct MessageNumber(pub u8);

#[derive(Clone, Copy, PartialEq, Eq)]
pub struct LabelNumber(pub u8);
