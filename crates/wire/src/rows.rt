// The columns of the rows of each table, by name: the place of a number in its row. They are the numbers of specs/Internal/Columns.antt.

// "Statement row: place, code, parent's row number plus one (outer: 0), place after it."
pub const STATEMENT_PLACE: usize = 0;

pub const STATEMENT_CODE: usize = 1;

pub const STATEMENT_PARENT: usize = 2;

pub const STATEMENT_END: usize = 3;

// "a fifth number, its boolean's number plus one, or 0 where it has none"
pub const STATEMENT_BOOLEAN: usize = 4;

// "Parameter row: message, parameter, type, scale byte, offset, bytes held."
pub const PARAMETER_MESSAGE: usize = 0;

pub const PARAMETER_INDEX: usize = 1;

pub const PARAMETER_TYPE: usize = 2;

pub const PARAMETER_SCALE: usize = 3;

pub const PARAMETER_OFFSET: usize = 4;

pub const PARAMETER_HELD: usize = 5;

// "Context row: number, place of the stream or modify code, scope start, scope end, relation id (modify: of its from-ctx)."
pub const CONTEXT_NUMBER: usize = 0;

pub const CONTEXT_PLACE: usize = 1;

pub const CONTEXT_START: usize = 2;

pub const CONTEXT_END: usize = 3;

pub const CONTEXT_RELATION: usize = 4;

// "a sixth, the code that opened it"
pub const CONTEXT_OPENER: usize = 5;
