// Document 01's greatest sizes, the bytes of each type, the numbers of a row, and the least sizes of the three tables, by name. They are
// the numbers of specs/Limits.antt.

// "Request and dictionary 65,535 bytes."
pub const MAX_REQUEST_BYTES: usize = 65535;

pub const MAX_DICTIONARY_BYTES: usize = 65535;

// "Depth 32: every statement, value and boolean is one level, the outer begin the first."
pub const MAX_DEPTH: usize = 32;

// "512 statements, 16 messages, 128 parameters a message, 256 in all, 4,096 bytes a message, 32 context declarations, 32 relations, 64 fields
// each, 4,096 bytes a record entry."
pub const MAX_STATEMENTS: usize = 512;

pub const MAX_MESSAGES: usize = 16;

pub const MAX_MESSAGE_PARAMETERS: usize = 128;

pub const MAX_PARAMETERS: usize = 256;

pub const MAX_MESSAGE_BYTES: usize = 4096;

pub const MAX_CONTEXTS: usize = 32;

pub const MAX_RELATIONS: usize = 32;

pub const MAX_FIELDS: usize = 64;

pub const MAX_RECORD_BYTES: usize = 4096;

// "Text n 1–255. Streams 1–8, sort values 1–8."
pub const MAX_TEXT_BYTES: usize = 255;

pub const MAX_STREAMS: usize = 8;

pub const MAX_SORT_VALUES: usize = 8;

// "Scales -9 to 0; arithmetic -18 to 0."
pub const MIN_SCALE: i8 = -9;

pub const MIN_ARITHMETIC_SCALE: i8 = -18;

// "Names have 1 to 31 bytes of 33–126."
pub const MAX_NAME_BYTES: usize = 31;

pub const FIRST_NAME_BYTE: u8 = 33;

pub const LAST_NAME_BYTE: u8 = 126;

// "short 7 and long 8 .. (2 and 4 bytes); date 35 (8 bytes)"
pub const SHORT_SIZE: usize = 2;

pub const LONG_SIZE: usize = 4;

// 02, No. 8: "type 16, a 64-bit integer of 8 bytes with a scale of -18 to 0".
pub const INT64_SIZE: usize = 8;

pub const MIN_INT64_SCALE: i8 = -18;

pub const DATE_SIZE: usize = 8;

// "a varying's follows its length word"
pub const LENGTH_WORD: usize = 2;

// "a house reading: 2 bytes"
pub const READING_SIZE: usize = 2;

// "if it is a reading of 65535"
pub const MISSING_READING: u32 = 65535;

// The numbers of a row of each table.
pub const STATEMENT_ROW: usize = 5;

pub const PARAMETER_ROW: usize = 6;

pub const CONTEXT_ROW: usize = 6;

// "smallest sizes change to 2560 and 192 numbers": a row for each statement, parameter and context.
pub const STATEMENT_TABLE: usize = MAX_STATEMENTS * STATEMENT_ROW;

pub const PARAMETER_TABLE: usize = MAX_PARAMETERS * PARAMETER_ROW;

pub const CONTEXT_TABLE: usize = MAX_CONTEXTS * CONTEXT_ROW;
