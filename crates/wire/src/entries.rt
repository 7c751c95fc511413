// The entries of dictionaries, records and the programs' input: their kinds, and where their parts stand. They are the numbers of
// specs/Entries.antt.

// "An entry is a length word (the whole entry), a kind word, a body."
pub const ENTRY_KIND: usize = 2;

pub const ENTRY_BODY: usize = 4;

// Kinds: of a dictionary 1 and 2, of a record 3.
pub const RELATION_ENTRY: u32 = 1;

pub const FIELD_ENTRY: u32 = 2;

pub const RECORD_ENTRY: u32 = 3;

// "The listing program reads an entry of kind 4 (dictionary), then kind 5 (request)"
pub const DICTIONARY_ENTRY: u32 = 4;

pub const REQUEST_ENTRY: u32 = 5;

// "each run wrapped in an entry of kind 7"
pub const RUN_ENTRY: u32 = 7;

// The program `evaluate` also reads the number of a boolean, and message bytes.
pub const NUMBER_ENTRY: u32 = 9;

pub const MESSAGE_ENTRY: u32 = 10;

// The body of kinds 1, 2 and 3 starts with an id word.
pub const ENTRY_ID: usize = 4;

// "Kind 1: relation id word, counted name."
pub const RELATION_NAME: usize = 6;

// "Kind 2 ..: id word .., type byte, scale byte, size word .., counted name."
pub const FIELD_TYPE: usize = 6;

pub const FIELD_SCALE: usize = 7;

pub const FIELD_SIZE: usize = 8;

pub const FIELD_NAME: usize = 10;

// "Kind 3 is a record: relation id word, one missing bit a field .., then the fields packed."
pub const RECORD_BITS: usize = 6;
