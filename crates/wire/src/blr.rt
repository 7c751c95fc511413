// The codes of document 01 by their names in blr.h: `blr_assignment` there is `ASSIGNMENT` here. They are the numbers of specs/Codes.antt.
// A number may stand for several things, each at its own kind of place.

// Version and ends.
pub const VERSION4: u8 = 4;

// 02, No. 8: "Version 5 beside version 4."
pub const VERSION5: u8 = 5;

pub const EOC: u8 = 76;

pub const END: u8 = 255;

// Messages and statements.
pub const ASSIGNMENT: u8 = 1;

pub const BEGIN: u8 = 2;

pub const MESSAGE: u8 = 4;

pub const ERASE: u8 = 5;

pub const FOR: u8 = 7;

pub const IF: u8 = 8;

pub const LOOP: u8 = 9;

pub const MODIFY: u8 = 10;

pub const HANDLER: u8 = 11;

pub const RECEIVE: u8 = 12;

pub const SELECT: u8 = 13;

pub const SEND: u8 = 14;

pub const STORE: u8 = 15;

pub const LABEL: u8 = 17;

pub const LEAVE: u8 = 18;

// Statements left out.
pub const DCL_VARIABLE: u8 = 3;

pub const FETCH: u8 = 6;

pub const STORE2: u8 = 19;

pub const POST: u8 = 20;

// Values.
pub const LITERAL: u8 = 21;

pub const FIELD: u8 = 23;

pub const FID: u8 = 24;

pub const PARAMETER: u8 = 25;

pub const ADD: u8 = 34;

pub const SUBTRACT: u8 = 35;

pub const MULTIPLY: u8 = 36;

pub const DIVIDE: u8 = 37;

pub const NEGATE: u8 = 38;

pub const PARAMETER2: u8 = 41;

pub const AVERAGE: u8 = 27;

pub const COUNT: u8 = 28;

pub const MAXIMUM: u8 = 29;

pub const MINIMUM: u8 = 30;

pub const TOTAL: u8 = 31;

// Values left out.
pub const DBKEY: u8 = 22;

pub const VARIABLE: u8 = 26;

pub const CONCATENATE: u8 = 39;

pub const SUBSTRING: u8 = 40;

pub const FROM: u8 = 42;

pub const VIA: u8 = 43;

pub const USER_NAME: u8 = 44;

pub const NULL: u8 = 45;

// Booleans.
pub const EQL: u8 = 47;

pub const NEQ: u8 = 48;

pub const GTR: u8 = 49;

pub const GEQ: u8 = 50;

pub const LSS: u8 = 51;

pub const LEQ: u8 = 52;

pub const CONTAINING: u8 = 53;

pub const MATCHING: u8 = 54;

pub const STARTING: u8 = 55;

pub const BETWEEN: u8 = 56;

pub const OR: u8 = 57;

pub const AND: u8 = 58;

pub const NOT: u8 = 59;

pub const ANY: u8 = 60;

pub const MISSING: u8 = 61;

pub const UNIQUE: u8 = 62;

// Booleans left out.
pub const LIKE: u8 = 63;

// Rses, clauses and streams.
pub const RSE: u8 = 67;

pub const SORT: u8 = 70;

pub const BOOLEAN: u8 = 71;

pub const ASCENDING: u8 = 72;

pub const DESCENDING: u8 = 73;

pub const RELATION: u8 = 74;

pub const RID: u8 = 75;

// Clauses and streams left out.
pub const FIRST: u8 = 68;

pub const PROJECT: u8 = 69;

pub const UNION: u8 = 76;

pub const AGGREGATE: u8 = 79;

// Types.
pub const SHORT: u8 = 7;

pub const LONG: u8 = 8;

// 02, No. 8: "type 16, a 64-bit integer of 8 bytes".
pub const INT64: u8 = 16;

pub const TEXT: u8 = 14;

pub const DATE: u8 = 35;

pub const VARYING: u8 = 37;

pub const CSTRING: u8 = 40;

// Types left out.
pub const QUAD: u8 = 9;

pub const FLOAT: u8 = 10;

pub const D_FLOAT: u8 = 11;

pub const DOUBLE: u8 = 27;

// 01: "Type 200 is a house reading".
pub const HOUSE_READING: u8 = 200;
