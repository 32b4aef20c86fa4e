// The numbers answered, under the names of specs/rules/Numbers.antt (document 01, "Numbers answered").
// They stay numbers beside the enum `Refusal`: the public answers and the functions for C hold a number, and `OK` is no refusal.
pub const OK: u32 = 0;

pub const TEXT_TOO_LONG: u32 = 1;

pub const NOT_UTF8: u32 = 2;

pub const FORBIDDEN_CHARACTER: u32 = 3;

pub const BAD_STRING: u32 = 4;

pub const UNPAIRED_BRACKET: u32 = 5;

pub const TOO_DEEP: u32 = 6;

pub const NOT_ONE_EXPRESSION: u32 = 7;

pub const NOT_ALLOWED: u32 = 8;

pub const ABSENT: u32 = 9;

pub const MALFORMED: u32 = 10;

pub const OTHER_SORT: u32 = 11;

pub const INCLUDE: u32 = 12;

pub const NODES_SHORT: u32 = 13;

pub const POOL_SHORT: u32 = 14;

pub const ROW_LENGTH: u32 = 15;

pub const REPEATED_ID: u32 = 16;

pub const UNKNOWN_TARGET: u32 = 17;

pub const UNKNOWN_FOOTNOTE: u32 = 18;

pub const NESTED_TOO_DEEP: u32 = 19;

pub const NOT_A_TABLE: u32 = 20;

pub const OUTPUT_SHORT: u32 = 21;
