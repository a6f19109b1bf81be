// The codes of lines, by name. Any other code may stand in a line, and no listing with it is sound.
// Kept as numbers and no enum: lent memory may hold any byte as a code, and the checker goes by ranges of codes.

// types
pub const TYPE_TOP: u8 = 10;

pub const TYPE_VAR: u8 = 11;

pub const TYPE_ARROW: u8 = 12;

pub const TYPE_ALL: u8 = 13;

pub const TYPE_REC: u8 = 14;

// terms
pub const TERM_TOP: u8 = 20;

pub const TERM_VAR: u8 = 21;

pub const TERM_FUN: u8 = 22;

pub const TERM_APPL: u8 = 23;

pub const TERM_FUN2: u8 = 24;

pub const TERM_APPL2: u8 = 25;

pub const TERM_FOLD: u8 = 26;

pub const TERM_UNFOLD: u8 = 27;

pub const TERM_REC: u8 = 28;

// environments
pub const ENV_EMPTY: u8 = 30;

pub const ENV_TERM: u8 = 31;

pub const ENV_TYPE: u8 = 32;

// what is computed of types and environments
pub const RAISE: u8 = 40;

pub const PUT: u8 = 41;

pub const BOUND: u8 = 42;

pub const TYPING: u8 = 43;

// the judgments
pub const IS_ENV: u8 = 50;

pub const IS_TYPE: u8 = 51;

pub const SUB_REFL: u8 = 60;

pub const SUB_TRANS: u8 = 61;

pub const SUB_VAR: u8 = 62;

pub const SUB_TOP: u8 = 63;

pub const SUB_ARROW: u8 = 64;

pub const SUB_ALL_EQUAL: u8 = 65;

pub const SUB_ALL_LEAST: u8 = 66;

pub const HAS_SUBSUMED: u8 = 70;

pub const HAS_VAR: u8 = 71;

pub const HAS_TOP: u8 = 72;

pub const HAS_FUN: u8 = 73;

pub const HAS_APPL: u8 = 74;

pub const HAS_FUN2: u8 = 75;

pub const HAS_APPL2: u8 = 76;

pub const HAS_FOLD: u8 = 77;

pub const HAS_UNFOLD: u8 = 78;

pub const HAS_REC: u8 = 79;

// names and definitions
pub const NAME: u8 = 90;

pub const LET_TYPE: u8 = 91;

pub const LET_TERM: u8 = 92;
