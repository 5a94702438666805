// The table's entries and the records of a certificate (01, "Verdict, table, certificate"): widths, kind bytes, and where fields
// stand.
use crate::Verdict;
use fra::Position;

// The bytes of a number of rounds.
pub const WORD: usize = 4;

// An entry of the table, the place of its rounds, and the rounds of a position that is never lost.
pub const ENTRY_ROUNDS: usize = Position::WIDTH;

pub const ENTRY: usize = ENTRY_ROUNDS + WORD;

pub const NEVER: u32 = 4294967295;

// A record's fields, counted from its kind byte. Those past the position are of lost positions alone.
pub const POSITION: usize = 1;

pub const SIDE: usize = POSITION + Position::WIDTH;

pub const EDGE: usize = SIDE + 1;

pub const CASE: usize = EDGE + 1;

pub const ROUNDS: usize = CASE + 1;

// Records of positions that are never lost, and of positions that are lost.
pub const KEPT_WIDTH: usize = SIDE;

pub const LOST_WIDTH: usize = ROUNDS + WORD;

// The kinds of records, by the verdict: the numbers at its variants.
pub const EQUAL_KIND: u8 = Verdict::Equal as u8;

pub const DIFFER_KIND: u8 = Verdict::Differ as u8;

pub const FOLLOWS_KIND: u8 = Verdict::Follows as u8;

pub const FALLS_SHORT_KIND: u8 = Verdict::FallsShort as u8;
