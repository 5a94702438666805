// Where the parts of an index stand. The left side's bytes come first, then the right side's, the start and its history, the game.
// A side's bytes are its counts, its states, its edges, and the first edge of each code, by which a state's edges of a tag and a
// kind are a range.
use fra::{Model, Position};

// A side begins with two bytes, its registers and its start state, and the counts of its states and edges.
pub const REGISTER_COUNT: usize = 0;

pub const STATE_COUNT: usize = 2;

pub const EDGE_COUNT: usize = 3;

// The states of a side, two bytes each: register set, end mark.
pub const STATES: usize = 4;

pub const STATE: usize = 2;

pub const MARK: usize = 1;

// The edges of a side, eight bytes each: the first five are an edge's record, the others say the register set of the to state and
// whether the edge drops a register; the last is spare.
pub const EDGES: usize = STATES + (Model::STATES as usize) * STATE;

pub const EDGE: usize = 8;

pub const TAG: usize = 1;

pub const KIND: usize = 2;

pub const REGISTER: usize = 3;

pub const TO: usize = 4;

pub const TO_SET: usize = 5;

pub const DROPS: usize = 6;

// An edge's code counts its state, tag and kind, of which there is room for four. Codes rise with the edges.
pub const KINDS: usize = 4;

pub const TAGGED: usize = (Model::TAGS as usize) * KINDS;

pub const CODES: usize = (Model::STATES as usize) * TAGGED;

// For each code, and for the one past them, the first edge whose code is not below it.
pub const FIRSTS: usize = EDGES + (Model::EDGES as usize) * EDGE;

pub const SIDE: usize = FIRSTS + CODES + 1;

// The start's position: its two states, its partners and the history's size.
pub const START: usize = SIDE * 2;

pub const PARTNERS: usize = START + 2;

pub const HISTORY: usize = PARTNERS + (Model::REGISTERS as usize);

// 1 if the task states that size, else 0; and the game's number.
pub const STATED: usize = START + Position::WIDTH;

pub const GAME: usize = STATED + 1;

pub const SIZE: usize = GAME + 1;
