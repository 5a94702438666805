// The task file (01, "The task file" and "Turned back, in checking order"): bytes in, two models, a matching and the
// history's size or a refusal out.
#![tactic(auto)]

ghost use Rattle.std.specs.Prelude.{◌≡◌};
ghost use Rattle.task.specs.Refusals.{number_of};
ghost use Rattle.task.specs.TaskFile.{record_kind, body_length};

use fra::{Side, Task};

// Why a task, or what is asked of it, is turned back: 01, "Turned back, in checking order", and 15 of 02.
#[derive(Clone, Copy, Debug, PartialEq, Eq)]
pub enum Refusal {
    // "The kind byte is not 1, 2, 3, 4 or 15." Since 02 it may be 5, too.
    UnknownKind = 1,
    // "The file ends inside a body or without an end record."
    CutShort = 2,
    // "The record is not allowed at this place."
    Misplaced = 3,
    // "A header has more than 6 registers, 0 or more than 16 states, or a start state that does not exist."
    BadHeader = 4,
    // "A state has not the next number, has a set bit of a register that does not exist, or an end mark above 1."
    BadState = 5,
    // "An edge has a state, tag, kind or register that does not exist."
    BadEdge = 6,
    // "An edge breaks its kind's register rule."
    BrokenRule = 7,
    // "An edge is not above the one before it in its model."
    EdgesNotRising = 8,
    // "An edge is its model's 65th."
    TooManyEdges = 9,
    // "A pair has a register outside a start state's set, does not rise, or reuses a right register."
    BadPair = 10,
    // "The positions reached outnumber the table's entries."
    TableTooSmall = 11,
    // "The certificate is longer than its buffer."
    BufferTooSmall = 12,
    // "A proposed certificate has an unknown kind, two kinds, a cut body, an illegal position, or does not rise strictly by
    // position."
    Malformed = 13,
    // "The proposed certificate is well formed and not accepted."
    NotAccepted = 14,
    // "the size is above 13 or less than the numbers held together at the start"
    BadHistory = 15,
}

impl From<Refusal> for u8 {
    ghost from_gives = { λ refusal n. n ≡ number_of refusal };

    fn from(refusal: Refusal) -> u8 {
        refusal as u8
    }
}

// The kinds of record.
#[derive(Clone, Copy, Debug, PartialEq, Eq)]
pub enum Kind {
    Header,
    State,
    Edge,
    Pair,
    History,
    End,
}

impl TryFrom<u8> for Kind {
    type Error = Refusal;

    ghost try_from_gives = { λ byte kind. kind ≡ record_kind byte };

    fn try_from(byte: u8) -> Result<Self, Refusal> {
        match byte {
            1 => Ok(Kind::Header),
            2 => Ok(Kind::State),
            3 => Ok(Kind::Edge),
            4 => Ok(Kind::Pair),
            5 => Ok(Kind::History),
            15 => Ok(Kind::End),
            _ => Err(Refusal::UnknownKind),
        }
    }
}

impl Kind {
    // The bytes of a record's body.
    pub fn body_length(self) -> usize
        ensures { result ≡ body_length self }
    {
        match self {
            Kind::Header => 3,
            Kind::State => 3,
            Kind::Edge => 5,
            Kind::Pair => 2,
            Kind::History => 1,
            Kind::End => 0,
        }
    }
}

// What is due after the records read so far.
#[derive(Clone, Copy, Debug, PartialEq, Eq)]
pub enum Stage {
    // the left header
    Start,
    // the state of this side with this number
    States(Side, u8),
    // an edge of this side, or what follows its model
    Edges(Side),
    // a pair, the history's size or the end
    Pairs,
    // the end, since the history's size is read
    Sized,
    // nothing
    Ended,
}

// The task as far as it is read.
#[derive(Clone, Copy, Debug, PartialEq, Eq)]
pub struct Progress {
    pub stage: Stage,
    pub task: Task,
}
