// What a round leads to, and the size of the history before and after it.
ghost use Rattle.std.specs.Prelude.{◌≡◌, ltb};
ghost use Rattle.fra.specs.Position.{held_in};
ghost use Rattle.fra.specs.Game.{rejoined, remaining};
ghost use Rattle.game_moves.specs.AfterRound.{moved_to};
ghost use Rattle.game_moves.specs.HistorySizes.{first_size, both_locally_fresh};

use fra::{EdgeKind, IdCase, Model, Position, has};

// Where an edge leads: the register that holds the number taken, the to state and its register set.
#[derive(Clone, Copy, Debug, PartialEq, Eq)]
pub struct Target {
    pub register: u8,
    pub state: u8,
    pub set: u8,
}

// The partner of left register i, which had partner x, once left register a and right register b hold the number taken.
pub fn rejoined(a: u8, b: u8, i: u8, x: u8) -> u8
    ensures { result ≡ rejoined a b i x }
{
    if i == a {
        return b;
    }
    if x == b { 0 } else { x }
}

// The partner x of left register i, if both are in the to sets. Both tests are made: a jump on the first would be guessed wrong
// too often.
fn remaining(left: u8, right: u8, i: u8, x: u8) -> u8
    ensures { result ≡ remaining left right i x }
{
    let kept = has(left, i) & has(right, x);
    u8::from(kept) * x
}

// The position after a left and a right edge have taken one number, where the history then has this size.
pub fn moved(p: Position, size: u8, left: Target, right: Target) -> Position
    ensures { result ≡ moved_to p size left right }
{
    let mut partners = Position::EMPTY;
    for i in 0..Model::REGISTERS {
        let x = rejoined(left.register, right.register, i + 1, p.partners[i as usize]);
        partners[i as usize] = remaining(left.set, right.set, i + 1, x);
    }
    Position {
        left: left.state,
        right: right.state,
        partners,
        history: size,
    }
}

// The history has a number that neither reader holds, where their states have these register sets. At its greatest size it has
// more numbers than two readers can hold, so none is counted.
pub fn has_room(p: Position, left: u8, right: u8) -> bool
    ensures { result ≡ ltb (held_in left right p.partners) p.history }
{
    if Position::MOST_SEEN <= p.history {
        return true;
    }
    p.held(left, right) < p.history
}

// The size of the history after edges of these kinds have taken one number, a new one if both are fresh.
pub fn size_after(left: EdgeKind, right: EdgeKind, size: u8) -> u8
    ensures { result ≡ first_size 6 size left right }
{
    if left.is_fresh() & right.is_fresh() {
        let new = IdCase::New;
        return new.history_after(size);
    }
    size
}

// Edges of these kinds can take a number that neither reader holds and that was seen before: the size then stays as it is.
pub fn also_seen(left: EdgeKind, right: EdgeKind) -> bool
    ensures { result ≡ both_locally_fresh left right }
{
    left.is_locally_fresh() & right.is_locally_fresh()
}
