// Fresh-register automata (01, "A reader model" and "Positions and rounds"): the types that every other crate speaks in.
#![tactic(auto)]

ghost use Rattle.std.specs.Prelude.{◌≡◌, length};
ghost use Rattle.fra.specs.Registers.{has};
ghost use Rattle.fra.specs.Model.{register_of, kind_number, kind_of, is_known, is_locally_fresh, is_fresh};
ghost use Rattle.fra.specs.Rules.{other, is_left, rules_of, game_number, game_of};
ghost use Rattle.fra.specs.Position.{unmatched, state_of, right_partner, left_partner, partner, is_unshared, held_in};
ghost use Rattle.fra.specs.Game.{size_after};
ghost use Rattle.fra.specs.AttackNumbers.{side_number, side_of, case_number, case_of};

// What an edge takes, with the register that it reads or writes.
#[derive(Clone, Copy, Debug, PartialEq, Eq)]
pub enum EdgeKind {
    // exactly the number in the register
    Known(u8),
    // any number that this reader does not hold; it is stored in the register
    LocallyFresh(u8),
    // a number that is not in the history; it is stored in the register
    GloballyFresh(u8),
}

impl EdgeKind {
    // The kind with this number, of this register: two numbers, so no From.
    pub fn of(number: u8, register: u8) -> Self
        ensures { result ≡ kind_of number register }
    {
        match number {
            0 => EdgeKind::Known(register),
            1 => EdgeKind::LocallyFresh(register),
            _ => EdgeKind::GloballyFresh(register),
        }
    }

    // The number of the kind. It leaves the register out, so it is no conversion and no From.
    pub fn number(self) -> u8
        ensures { result ≡ kind_number self }
    {
        match self {
            EdgeKind::Known(_) => 0,
            EdgeKind::LocallyFresh(_) => 1,
            EdgeKind::GloballyFresh(_) => 2,
        }
    }

    // The register that the edge reads or writes.
    pub fn register(self) -> u8
        ensures { result ≡ register_of self }
    {
        match self {
            EdgeKind::Known(i) | EdgeKind::LocallyFresh(i) | EdgeKind::GloballyFresh(i) => i,
        }
    }

    // A known edge of register j.
    pub fn is_known(self, j: u8) -> bool
        ensures { result ≡ is_known j self }
    {
        self == EdgeKind::Known(j)
    }

    pub fn is_locally_fresh(self) -> bool
        ensures { result ≡ is_locally_fresh self }
    {
        matches!(self, EdgeKind::LocallyFresh(_))
    }

    pub fn is_fresh(self) -> bool
        ensures { result ≡ is_fresh self }
    {
        matches!(self, EdgeKind::LocallyFresh(_) | EdgeKind::GloballyFresh(_))
    }
}

// A transition.
#[derive(Clone, Copy, Debug, PartialEq, Eq)]
pub struct Edge {
    pub from: u8,
    pub tag: u8,
    pub kind: EdgeKind,
    pub to: u8,
}

// The registers that are filled in a state (bit 0 is register 1), and its end mark.
#[derive(Clone, Copy, Debug, PartialEq, Eq)]
pub struct State {
    pub set: u8,
    pub mark: u8,
}

// The registers that a set of one byte has a bit for.
const BITS: u8 = 8;

// The register is in the set.
pub fn has(set: u8, i: u8) -> bool
    ensures { result ≡ has set i }
{
    if i == 0 {
        return false;
    }
    if BITS < i {
        return false;
    }
    (set >> (i - 1)) % 2 == 1
}

// A fresh-register automaton. States and edges past their counts are zeros: 01 has arrays by value, with their counts.
#[derive(Clone, Copy, Debug, PartialEq, Eq)]
pub struct Model {
    pub registers: u8,
    pub start: u8,
    pub state_count: u8,
    pub edge_count: u8,
    pub states: [State; 16],
    pub edges: [Edge; 64],
}

impl Model {
    // The greatest counts that a task file may state.
    pub const REGISTERS: u8 = 6;

    pub const STATES: u8 = 16;

    pub const EDGES: u8 = 64;

    pub const TAGS: u8 = 32;
    // What stands in the places past the counts.
    pub const NO_STATE: State = State { set: 0, mark: 0 };

    pub const NO_EDGE: Edge = Edge {
        from: 0,
        tag: 0,
        kind: EdgeKind::Known(0),
        to: 0,
    };
}

// A pair of symbolic configurations: two states, for each left register the right register that holds the same number, 0 for
// none, and the history's size.
#[derive(Clone, Copy, Debug, PartialEq, Eq)]
pub struct Position {
    pub left: u8,
    pub right: u8,
    pub partners: [u8; 6],
    pub history: u8,
}

impl Position {
    // The bytes of a position: its two states, its partners and the history's size.
    pub const WIDTH: usize = (Model::REGISTERS as usize) + 3;

    // The empty matching: no register has a partner.
    pub const EMPTY: [u8; 6] = [0; 6];

    // The greatest size of a history, which stands for any larger one: one number more than two readers can hold.
    pub const MOST_SEEN: u8 = 2 * Model::REGISTERS + 1;

    // The position of two states under the empty matching, with a history of the greatest size.
    pub fn unmatched(left: u8, right: u8) -> Self
        ensures { result ≡ unmatched 6 left right }
    {
        Position {
            left,
            right,
            partners: Position::EMPTY,
            history: Position::MOST_SEEN,
        }
    }

    // A side's state.
    pub fn state(self, side: Side) -> u8
        ensures { result ≡ state_of self side }
    {
        match side {
            Side::Left => self.left,
            Side::Right => self.right,
        }
    }

    // The register of the other side with the same number as register i of this side; 0 for none.
    pub fn partner(self, side: Side, i: u8) -> u8
        ensures { result ≡ partner self side i }
    {
        match side {
            Side::Left => right_partner(&self.partners, i),
            Side::Right => left_partner(&self.partners, i),
        }
    }

    // How many numbers the two readers hold together, where their states have these register sets: a shared one counts once.
    pub fn held(self, left: u8, right: u8) -> u8
        ensures { result ≡ held_in left right self.partners }
    {
        let mut held = 0;
        for counted in 0..Model::REGISTERS {
            let register = counted + 1;
            held += u8::from(has(left, register))
                + u8::from(unshared(&self.partners, right, register));
        }
        held
    }
}

// The partner of left register i.
pub fn right_partner(partners: &[u8], i: u8) -> u8
    requires { length partners.now ≡ 6 }
    ensures { result ≡ right_partner partners.now i }
{
    if i == 0 {
        return 0;
    }
    partners.get((i - 1) as usize).copied().unwrap_or(0)
}

// The left register whose partner is right register j.
pub fn left_partner(partners: &[u8], j: u8) -> u8
    requires { length partners.now ≡ 6 }
    ensures { result ≡ left_partner 1 partners.now j }
{
    for i in 0..Model::REGISTERS {
        if partners[i as usize] == j {
            return i + 1;
        }
    }
    0
}

// Right register j is in the set and no left register holds its number.
fn unshared(partners: &[u8; 6], right: u8, j: u8) -> bool
    ensures { result ≡ is_unshared right partners.now j }
{
    has(right, j) & (left_partner(partners, j) == 0)
}

// Two models, and the position that a comparison starts from. Its history's size may be stated in the task's file; it is the
// greatest where it is not, so it is there either way and the flag beside it is no Option.
#[derive(Clone, Copy, Debug, PartialEq, Eq)]
pub struct Task {
    pub left: Model,
    pub right: Model,
    pub start: Position,
    pub history_stated: bool,
}

#[derive(Clone, Copy, Debug, PartialEq, Eq)]
pub enum Side {
    Left = 1,
    Right = 2,
}

impl Side {
    pub fn other(self) -> Self
        ensures { result ≡ other self }
    {
        match self {
            Side::Left => Side::Right,
            Side::Right => Side::Left,
        }
    }

    pub fn is_left(self) -> bool
        ensures { result ≡ is_left self }
    {
        self == Side::Left
    }

    // The side with this number, if one has it.
    pub fn of(number: u8) -> Option<Side>
        ensures { result ≡ side_of number }
    {
        match number {
            1 => Some(Side::Left),
            2 => Some(Side::Right),
            _ => None,
        }
    }
}

// A side's number in an attack (01).
impl From<Side> for u8 {
    ghost from_gives = { λ side number. number ≡ side_number side };

    fn from(side: Side) -> u8 {
        side as u8
    }
}

// Which game is played: who attacks, and which end marks lose at once.
#[derive(Clone, Copy, Debug, PartialEq, Eq)]
pub enum Game {
    // bisimulation
    BothAttack,
    // simulation of the left model by the right one
    LeftAttacks,
}

impl Game {
    // The side attacks.
    pub fn attacks(self, side: Side) -> bool
        ensures { result ≡ (rules_of self).attacks side }
    {
        match self {
            Game::BothAttack => true,
            Game::LeftAttacks => side.is_left(),
        }
    }

    // These end marks lose at once.
    pub fn loses(self, left: u8, right: u8) -> bool
        ensures { result ≡ (rules_of self).lost left right }
    {
        match self {
            Game::BothAttack => left != right,
            Game::LeftAttacks => (left == 1) & (right == 0),
        }
    }
}

// The game as one number, and back.
impl From<Game> for u8 {
    ghost from_gives = { λ game number. number ≡ game_number game };

    fn from(game: Game) -> u8 {
        game as u8
    }
}

impl From<u8> for Game {
    ghost from_gives = { λ number game. game ≡ game_of number };

    fn from(number: u8) -> Game {
        match number {
            0 => Game::BothAttack,
            _ => Game::LeftAttacks,
        }
    }
}

// Where the number of an attack stands before the round (01: the id case).
#[derive(Clone, Copy, Debug, PartialEq, Eq)]
pub enum IdCase {
    // case 0: in the register of a known edge
    Held,
    // cases 1 to 6: in this register of the other side, and in none of the attacker's
    Private(u8),
    // case 7: in the history, and in no register
    Seen,
    // case 8: nowhere
    New,
}

impl IdCase {
    // The size of the history after a round with such a number, where it was this before.
    pub fn history_after(self, size: u8) -> u8
        ensures { result ≡ size_after 6 self size }
    {
        match self {
            IdCase::Held | IdCase::Private(_) | IdCase::Seen => size,
            IdCase::New => {
                if size < Position::MOST_SEEN {
                    size + 1
                } else {
                    size
                }
            }
        }
    }

    // The case with this number, if one has it.
    pub fn of(number: u8) -> Option<IdCase>
        ensures { result ≡ case_of 6 number }
    {
        match number {
            0 => Some(IdCase::Held),
            1..=6 => Some(IdCase::Private(number)),
            7 => Some(IdCase::Seen),
            8 => Some(IdCase::New),
            _ => None, // there is no ninth case
        }
    }
}

// The number of a case.
impl From<IdCase> for u8 {
    ghost from_gives = { λ case number. number ≡ case_number 6 case };

    fn from(case: IdCase) -> u8 {
        match case {
            IdCase::Held => 0,
            IdCase::Private(j) => j,
            IdCase::Seen => Model::REGISTERS + 1,
            IdCase::New => Model::REGISTERS + 2,
        }
    }
}

// A challenge: one side takes one of its edges.
#[derive(Clone, Copy, Debug, PartialEq, Eq)]
pub struct Attack {
    pub side: Side,
    pub edge: u8,
    pub case: IdCase,
}
