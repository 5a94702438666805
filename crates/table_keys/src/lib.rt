// A position as one number, its key. Keys are sized to the task: there are no more than its states, registers and history sizes
// ask for, so a key can be the place of a bit.
#![tactic(auto)]

ghost use Rattle.std.specs.Prelude.{◌<◌, ◌≡◌};
ghost use Rattle.game_index.specs.Reading.{task_in};
ghost use Rattle.table_keys.specs.Keys.{sizes_of, key_of, key_count, position_from, radix_of, Sized, Fits};

use fra::{Position, Side};
use game_index::layout::SIZE;
use game_index::{register_count, start, state_count};

// The base of the digits that are partners.
pub const PARTNER_BASE: u32 = 8;

// What the digits of a key are sized by: the states of either side, the left registers, and the least size of the history.
#[derive(Clone, Copy)]
pub struct Radix {
    pub left: u8,
    pub right: u8,
    pub registers: u8,
    pub least: u8,
}

impl Radix {
    // The radix of the task in an index. A history's size does not fall, so the start's is the least.
    pub fn of(index: &[u8; SIZE]) -> Self
        ensures { result ≡ radix_of (task_in index.now) }
    {
        let start = start(index);
        Radix {
            left: state_count(index, Side::Left),
            right: state_count(index, Side::Right),
            registers: register_count(index, Side::Left),
            least: start.history,
        }
    }

    // How many sizes a history can have.
    pub fn sizes(self) -> u32
        requires { Sized self }
        ensures { result ≡ sizes_of self }
    {
        (Position::MOST_SEEN + 1 - self.least) as u32
    }

    // How many keys there are.
    pub fn key_count(self) -> u32
        requires { Sized self }
        ensures { result ≡ key_count self }
    {
        let states = (self.left as u32) * (self.right as u32);
        states * PARTNER_BASE.pow(self.registers as u32) * self.sizes()
    }
}

// The key of a position.
pub fn key(radix: Radix, p: Position) -> u32
    requires { Sized radix × Fits radix p }
    ensures { result ≡ key_of radix p }
{
    let mut front = (p.left as u32) * (radix.right as u32) + (p.right as u32);
    for x in &p.partners[..radix.registers as usize] {
        front = front * PARTNER_BASE + (*x as u32);
    }
    front * radix.sizes() + ((p.history - radix.least) as u32)
}

// The position that a key packs: its digits are divided out, the last one first.
pub fn position(radix: Radix, key: u32) -> Position
    requires { Sized radix × (key < key_count radix) }
    ensures { result ≡ position_from radix key }
{
    let sizes = radix.sizes();
    let mut partners = Position::EMPTY;
    let mut front = key / sizes;
    for i in (0..radix.registers).rev() {
        partners[i as usize] = (front % PARTNER_BASE) as u8;
        front /= PARTNER_BASE;
    }
    let right = radix.right as u32;
    Position {
        left: (front / right) as u8,
        right: (front % right) as u8,
        partners,
        history: radix.least + ((key % sizes) as u8),
    }
}
