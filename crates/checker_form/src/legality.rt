// Which positions are legal.
ghost use Rattle.std.specs.Prelude.{◌≡◌, not, ◌&&◌, ◌||◌, eqb};
ghost use Rattle.fra.specs.Lists.{any};
ghost use Rattle.fra.specs.Registers.{has};
ghost use Rattle.fra.specs.Position.{matching, legal};
ghost use Rattle.game_index.specs.Reading.{task_in};

use fra::{Model, Position, Side, has};
use game_index::layout::SIZE;

// The partner x of left register i is none, or both are in their sets and no later left register has it.
fn partner_fits(left: u8, right: u8, i: u8, x: u8, later: &[u8]) -> bool
    ensures { result ≡ (eqb x 0 || (has left i && has right x && not (any (eqb x) later.now))) }
{
    x == 0 || (has(left, i) && has(right, x) && !later.contains(&x))
}

// The partners join registers of the two sets, and no right register is used twice.
fn matching(left: u8, right: u8, partners: &[u8; 6]) -> bool
    ensures { result ≡ matching left right 1 partners.now }
{
    for i in 0..Model::REGISTERS {
        let k = i as usize;
        if !partner_fits(left, right, i + 1, partners[k], &partners[k + 1..]) {
            return false;
        }
    }
    true
}

// The states exist, the partners are a matching of their register sets, and the history's size is neither too small for the numbers
// held together nor above the greatest.
pub fn legal(index: &[u8; SIZE], p: Position) -> bool
    ensures { result ≡ legal 6 (task_in index.now) p }
{
    if game_index::state_count(index, Side::Left) <= p.left {
        return false;
    }
    if game_index::state_count(index, Side::Right) <= p.right {
        return false;
    }
    let left = game_index::set_of(index, Side::Left, p.left);
    let right = game_index::set_of(index, Side::Right, p.right);
    if !matching(left, right, &p.partners) {
        return false;
    }
    (p.held(left, right) <= p.history) & (p.history <= Position::MOST_SEEN)
}
