// Sets of pairs of a left and a right state, with a byte for each pair that is not 0 for a member.
#![tactic(auto)]

ghost use Rattle.std.specs.Prelude.{◌<◌, ◌≡◌};
ghost use Rattle.game_state_pairs.specs.StatePairs.{pair_places, pair_of, has_pair, with_pair};

use fra::Model;

const STATES: usize = Model::STATES as usize;

// The bytes of a set.
pub const SIZE: usize = STATES * STATES;

// The set of all pairs.
pub const ALL: [u8; SIZE] = [1; SIZE];

// The place of a pair's byte. A valid task has at most 16 states a side, so each pair has its own.
fn place(left: u8, right: u8) -> usize
    ensures { (result ≡ pair_of left right) × (result < pair_places) }
{
    (usize::from(left) * STATES + usize::from(right)) % SIZE
}

pub fn has(pairs: &[u8; SIZE], left: u8, right: u8) -> bool
    ensures { result ≡ has_pair pairs.now left right }
{
    pairs[place(left, right)] != 0
}

pub fn add(pairs: &mut [u8; SIZE], left: u8, right: u8)
    ensures { pairs.new ≡ with_pair pairs.old left right }
{
    pairs[place(left, right)] = 1;
}
