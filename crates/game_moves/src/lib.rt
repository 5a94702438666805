// The leaves of every walk through the game: the position after a round, the size of the history, the id cases of an attack.
#![tactic(auto)]

pub mod cases;
pub mod rounds;
