// The program `compare_one_way` (02, ticket 1): only the left side attacks, and the verdict is FOLLOWS or FALLS SHORT.
#![tactic(auto)]

use fra::Game;
use std::io;

fn main(rt: HostRuntime) -> io::Result<()> {
    comparing::run(&rt, Game::LeftAttacks)
}
