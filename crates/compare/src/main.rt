// The program `compare` (01, "Sample pairs"): both sides attack, and the verdict is EQUAL or DIFFER.
#![tactic(auto)]

use fra::Game;
use std::io;

fn main(rt: HostRuntime) -> io::Result<()> {
    comparing::run(&rt, Game::BothAttack)
}
