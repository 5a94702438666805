// One register set inside another.
ghost use Rattle.std.specs.Prelude.{◌≡◌, not, ◌||◌};
ghost use Rattle.fra.specs.Registers.{has, inside, with};

use fra::has;

// The register is not in `set`, or is in `other` or is `added`.
#[tactic(auto, unfolding(fra::specs::Registers::with))]
fn kept(set: u8, other: u8, added: u8, register: u8) -> bool
    ensures { result ≡ (not (has set register) || with other added register) }
{
    !has(set, register) || has(other, register) || added == register
}

// Each register of `set`, judged on registers 1 to `registers`, is in `other` or is `added`. Register 0 adds nothing.
pub fn inside(registers: u8, set: u8, other: u8, added: u8) -> bool
    ensures { result ≡ inside registers set (with other added) }
{
    for i in 1..=registers {
        if !kept(set, other, added, i) {
            return false;
        }
    }
    true
}
