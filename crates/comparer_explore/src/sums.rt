// The partners of a position as numbers, by which a key after a round is made without going through the registers: where no
// register is dropped, a round changes the digit of the register that is written, and takes the right register's pair out.
ghost use Rattle.std.specs.Prelude.{◌≤◌, ◌≡◌};
ghost use Rattle.table_keys.specs.Keys.{Sized, Fits};
ghost use Rattle.comparer_explore_laws.specs.PartnerSums.{place_of};
ghost use Rattle.comparer_explore.specs.Sums.{SumsOf, RestOf};

use fra::Position;
use table_keys::{PARTNER_BASE, Radix};

// A digit that is a partner has so many bits.
const PARTNER_BITS: u8 = 3;

// Of a position: its partners as one number, and for each right register what its pair adds to that.
#[derive(Clone, Copy)]
pub struct Sums {
    pub word: u32,
    pub adds: [u32; 8],
}

// Of a position and a left register that is written: the number without its partner, what a partner counts there, and for each
// right register what its pair with another register adds.
#[derive(Clone, Copy)]
pub struct Rest {
    pub word: u32,
    pub place: u32,
    pub adds: [u32; 8],
}

// What a partner counts that so many others follow.
pub fn place_of(others: u8) -> u32
    requires { others ≤ 6 }
    ensures { result ≡ place_of others }
{
    1 << (PARTNER_BITS * others)
}

impl Sums {
    // They are made once for a position, the last register first.
    pub fn of(radix: Radix, p: Position) -> Self
        requires { Sized radix × Fits radix p }
        ensures { SumsOf radix p result }
    {
        let mut adds: [u32; 8] = [0; 8];
        let mut word: u32 = 0;
        let mut place: u32 = 1;
        for i in (0..radix.registers).rev() {
            let x = p.partners[i as usize];
            let part = (x as u32) * place;
            word += part;
            adds[x as usize] += part;
            place *= PARTNER_BASE;
        }
        Sums { word, adds }
    }

    // And once for a left edge that drops no register, and writes register a.
    pub fn rest(self, radix: Radix, p: Position, a: u8) -> Rest
        requires sized { Sized radix × Fits radix p }
        requires sums_of { SumsOf radix p self × (1 ≤ a) × (a ≤ radix.registers) }
        ensures { RestOf radix p a result }
    {
        let x = p.partners[(a - 1) as usize];
        let place = place_of(radix.registers - a);
        let part = (x as u32) * place;
        let mut adds = self.adds;
        adds[x as usize] -= part;
        Rest {
            word: self.word - part,
            place,
            adds,
        }
    }
}
