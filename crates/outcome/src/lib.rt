// What a comparison and a certificate check answer (01, "Verdict, table, certificate").
#![tactic(auto)]

ghost use Rattle.std.specs.Prelude.{◌≡◌, Some};
ghost use Rattle.outcome.specs.Verdicts.{verdict_of, kind_of, width_of, standing_of, verdict_word};

use fra::Game;
use std::fmt;

pub mod layout;

// How a position stands: it is never lost, or it is lost.
#[derive(Clone, Copy, Debug, PartialEq, Eq)]
pub enum Standing {
    Kept,
    Lost,
}

impl Standing {
    // The bytes of a certificate record of such a position.
    pub fn width(self) -> usize
        ensures { result ≡ width_of self }
    {
        match self {
            Standing::Kept => layout::KEPT_WIDTH,
            Standing::Lost => layout::LOST_WIDTH,
        }
    }
}

// A verdict, with the kind byte of its certificate's records.
#[derive(Clone, Copy, Debug, PartialEq, Eq)]
pub enum Verdict {
    Equal = 16,
    Differ = 17,
    Follows = 18,
    FallsShort = 19,
}

impl Verdict {
    // The verdict of a game by how the start stands.
    pub fn of(game: Game, standing: Standing) -> Verdict
        ensures { result ≡ verdict_of game standing }
    {
        match (game, standing) {
            (Game::BothAttack, Standing::Kept) => Verdict::Equal,
            (Game::BothAttack, Standing::Lost) => Verdict::Differ,
            (Game::LeftAttacks, Standing::Kept) => Verdict::Follows,
            (Game::LeftAttacks, Standing::Lost) => Verdict::FallsShort,
        }
    }

    // The kind byte of the verdict's certificate records.
    pub fn kind(self) -> u8
        ensures { result ≡ kind_of self }
    {
        self as u8
    }

    // How the start stands by the verdict.
    pub fn standing(self) -> Standing
        ensures { result ≡ standing_of self }
    {
        match self {
            Verdict::Equal | Verdict::Follows => Standing::Kept,
            Verdict::Differ | Verdict::FallsShort => Standing::Lost,
        }
    }

    // The word that programs print.
    pub fn word(self) -> &'static str
        ensures { result.now ≡ verdict_word self }
    {
        match self {
            Verdict::Equal => "EQUAL",
            Verdict::Differ => "DIFFER",
            Verdict::Follows => "FOLLOWS",
            Verdict::FallsShort => "FALLS SHORT",
        }
    }
}

impl fmt::Display for Verdict {
    ghost output = { λ verdict. Some (verdict_word verdict) };

    fn fmt<W: fmt::Write>(&self, f: &mut fmt::Formatter<W>) -> fmt::Result {
        f.write_str(self.word())
    }
}

// What the comparer returns of a task that it has compared; the lent table and certificate buffer hold the rest.
#[derive(Clone, Copy, Debug, PartialEq, Eq)]
pub struct Comparison {
    pub verdict: Verdict,
    pub positions: u32,
    pub rounds: u32,
    pub length: usize,
}

// What the certificate checker returns of a certificate that it accepts: the verdict and the start's listed rounds.
#[derive(Clone, Copy, Debug, PartialEq, Eq)]
pub struct Acceptance {
    pub verdict: Verdict,
    pub rounds: u32,
}
