// The comparer and the certificate checker by the names and numbers that callers in C have. The crate `exports_c` is the static
// library: each of its exports calls the function of that name here.
#![tactic(auto)]

ghost use Rattle.std.specs.Prelude.{◌≡◌, Ok, Err};
ghost use Rattle.outcome.specs.Verdicts.{contest_of, equality, one_way, values_of, checked_values_of};
ghost use Rattle.outcome.specs.Compare.{compare};
ghost use Rattle.outcome.specs.Check.{check};
ghost use Rattle.exports.specs.ReturnedNumbers.{numbers_in, Returns};

use fra::Game;
use outcome::{Acceptance, Comparison};
use task::Refusal;

// What a call returns: a refusal's number and zeros, or 0 and the verdict's numbers. A verdict's number is the kind of its
// certificate's records.
#[repr(C)]
#[derive(Clone, Copy)]
pub struct Answer {
    pub refusal: u32,
    pub verdict: u32,
    pub positions: u32,
    pub rounds: u32,
    pub length: usize,
}

// A refusal: "its number and zeros".
impl From<Refusal> for Answer {
    ghost from_gives = { λ refusal answer. numbers_in answer ≡ values_of (Err refusal) };

    fn from(refusal: Refusal) -> Answer {
        Answer {
            refusal: u32::from(u8::from(refusal)),
            verdict: 0,
            positions: 0,
            rounds: 0,
            length: 0,
        }
    }
}

impl From<Comparison> for Answer {
    ghost from_gives = { λ comparison answer. numbers_in answer ≡ values_of (Ok comparison) };

    fn from(comparison: Comparison) -> Answer {
        Answer {
            refusal: 0,
            verdict: u32::from(comparison.verdict.kind()),
            positions: comparison.positions,
            rounds: comparison.rounds,
            length: comparison.length,
        }
    }
}

impl From<Acceptance> for Answer {
    ghost from_gives = { λ acceptance answer. numbers_in answer ≡ checked_values_of (Ok acceptance) };

    fn from(acceptance: Acceptance) -> Answer {
        Answer {
            refusal: 0,
            verdict: u32::from(acceptance.verdict.kind()),
            positions: 0,
            rounds: acceptance.rounds,
            length: 0,
        }
    }
}

// The answer of a comparison by a game.
fn compared(game: Game, file: &[u8], table: &mut [u8], certificate: &mut [u8]) -> Answer
    ensures { Returns (compare (contest_of game) file.now table.old certificate.old) result table.new certificate.new }
{
    match comparer::compare(game, file, table, certificate) {
        Ok(comparison) => Answer::from(comparison),
        Err(refusal) => Answer::from(refusal),
    }
}

// The answer of a check by a game.
fn checked(game: Game, file: &[u8], certificate: &[u8]) -> Answer
    ensures { numbers_in result ≡ checked_values_of (check (contest_of game) file.now certificate.now) }
{
    match checker::check(game, file, certificate) {
        Ok(acceptance) => Answer::from(acceptance),
        Err(refusal) => Answer::from(refusal),
    }
}

// Compares the models of a task file.
pub fn nuldopa_compare(file: &[u8], table: &mut [u8], certificate: &mut [u8]) -> Answer
    ensures { Returns (compare equality file.now table.old certificate.old) result table.new certificate.new }
{
    compared(Game::BothAttack, file, table, certificate)
}

// Checks a proposed certificate.
pub fn nuldopa_check(file: &[u8], certificate: &[u8]) -> Answer
    ensures { numbers_in result ≡ checked_values_of (check equality file.now certificate.now) }
{
    checked(Game::BothAttack, file, certificate)
}

// Compares one way: only the left side attacks.
pub fn nuldopa_compare_one_way(file: &[u8], table: &mut [u8], certificate: &mut [u8]) -> Answer
    ensures { Returns (compare one_way file.now table.old certificate.old) result table.new certificate.new }
{
    compared(Game::LeftAttacks, file, table, certificate)
}

// Checks a proposed certificate of that comparison.
pub fn nuldopa_check_one_way(file: &[u8], certificate: &[u8]) -> Answer
    ensures { numbers_in result ≡ checked_values_of (check one_way file.now certificate.now) }
{
    checked(Game::LeftAttacks, file, certificate)
}
