// The comparer (01, "Verdict, table, certificate"): a game, a task, a lent table and a lent certificate buffer in; a verdict
// or a refusal out. It has no memory but what is lent.
#![tactic(auto)]

ghost use Rattle.std.specs.Prelude.{◌^◌, ◌<◌, ◌≡◌, Err};
ghost use Rattle.outcome.specs.Bytes.{cleared};
ghost use Rattle.outcome.specs.Verdicts.{contest_of};
ghost use Rattle.outcome.specs.Compare.{decided, compare};
ghost use Rattle.comparer_certify.specs.CertifyAnswers.{Ranked};
ghost use Rattle.comparer.specs.Outcomes.{Found, outcome_in, judged_in, rounds_from, Gives};

use fra::Game;
use game_index::TaskIndex;
use outcome::layout::{ENTRY, NEVER};
use outcome::{Comparison, Standing, Verdict};
use table_keys::Radix;
use task::Refusal;

// The verdict by the start's rounds.
fn decided(game: Game, positions: usize, rounds: u32, written: usize) -> Comparison
    requires { positions < 2 ^ 32 }
    ensures { result ≡ decided (contest_of game) positions (rounds_from rounds) written }
{
    let (standing, rounds) = if rounds == NEVER {
        (Standing::Kept, 0)
    } else {
        (Standing::Lost, rounds)
    };
    Comparison {
        verdict: Verdict::of(game, standing),
        positions: positions as u32,
        rounds,
        length: written,
    }
}

// A refusal that fills the table with zeros.
fn refuse(table: &mut [u8], refusal: Refusal) -> Result<Comparison, Refusal>
    ensures value { result ≡ Err refusal }
    ensures table_after { table.new ≡ cleared table.old }
{
    table::clear(table);
    Err(refusal)
}

// Puts the positions found in order, as entries with their rounds.
fn settle(table: &mut [u8], n: usize, index: &TaskIndex)
    requires { Found index.now.bytes n table.old }
    ensures { Ranked index.now.bytes n table.new }
{
    let radix = Radix::of(&index.bytes);
    key_set::put_in_order(table, n, radix.key_count());
    table::lay_out(table, n, radix);
    comparer_rank::rank(table, n, index);
}

// The verdict, once the table has the rounds of all positions reached: 12, or the certificate is written.
fn judge(
    table: &mut [u8],
    n: usize,
    index: &TaskIndex,
    certificate: &mut [u8],
) -> Result<Comparison, Refusal>
    requires { Ranked index.now.bytes n table.old }
    ensures { Gives (judged_in index.now.bytes table.old certificate.old) result table.new certificate.new }
{
    let rounds = comparer_marks::rounds_of(table, n, game_index::start(&index.bytes));
    let Ok(written) = comparer_certify::certify(table, n, index, certificate) else {
        return refuse(table, Refusal::BufferTooSmall);
    };
    table::clear_from(table, n * ENTRY);
    Ok(decided(game_index::game(&index.bytes), n, rounds, written))
}

// Compares the models of an index.
fn compare_indexed(
    index: &TaskIndex,
    table: &mut [u8],
    certificate: &mut [u8],
) -> Result<Comparison, Refusal>
    ensures { Gives (outcome_in index.now.bytes table.old certificate.old) result table.new certificate.new }
{
    let Ok(n) = comparer_explore::explore(index, table) else {
        return refuse(table, Refusal::TableTooSmall);
    };
    settle(table, n, index);
    judge(table, n, index, certificate)
}

// Compares the models of a task file by a game.
pub fn compare(
    game: Game,
    file: &[u8],
    table: &mut [u8],
    certificate: &mut [u8],
) -> Result<Comparison, Refusal>
    ensures { Gives (compare (contest_of game) file.now table.old certificate.old) result table.new certificate.new }
{
    let task = task_reader::read_task(file)?;
    let index = game_indexing::of(task, game);
    compare_indexed(&index, table, certificate)
}
