// The certificate checker (01, "Verdict, table, certificate" and "Turned back, in checking order"): a task and a proposed
// certificate in, acceptance with its verdict and rounds or a refusal out.
#![tactic(auto)]

ghost use Rattle.std.specs.Prelude.{◌≡◌};
ghost use Rattle.outcome.specs.Verdicts.{contest_of};
ghost use Rattle.outcome.specs.Check.{check_task, check};
ghost use Rattle.game_index.specs.Reading.{task_in, game_in};
ghost use Rattle.checker_laws.specs.CheckAnswers.{list_answer};

use checker_acceptance::{accepted, records_of, start_rounds};
use checker_form::formed;
use fra::Game;
use game_index::TaskIndex;
use outcome::{Acceptance, Standing, Verdict};
use task::Refusal;
use task_reader::read_task;

// The answer to a certificate whose first record has the kind of such positions in the game.
fn check_list(
    index: &TaskIndex,
    certificate: &[u8],
    standing: Standing,
) -> Result<Acceptance, Refusal>
    ensures { result ≡ list_answer (game_in index.now.bytes) (task_in index.now.bytes) standing certificate.now }
{
    let verdict = Verdict::of(game_index::game(&index.bytes), standing);
    let records = records_of(standing, certificate.len());
    if !formed(&index.bytes, certificate, verdict.kind(), records) {
        return Err(Refusal::Malformed);
    }
    let holds = accepted(index, certificate, standing);
    if !holds {
        return Err(Refusal::NotAccepted);
    }
    let rounds = start_rounds(&index.bytes, certificate, standing);
    Ok(Acceptance { verdict, rounds })
}

// The answer for the task of an index. A certificate of no record is well formed and not accepted.
fn check_indexed(index: &TaskIndex, certificate: &[u8]) -> Result<Acceptance, Refusal>
    ensures { result ≡ check_task 6 (contest_of (game_in index.now.bytes)) (task_in index.now.bytes) certificate.now }
{
    let Some(kind) = certificate.first() else {
        return Err(Refusal::NotAccepted);
    };
    let game = game_index::game(&index.bytes);
    let kept = Verdict::of(game, Standing::Kept);
    if *kind == kept.kind() {
        return check_list(index, certificate, Standing::Kept);
    }
    let lost = Verdict::of(game, Standing::Lost);
    if *kind == lost.kind() {
        return check_list(index, certificate, Standing::Lost);
    }
    Err(Refusal::Malformed)
}

// The checker: the bytes of a task and of a proposed certificate, whatever they are, by a game. It writes nothing.
pub fn check(game: Game, file: &[u8], certificate: &[u8]) -> Result<Acceptance, Refusal>
    ensures { result ≡ check (contest_of game) file.now certificate.now }
{
    let task = read_task(file)?;
    let index = game_indexing::of(task, game);
    check_indexed(&index, certificate)
}
