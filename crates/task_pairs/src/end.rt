// "15, end: no body."
ghost use Rattle.std.specs.Prelude.{◌≡◌};
ghost use Rattle.task.specs.TaskFile.{end_at, end};

use fra::Side;
use task::{Progress, Refusal, Stage};

#[tactic(auto, unfolding(task::specs::TaskFile::end_at))]
fn step_of(p: Progress) -> Result<Progress, Refusal>
    ensures { result ≡ end_at p }
{
    Ok(Progress {
        stage: Stage::Ended,
        task: p.task,
    })
}

// It stands after the right model, the pairs and the history's size. Two arms refuse, so that an edit can change one.
#[tactic(auto, unfolding(task::specs::TaskFile::end))]
pub fn step(p: Progress) -> Result<Progress, Refusal>
    ensures { result ≡ end p.stage p }
{
    match p.stage {
        Stage::Edges(Side::Right) | Stage::Pairs | Stage::Sized => step_of(p),
        Stage::Edges(Side::Left) => Err(Refusal::Misplaced),
        Stage::Start | Stage::States(_, _) | Stage::Ended => Err(Refusal::Misplaced),
    }
}
