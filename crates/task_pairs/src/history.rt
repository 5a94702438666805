// 02, ticket 2: "A record of kind 5, one byte, may stand after the pairs and gives the history's size"
ghost use Rattle.std.specs.Prelude.{◌≡◌};
ghost use Rattle.fra.specs.Position.{held};
ghost use Rattle.task.specs.TaskFile.{history_refusal, with_history, history_at, history};

use crate::places::among_pairs;
use fra::{Position, Task};
use task::{Progress, Refusal, Stage};
use task_lookup::{bytes, models};

// How many numbers the two readers hold together at the start.
fn held(t: Task) -> u8
    ensures { result ≡ held t t.start }
{
    let start = t.start;
    let left = models::set_of(t.left, start.left);
    let right = models::set_of(t.right, start.right);
    start.held(left, right)
}

#[tactic(auto, unfolding(task::specs::TaskFile::history_refusal))]
fn admit(t: Task, size: u8) -> Result<(), Refusal>
    ensures { result ≡ history_refusal t size }
{
    if Position::MOST_SEEN < size || size < held(t) {
        Err(Refusal::BadHistory)
    } else {
        Ok(())
    }
}

#[tactic(auto, unfolding(task::specs::TaskFile::with_history))]
fn with_history(t: Task, size: u8) -> Task
    ensures { result ≡ with_history t size }
{
    let mut u = t;
    u.start.history = size;
    u.history_stated = true;
    u
}

// The history's size, where it may stand.
#[tactic(auto, unfolding(task::specs::TaskFile::history_at))]
fn step_of(p: Progress, body: &[u8]) -> Result<Progress, Refusal>
    ensures { result ≡ history_at p body.now }
{
    let size = bytes::at(body, 0);
    admit(p.task, size)?;
    Ok(Progress {
        stage: Stage::Sized,
        task: with_history(p.task, size),
    })
}

// It stands after the right model and the pairs.
#[tactic(auto, unfolding(task::specs::TaskFile::history))]
pub fn step(p: Progress, body: &[u8]) -> Result<Progress, Refusal>
    ensures { result ≡ history p.stage p body.now }
{
    if !among_pairs(p.stage) {
        return Err(Refusal::Misplaced);
    }
    step_of(p, body)
}
