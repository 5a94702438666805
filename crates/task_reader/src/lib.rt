// The task reader (01, "The task file"): bytes in, both models and the start position or a refusal out.
//
// A new kind of record is a variant of `task::Kind` with its byte and its length, and its step below.
#![tactic(auto)]

ghost use Rattle.std.specs.Prelude.{◌≡◌};
ghost use Rattle.task.specs.TaskFile.{step, no_task, at_start, at_end, read_task};
ghost use Rattle.task_progress.specs.Due.{Due};

use fra::{Position, Task};
use task::{Kind, Progress, Refusal, Stage};
use task_edges::edge;
use task_models::{header, state};
use task_pairs::{end, history, pair};

// What a record does to the task as far as it is read.
#[tactic(auto, unfolding(task::specs::TaskFile::step))]
fn step(kind: Kind, p: Progress, body: &[u8]) -> Result<Progress, Refusal>
    requires { Due p.stage p.task }
    ensures { result ≡ step kind p body.now }
{
    match kind {
        Kind::Header => header::step(p, body),
        Kind::State => state::step(p, body),
        Kind::Edge => edge::step(p, body),
        Kind::Pair => pair::step(p, body),
        Kind::History => history::step(p, body),
        Kind::End => end::step(p),
    }
}

// A task of zeros, with a history of the greatest size.
fn no_task() -> Task
    ensures { result ≡ no_task }
{
    let m = header::headed(0, 0, 0);
    Task {
        left: m,
        right: m,
        start: Position::unmatched(0, 0),
        history_stated: false,
    }
}

#[tactic(auto, unfolding(task::specs::TaskFile::at_start))]
fn at_start() -> Progress
    ensures { result ≡ at_start }
{
    Progress {
        stage: Stage::Start,
        task: no_task(),
    }
}

// A file that ends here has been read if its end record has.
#[tactic(auto, unfolding(task::specs::TaskFile::at_end))]
fn at_end(p: Progress) -> Result<Task, Refusal>
    ensures { result ≡ at_end p.stage p.task }
{
    let Stage::Ended = p.stage else {
        return Err(Refusal::CutShort);
    };
    Ok(p.task)
}

pub fn read_task(file: &[u8]) -> Result<Task, Refusal>
    ensures { result ≡ read_task file.now }
{
    let mut p = at_start();
    let mut rest = file;
    while let Some((byte, after)) = rest.split_first() {
        let kind = Kind::try_from(*byte)?;
        let (body, left) = after
            .split_at_checked(kind.body_length())
            .ok_or(Refusal::CutShort)?;
        p = step(kind, p, body)?;
        rest = left;
    }
    at_end(p)
}
