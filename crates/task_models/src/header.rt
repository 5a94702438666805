// "1, header: registers, states, start state."
ghost use Rattle.std.specs.Prelude.{◌≡◌};
ghost use Rattle.task.specs.TaskFile.{header_refusal, headed, with_header, header_at, header};

use fra::{Model, Position, Side, Task};
use task::{Progress, Refusal, Stage};
use task_lookup::bytes;

#[tactic(auto, unfolding(task::specs::TaskFile::header_refusal))]
fn admit(registers: u8, states: u8, start: u8) -> Result<(), Refusal>
    ensures { result ≡ header_refusal registers states start }
{
    if Model::REGISTERS < registers || states == 0 || Model::STATES < states || states <= start {
        Err(Refusal::BadHeader)
    } else {
        Ok(())
    }
}

// A model with nothing but its header.
#[tactic(auto, unfolding(task::specs::TaskFile::headed))]
pub fn headed(registers: u8, states: u8, start: u8) -> Model
    ensures { result ≡ headed registers states start }
{
    Model {
        registers,
        start,
        state_count: states,
        edge_count: 0,
        states: [Model::NO_STATE; 16],
        edges: [Model::NO_EDGE; 64],
    }
}

// The header of a side's model; the right one's fixes the start position, still without pairs.
#[tactic(auto, unfolding(task::specs::TaskFile::with_header))]
fn with_header(t: Task, side: Side, m: Model) -> Task
    ensures { result ≡ with_header t side m }
{
    let mut u = t;
    match side {
        Side::Left => u.left = m,
        Side::Right => {
            u.right = m;
            u.start = Position::unmatched(t.left.start, m.start);
        }
    }
    u
}

// A header of this side, where one is due.
#[tactic(auto, unfolding(task::specs::TaskFile::header_at))]
fn step_of(side: Side, p: Progress, body: &[u8]) -> Result<Progress, Refusal>
    ensures { result ≡ header_at side p body.now }
{
    let registers = bytes::at(body, 0);
    let states = bytes::at(body, 1);
    let start = bytes::at(body, 2);
    admit(registers, states, start)?;
    Ok(Progress {
        stage: Stage::States(side, 0),
        task: with_header(p.task, side, headed(registers, states, start)),
    })
}

// It stands first, or after the left model.
#[tactic(auto, unfolding(task::specs::TaskFile::header))]
pub fn step(p: Progress, body: &[u8]) -> Result<Progress, Refusal>
    ensures { result ≡ header p.stage p body.now }
{
    match p.stage {
        Stage::Start => step_of(Side::Left, p, body),
        Stage::Edges(Side::Left) => step_of(Side::Right, p, body),
        _ => Err(Refusal::Misplaced),
    }
}
