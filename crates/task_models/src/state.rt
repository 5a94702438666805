// "2, state: its number, register set (bit 0 is register 1), end mark."
ghost use Rattle.std.specs.Prelude.{◌<◌, ◌^◌, ◌≡◌, leb};
ghost use Rattle.task.specs.TaskFile.{max_states, state_refusal, with_state, after_state, state_at, state};
ghost use Rattle.task_progress.specs.Due.{Due};

use fra::{Model, Side, State};
use task::{Progress, Refusal, Stage};
use task_lookup::{bytes, models};
use task_progress::with_model;

// The set has a register past the count.
fn overruns(set: u8, registers: u8) -> bool
    ensures { result ≡ leb (2 ^ registers) set }
{
    registers < 8 && (set >> registers) != 0
}

#[tactic(auto, unfolding(task::specs::TaskFile::state_refusal))]
fn admit(m: Model, due: u8, number: u8, set: u8, mark: u8) -> Result<(), Refusal>
    ensures { result ≡ state_refusal m due number set mark }
{
    if number != due || overruns(set, m.registers) || 1 < mark {
        Err(Refusal::BadState)
    } else {
        Ok(())
    }
}

#[tactic(auto, unfolding(task::specs::TaskFile::with_state))]
fn with_state(m: Model, q: u8, set: u8, mark: u8) -> Model
    requires { q < max_states }
    ensures { result ≡ with_state m q set mark }
{
    let mut n = m;
    n.states[q as usize] = State { set, mark };
    n
}

// After state q the next one is due, or the edges.
#[tactic(auto, unfolding(task::specs::TaskFile::after_state))]
fn after(m: Model, side: Side, q: u8) -> Stage
    requires { q < m.state_count }
    ensures { result ≡ after_state m side q }
{
    if q + 1 == m.state_count {
        Stage::Edges(side)
    } else {
        Stage::States(side, q + 1)
    }
}

// A state of this side, where this one is due.
#[tactic(auto, unfolding(task::specs::TaskFile::state_at))]
fn step_of(side: Side, due: u8, p: Progress, body: &[u8]) -> Result<Progress, Refusal>
    requires { Due (Stage.States side due) p.task }
    ensures { result ≡ state_at side due p body.now }
{
    let t = p.task;
    let m = models::model_of(t, side);
    let set = bytes::at(body, 1);
    let mark = bytes::at(body, 2);
    admit(m, due, bytes::at(body, 0), set, mark)?;
    Ok(Progress {
        stage: after(m, side, due),
        task: with_model(t, side, with_state(m, due, set, mark)),
    })
}

// It stands where a state is due.
#[tactic(auto, unfolding(task::specs::TaskFile::state))]
pub fn step(p: Progress, body: &[u8]) -> Result<Progress, Refusal>
    requires { Due p.stage p.task }
    ensures { result ≡ state p.stage p body.now }
{
    let Stage::States(side, due) = p.stage else {
        return Err(Refusal::Misplaced);
    };
    step_of(side, due, p, body)
}
