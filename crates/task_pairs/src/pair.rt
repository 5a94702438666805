// "4, pair: left register, right register."
ghost use Rattle.std.specs.Prelude.{◌≤◌, ◌≡◌};
ghost use Rattle.fra.specs.Model.{set_of};
ghost use Rattle.fra.specs.Registers.{has};
ghost use Rattle.task.specs.TaskFile.{rising, pair_refusal, with_pair, pair_at, pair};

use crate::places::among_pairs;
use fra::{Model, Task, has};
use task::{Progress, Refusal, Stage};
use task_lookup::{bytes, models};

// The left register's place in the matching, and those after it, hold no pair yet.
#[tactic(auto, unfolding(task::specs::TaskFile::rising))]
fn rising(partners: [u8; 6], left: u8) -> bool
    requires { 1 ≤ left }
    ensures { result ≡ rising partners left }
{
    !partners
        .iter()
        .skip(usize::from(left - 1))
        .any(|partner| 0 < *partner)
}

// The register is in the set of the model's start state.
fn held(m: Model, register: u8) -> bool
    ensures { result ≡ has (set_of m m.start) register }
{
    has(models::set_of(m, m.start), register)
}

#[tactic(auto, unfolding(task::specs::TaskFile::pair_refusal))]
fn admit(t: Task, left: u8, right: u8) -> Result<(), Refusal>
    ensures { result ≡ pair_refusal t left right }
{
    let partners = t.start.partners;
    if held(t.left, left)
        && held(t.right, right)
        && rising(partners, left)
        && !bytes::contains(&partners, right)
    {
        Ok(())
    } else {
        Err(Refusal::BadPair)
    }
}

// A register past the last has no place in the matching.
#[tactic(auto, unfolding(task::specs::TaskFile::with_pair))]
fn with_pair(t: Task, left: u8, right: u8) -> Task
    requires { 1 ≤ left }
    ensures { result ≡ with_pair t left right }
{
    let mut u = t;
    if left <= Model::REGISTERS {
        u.start.partners[usize::from(left - 1)] = right;
    }
    u
}

// A pair, where one may stand.
#[tactic(auto, unfolding(task::specs::TaskFile::pair_at))]
fn step_of(p: Progress, body: &[u8]) -> Result<Progress, Refusal>
    ensures { result ≡ pair_at p body.now }
{
    let left = bytes::at(body, 0);
    let right = bytes::at(body, 1);
    admit(p.task, left, right)?;
    Ok(Progress {
        stage: Stage::Pairs,
        task: with_pair(p.task, left, right),
    })
}

// It stands after the right model, and before the history's size.
#[tactic(auto, unfolding(task::specs::TaskFile::pair))]
pub fn step(p: Progress, body: &[u8]) -> Result<Progress, Refusal>
    ensures { result ≡ pair p.stage p body.now }
{
    if !among_pairs(p.stage) {
        return Err(Refusal::Misplaced);
    }
    step_of(p, body)
}
