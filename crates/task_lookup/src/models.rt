// The parts of a model.
ghost use Rattle.std.specs.Prelude.{◌≡◌};
ghost use Rattle.fra.specs.Model.{set_of, edge_of};
ghost use Rattle.fra.specs.Rules.{model_of};

use fra::{Edge, Model, Side, Task};

// A side's model.
pub fn model_of(t: Task, side: Side) -> Model
    ensures { result ≡ model_of t side }
{
    match side {
        Side::Left => t.left,
        Side::Right => t.right,
    }
}

// The register set of a state, empty past the states.
#[tactic(auto, unfolding(fra::specs::Model::set_of))]
pub fn set_of(m: Model, q: u8) -> u8
    ensures { result ≡ set_of m q }
{
    m.states
        .get(usize::from(q))
        .copied()
        .unwrap_or(Model::NO_STATE)
        .set
}

// The edge with this number, or what stands past the edges.
#[tactic(auto, unfolding(fra::specs::Model::edge_of))]
pub fn edge_of(m: Model, k: u8) -> Edge
    ensures { result ≡ edge_of m k }
{
    m.edges
        .get(usize::from(k))
        .copied()
        .unwrap_or(Model::NO_EDGE)
}
