// "3, edge: from, tag, kind, register, to."
ghost use Rattle.std.specs.Prelude.{◌<◌, ◌≡◌, leb};
ghost use Rattle.fra.specs.Model.{edge_bytes};
ghost use Rattle.task.specs.TaskFile.{max_edges, edge_of_body, edge_exists, keeps_rule, rises, edge_refusal, with_edge, edge_at, edge};
ghost use Rattle.task_edges.specs.Ruled.{ruled};

use fra::{Edge, EdgeKind, Model, Side, has};
use task::{Progress, Refusal, Stage};
use task_lookup::{bytes, models, sets};
use task_progress::with_model;

// The edge that a body stands for.
#[tactic(auto, unfolding(task::specs::TaskFile::edge_of_body))]
fn of_body(body: &[u8]) -> Edge
    ensures { result ≡ edge_of_body body.now }
{
    Edge {
        from: bytes::at(body, 0),
        tag: bytes::at(body, 1),
        kind: EdgeKind::of(bytes::at(body, 2), bytes::at(body, 3)),
        to: bytes::at(body, 4),
    }
}

// The five bytes of an edge.
#[tactic(auto, unfolding(fra::specs::Model::edge_bytes))]
fn bytes_of(e: Edge) -> [u8; 5]
    ensures { result ≡ edge_bytes e }
{
    [e.from, e.tag, e.kind.number(), e.kind.register(), e.to]
}

// Its states, tag, kind and register exist.
#[tactic(auto, unfolding(task::specs::TaskFile::edge_exists))]
fn exists(m: Model, body: &[u8]) -> bool
    ensures { result ≡ edge_exists m body.now }
{
    let from = bytes::at(body, 0);
    let tag = bytes::at(body, 1);
    let kind = bytes::at(body, 2);
    let register = bytes::at(body, 3);
    let to = bytes::at(body, 4);
    from < m.state_count
        && tag < Model::TAGS
        && kind <= 2
        && 1 <= register
        && register <= m.registers
        && to < m.state_count
}

// It keeps its kind's rule on the from set and the to set.
#[tactic(auto, unfolding(task::specs::TaskFile::keeps_rule))]
fn keeps_rule(registers: u8, from: u8, to: u8, kind: EdgeKind) -> bool
    ensures { result ≡ keeps_rule registers from to kind }
{
    match kind {
        EdgeKind::Known(i) => has(from, i) && sets::inside(registers, to, from, 0),
        EdgeKind::LocallyFresh(i) => sets::inside(registers, to, from, i),
        EdgeKind::GloballyFresh(i) => sets::inside(registers, to, from, i),
    }
}

// The same of the edge's own states and kind.
fn ruled(m: Model, body: &[u8]) -> bool
    ensures { result ≡ ruled m body.now }
{
    let from = models::set_of(m, bytes::at(body, 0));
    let to = models::set_of(m, bytes::at(body, 4));
    let kind = EdgeKind::of(bytes::at(body, 2), bytes::at(body, 3));
    keeps_rule(m.registers, from, to, kind)
}

// It is above the last edge of the model.
#[tactic(auto, unfolding(task::specs::TaskFile::rises))]
fn rises(m: Model, body: &[u8]) -> bool
    ensures { result ≡ rises m body.now }
{
    if m.edge_count == 0 {
        return true;
    }
    bytes::below(&bytes_of(models::edge_of(m, m.edge_count - 1)), body)
}

// The model has all the edges that it may have.
fn is_full(m: Model) -> bool
    ensures { result ≡ leb max_edges m.edge_count }
{
    Model::EDGES <= m.edge_count
}

#[tactic(auto, unfolding(task::specs::TaskFile::edge_refusal))]
fn admit(m: Model, body: &[u8]) -> Result<(), Refusal>
    ensures { result ≡ edge_refusal m body.now }
{
    if !exists(m, body) {
        return Err(Refusal::BadEdge);
    }
    if !ruled(m, body) {
        return Err(Refusal::BrokenRule);
    }
    if !rises(m, body) {
        return Err(Refusal::EdgesNotRising);
    }
    if is_full(m) {
        return Err(Refusal::TooManyEdges);
    }
    Ok(())
}

#[tactic(auto, unfolding(task::specs::TaskFile::with_edge))]
fn with_edge(m: Model, e: Edge) -> Model
    requires { m.edge_count < max_edges }
    ensures { result ≡ with_edge m e }
{
    let k = m.edge_count;
    let mut n = m;
    n.edges[k as usize] = e;
    n.edge_count = k + 1;
    n
}

// An edge of this side, where one may stand.
#[tactic(auto, unfolding(task::specs::TaskFile::edge_at))]
fn step_of(side: Side, p: Progress, body: &[u8]) -> Result<Progress, Refusal>
    ensures { result ≡ edge_at side p body.now }
{
    let t = p.task;
    let m = models::model_of(t, side);
    admit(m, body)?;
    Ok(Progress {
        stage: Stage::Edges(side),
        task: with_model(t, side, with_edge(m, of_body(body))),
    })
}

// It stands after the states of its model.
#[tactic(auto, unfolding(task::specs::TaskFile::edge))]
pub fn step(p: Progress, body: &[u8]) -> Result<Progress, Refusal>
    ensures { result ≡ edge p.stage p body.now }
{
    let Stage::Edges(side) = p.stage else {
        return Err(Refusal::Misplaced);
    };
    step_of(side, p, body)
}
