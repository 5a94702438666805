// The index of a task: its models, its start and the game as bytes that are written once and read by reference, so
// that no model is copied for a position or an edge.
#![tactic(auto)]

ghost use Rattle.std.specs.Prelude.{◌+◌, ◌≤◌, ◌<◌, ◌≡◌};
ghost use Rattle.fra.specs.Model.{set_of, mark_of, edge_of};
ghost use Rattle.fra.specs.Position.{has_room};
ghost use Rattle.fra.specs.Game.{lost_at_once};
ghost use Rattle.game_moves.specs.AfterRound.{target_of};
ghost use Rattle.game_index.specs.Layout.{edge_places, codes, side_width};
ghost use Rattle.game_index.specs.Reading.{side_byte, model_in, start_in, task_in, game_in, rules_in};
ghost use Rattle.game_index.specs.Ranges.{first_edge, state_range, tag_range};
ghost use Rattle.game_index.specs.Writing.{drops, Index};
ghost use Rattle.game_index.specs.Props.{index_prop};
ghost use Rattle.game_index.specs.Transitions.{transition_of};

use fra::{Edge, EdgeKind, Game, Model, Position, Side};
use game_moves::rounds;
use game_moves::rounds::Target;

pub mod layout;

// Edge numbers from `first` on, below `end`. The library's Range is not Copy, and a challenge, which is, holds one of these.
#[derive(Clone, Copy)]
pub struct Range {
    pub first: u8,
    pub end: u8,
}

impl Range {
    pub const EMPTY: Range = Range { first: 0, end: 0 };
}

// What an edge takes, and where it leads.
#[derive(Clone, Copy)]
pub struct Transition {
    pub kind: EdgeKind,
    pub target: Target,
}

// The index of a task: its bytes, and that what stands beside the task in them follows from it.
#[derive(Clone, Copy)]
pub struct TaskIndex {
    pub bytes: [u8; layout::SIZE],
    ghost of_a_task: { Index bytes } by { index_prop bytes },
}

// ── What stands in an index ──

// Byte i of a side.
fn byte_of(index: &[u8; layout::SIZE], side: Side, i: usize) -> u8
    requires { i < side_width }
    ensures { result ≡ side_byte index.now side i }
{
    match side {
        Side::Left => index[i],
        Side::Right => index[layout::SIDE + i],
    }
}

#[tactic(auto, unfolding(crate::specs::Reading::model_in))]
pub fn register_count(index: &[u8; layout::SIZE], side: Side) -> u8
    ensures { result ≡ (model_in index.now side).registers }
{
    byte_of(index, side, layout::REGISTER_COUNT)
}

#[tactic(auto, unfolding(crate::specs::Reading::model_in))]
pub fn state_count(index: &[u8; layout::SIZE], side: Side) -> u8
    ensures { result ≡ (model_in index.now side).state_count }
{
    byte_of(index, side, layout::STATE_COUNT)
}

#[tactic(auto, unfolding(crate::specs::Reading::model_in))]
pub fn edge_count(index: &[u8; layout::SIZE], side: Side) -> u8
    ensures { result ≡ (model_in index.now side).edge_count }
{
    byte_of(index, side, layout::EDGE_COUNT)
}

// The position that a comparison starts from.
pub fn start(index: &[u8; layout::SIZE]) -> Position
    ensures { result ≡ start_in index.now }
{
    let mut partners = [0; Model::REGISTERS as usize];
    partners.copy_from_slice(&index[layout::PARTNERS..layout::HISTORY]);
    Position {
        left: index[layout::START],
        right: index[layout::START + 1],
        partners,
        history: index[layout::HISTORY],
    }
}

// The register set of a state, empty past the states.
pub fn set_of(index: &[u8; layout::SIZE], side: Side, q: u8) -> u8
    ensures { result ≡ set_of (model_in index.now side) q }
{
    if Model::STATES <= q {
        return 0;
    }
    byte_of(index, side, layout::STATES + layout::STATE * (q as usize))
}

// The end mark of a state.
pub fn mark_of(index: &[u8; layout::SIZE], side: Side, q: u8) -> u8
    ensures { result ≡ mark_of (model_in index.now side) q }
{
    if Model::STATES <= q {
        return 0;
    }
    byte_of(
        index,
        side,
        layout::STATES + layout::STATE * (q as usize) + layout::MARK,
    )
}

// The history has a number that neither reader holds.
#[tactic(auto, unfolding(fra::specs::Position::has_room, crate::specs::Reading::task_in))]
pub fn has_room(index: &[u8; layout::SIZE], p: Position) -> bool
    ensures { result ≡ has_room (task_in index.now) p }
{
    let left = set_of(index, Side::Left, p.left);
    let right = set_of(index, Side::Right, p.right);
    rounds::has_room(p, left, right)
}

// What the edge with this number takes.
pub fn kind_at(index: &[u8; layout::SIZE], side: Side, k: u8) -> EdgeKind
    requires { k < edge_places }
    ensures { result ≡ (edge_of (model_in index.now side) k).kind }
{
    let at = layout::EDGES + layout::EDGE * (k as usize);
    let number = byte_of(index, side, at + layout::KIND);
    EdgeKind::of(number, byte_of(index, side, at + layout::REGISTER))
}

// The edge with this number, or what stands past the edges.
pub fn edge_at(index: &[u8; layout::SIZE], side: Side, k: u8) -> Edge
    ensures { result ≡ edge_of (model_in index.now side) k }
{
    if Model::EDGES <= k {
        return Model::NO_EDGE;
    }
    let at = layout::EDGES + layout::EDGE * (k as usize);
    let kind = kind_at(index, side, k);
    Edge {
        from: byte_of(index, side, at),
        tag: byte_of(index, side, at + layout::TAG),
        kind,
        to: byte_of(index, side, at + layout::TO),
    }
}

// ── The game ──

#[tactic(auto, unfolding(crate::specs::Reading::game_in))]
pub fn game(index: &[u8; layout::SIZE]) -> Game
    ensures { result ≡ game_in index.now }
{
    Game::from(index[layout::GAME])
}

// The side attacks.
pub fn attacks(index: &[u8; layout::SIZE], side: Side) -> bool
    ensures { result ≡ (rules_in index.now).attacks side }
{
    let game = game(index);
    game.attacks(side)
}

// The end marks lose at once.
pub fn lost_at_once(index: &[u8; layout::SIZE], p: Position) -> bool
    ensures { result ≡ lost_at_once (rules_in index.now) (task_in index.now) p }
{
    let left = mark_of(index, Side::Left, p.left);
    let right = mark_of(index, Side::Right, p.right);
    let game = game(index);
    game.loses(left, right)
}

// ── What follows from the task and is written beside it ──

// Where the edge with this number leads.
pub fn target_at(index: &TaskIndex, side: Side, k: u8) -> Target
    requires { k < edge_places }
    ensures { result ≡ target_of (model_in index.now.bytes side) (edge_of (model_in index.now.bytes side) k) }
{
    let at = layout::EDGES + layout::EDGE * (k as usize);
    Target {
        register: byte_of(&index.bytes, side, at + layout::REGISTER),
        state: byte_of(&index.bytes, side, at + layout::TO),
        set: byte_of(&index.bytes, side, at + layout::TO_SET),
    }
}

// What the edge with this number takes, and where it leads; or what stands past the edges.
pub fn transition_at(index: &TaskIndex, side: Side, k: u8) -> Transition
    ensures { result ≡ transition_of (model_in index.now.bytes side) k }
{
    if Model::EDGES <= k {
        let target = Target {
            register: 0,
            state: 0,
            set: set_of(&index.bytes, side, 0),
        };
        return Transition {
            kind: EdgeKind::Known(0),
            target,
        };
    }
    let kind = kind_at(&index.bytes, side, k);
    let target = target_at(index, side, k);
    Transition { kind, target }
}

// The edge with this number drops a register.
pub fn drops_at(index: &TaskIndex, side: Side, k: u8) -> bool
    requires { k < edge_places }
    ensures { result ≡ drops (model_in index.now.bytes side) (edge_of (model_in index.now.bytes side) k) }
{
    let at = layout::EDGES + layout::EDGE * (k as usize);
    byte_of(&index.bytes, side, at + layout::DROPS) == 1
}

// The first edge whose code is not below this one.
fn first_edge(index: &TaskIndex, side: Side, code: usize) -> u8
    requires { code ≤ codes }
    ensures { result ≡ first_edge (model_in index.now.bytes side) code }
{
    byte_of(&index.bytes, side, layout::FIRSTS + code)
}

// The edges that start in a state.
pub fn edges_of(index: &TaskIndex, side: Side, q: u8) -> Range
    ensures { result ≡ state_range (model_in index.now.bytes side) q }
{
    if Model::STATES <= q {
        return Range::EMPTY;
    }
    let code = (q as usize) * layout::TAGGED;
    Range {
        first: first_edge(index, side, code),
        end: first_edge(index, side, code + layout::TAGGED),
    }
}

// The edges that start in a state and have a tag.
pub fn tagged(index: &TaskIndex, side: Side, q: u8, tag: u8) -> Range
    ensures { result ≡ tag_range (model_in index.now.bytes side) q tag }
{
    if Model::STATES <= q {
        return Range::EMPTY;
    }
    if Model::TAGS <= tag {
        return Range::EMPTY;
    }
    let code = (q as usize) * layout::TAGGED + (tag as usize) * layout::KINDS;
    Range {
        first: first_edge(index, side, code),
        end: first_edge(index, side, code + layout::KINDS),
    }
}
