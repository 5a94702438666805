// Writes the index of a task, part by part.
#![tactic(auto)]

ghost use Rattle.std.specs.Prelude.{suc, ◌+◌, ◌*◌, ◌-◌, ◌≤◌, ◌≡◌, not, ◌&&◌, get_or, replicate};
ghost use mathlib.Core.List.{[], ◌∷◌, map, flat_map};
ghost use lib.Seq.{sets};
ghost use Rattle.fra.specs.Lists.{any, count};
ghost use Rattle.fra.specs.Registers.{has, with};
ghost use Rattle.fra.specs.Model.{no_state};
ghost use Rattle.fra.specs.Position.{bytes};
ghost use Rattle.game_index.specs.Layout.{states_at, state_places, state_width, edge_places, edge_width, codes, side_width, start_at, size};
ghost use Rattle.game_index.specs.Ranges.{edge_code, first_edge};
ghost use Rattle.game_index.specs.Writing.{state_bytes, entry_of, edge_entry, count_bytes, IndexableModel, SidePut, Indexable, Indexes};

use fra::{Edge, Game, Model, Position, State, Task, has};
use game_index::{TaskIndex, layout};

// Writes the states of a model.
fn put_states(out: &mut [u8; layout::SIZE], at: usize, m: Model)
    requires { at + state_places * state_width ≤ size }
    ensures { out.new ≡ sets out.old at (flat_map state_bytes m.states) }
{
    for q in 0..Model::STATES as usize {
        let s = m.states[q];
        out[at + layout::STATE * q] = s.set;
        out[at + layout::STATE * q + layout::MARK] = s.mark;
    }
}

// The register set of a state, empty past the states.
fn set_in(states: [State; 16], q: u8) -> u8
    ensures { result ≡ (get_or states q no_state).set }
{
    states
        .get(q as usize)
        .copied()
        .unwrap_or(Model::NO_STATE)
        .set
}

// A register is in the set, or is the one added, and is not in the other set.
#[tactic(auto, unfolding(fra::specs::Registers::with))]
fn dropped(set: u8, added: u8, other: u8, i: u8) -> bool
    ensures { result ≡ (with set added i && not (has other i)) }
{
    (has(set, i) | (added == i)) & !has(other, i)
}

// Some of registers 1 to `registers` is in the set, or is the one added, and is not in the other set.
fn drops(registers: u8, set: u8, added: u8, other: u8) -> bool
    ensures { result ≡ any (λ i. with set added i && not (has other i)) (count 1 registers) }
{
    for i in 0..registers {
        if dropped(set, added, other, i + 1) {
            return true;
        }
    }
    false
}

// Writes an edge's eight bytes.
fn put_edge(out: &mut [u8; layout::SIZE], at: usize, e: Edge, set: u8, drops: bool)
    requires { at + edge_width ≤ size }
    ensures { out.new ≡ sets out.old at (entry_of e set drops) }
{
    let kind = e.kind;
    let bytes = [
        e.from,
        e.tag,
        kind.number(),
        kind.register(),
        e.to,
        set,
        drops as u8,
        0,
    ];
    out[at..at + layout::EDGE].copy_from_slice(&bytes);
}

// Writes the edges of a model.
fn put_edges(out: &mut [u8; layout::SIZE], at: usize, m: Model)
    requires { at + edge_places * edge_width ≤ size }
    ensures { out.new ≡ sets out.old at (flat_map (edge_entry m) m.edges) }
{
    for k in 0..Model::EDGES as usize {
        let e = m.edges[k];
        let set = set_in(m.states, e.to);
        let drops = drops(
            m.registers,
            set_in(m.states, e.from),
            e.kind.register(),
            set,
        );
        put_edge(out, at + layout::EDGE * k, e, set, drops);
    }
}

// An edge's code.
fn code_of(e: Edge) -> usize
    ensures { result ≡ edge_code e }
{
    let kind = e.kind;
    (e.from as usize) * layout::TAGGED + (e.tag as usize) * layout::KINDS + (kind.number() as usize)
}

// Writes for each code the first edge whose code is not below it. Codes rise with the edges, so an edge is the first one for the
// codes after the one before it, up to its own.
fn put_firsts(out: &mut [u8; layout::SIZE], at: usize, m: Model)
    requires codes_bound { at + suc codes ≤ size }
    requires indexable_model { IndexableModel m }
    ensures { out.new ≡ sets out.old at (map (first_edge m) (count 0 (suc codes))) }
{
    let mut next: usize = 0;
    let edges = m.edge_count;
    for k in 0..edges {
        let end = code_of(m.edges[k as usize]) + 1;
        out[at + next..at + end].fill(k);
        next = end;
    }
    out[at + next..at + layout::CODES + 1].fill(edges);
}

// Writes the counts of a model.
fn put_counts(out: &mut [u8; layout::SIZE], at: usize, m: Model)
    requires { at + states_at ≤ size }
    ensures { out.new ≡ sets out.old at (count_bytes m) }
{
    let counts = [m.registers, m.start, m.state_count, m.edge_count];
    out[at..at + layout::STATES].copy_from_slice(&counts);
}

// Writes a side's bytes.
fn put_side(out: &mut [u8; layout::SIZE], at: usize, m: Model)
    requires side_width_bound { at + side_width ≤ size }
    requires indexable_model { IndexableModel m }
    ensures { SidePut m at out.old out.new }
{
    put_counts(out, at, m);
    put_states(out, at + layout::STATES, m);
    put_edges(out, at + layout::EDGES, m);
    put_firsts(out, at + layout::FIRSTS, m);
}

// Writes the start's position.
fn put_start(out: &mut [u8; layout::SIZE], p: Position)
    ensures { out.new ≡ sets out.old start_at (bytes p) }
{
    let a = p.partners;
    let bytes = [
        p.left, p.right, a[0], a[1], a[2], a[3], a[4], a[5], p.history,
    ];
    out[layout::START..layout::STATED].copy_from_slice(&bytes);
}

// The index of a task and a game.
pub fn of(t: Task, game: Game) -> TaskIndex
    requires { Indexable t }
    ensures { Indexes t game result.bytes }
{
    let mut out = [0u8; layout::SIZE];
    put_side(&mut out, 0, t.left);
    put_side(&mut out, layout::SIDE, t.right);
    put_start(&mut out, t.start);
    out[layout::STATED] = t.history_stated as u8;
    out[layout::GAME] = u8::from(game);
    TaskIndex { bytes: out }
}
