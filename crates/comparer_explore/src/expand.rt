// The successors of a position, by pairs of a left and a right edge of one tag.
ghost use Rattle.std.specs.Prelude.{◌≤◌, ◌<◌, ◌≡◌, true, false, Some};
ghost use Rattle.fra.specs.declared.Side.TheVariants.{Left};
ghost use Rattle.fra_laws.specs.Joint.{compatible};
ghost use Rattle.game_index.specs.Reading.{task_in, rules_in};
ghost use Rattle.table_keys.specs.Keys.{key_of, key_limit, Sized, Fits};
ghost use Rattle.key_set_laws.specs.Stored.{Stored};
ghost use Rattle.comparer_explore_laws.specs.HalfRounds.{in_set};
ghost use Rattle.comparer_explore_laws.specs.EdgeKeys.{PairKey, PairFits, RangeKey, RangeFits};
ghost use Rattle.comparer_explore_laws.specs.Exploring.{SuccessorKey, Expandable};
ghost use Rattle.comparer_explore.specs.ExploreAnswers.{Visited};
ghost use Rattle.comparer_explore.specs.HalfRounds.{Halves, Undropped, HalfOf, joined_to, SummedBy, RangeSummed};
ghost use Rattle.comparer_explore.specs.Sums.{SumsOf};
ghost use Rattle.comparer_explore.specs.Sources.{source_of, Keyed};

use crate::sums::{Rest, Sums, place_of};
use fra::{Model, Position, Side, has};
use game_index::{Range, TaskIndex, Transition};
use game_moves::rounds;
use game_moves::rounds::Target;
use game_replies::joint;
use key_set::Full;
use table_keys::{PARTNER_BASE, Radix};

// A position that is expanded: whether the history has room for a number seen before, what its keys are sized by, and how many keys
// there are.
#[derive(Clone, Copy)]
pub struct Source {
    pub position: Position,
    pub room: bool,
    pub radix: Radix,
    pub keys: u32,
}

// What a left edge leaves of the matching, whichever right edge takes the same number: the partners of the registers in its to
// set, and the register that holds the number taken, or 0 where that set has it not. Where it drops no register, also the
// numbers that a key is made of. It is made once for each left edge.
#[derive(Clone, Copy)]
struct Half {
    edge: Transition,
    partners: [u8; 6],
    register: u8,
    rest: Option<Rest>,
}

// Inserts a key, which is one of so many, and says how many there are then. Table and count stay two parameters: the count after is
// the answer, and of a struct with both each clause would name two fields, before and after.
pub fn visit(table: &mut [u8], n: usize, key: u32, keys: u32) -> Result<usize, Full>
    requires { Stored keys n table.old × (key < keys) × (keys ≤ key_limit) }
    ensures { Visited keys (λ k. k ≡ key) n table.old result table.new }
{
    let added = key_set::insert(table, n, key, keys)?;
    Ok(n + usize::from(added))
}

// The register if it is in the set, else 0.
fn in_set(set: u8, i: u8) -> u8
    ensures { result ≡ in_set set i }
{
    (has(set, i) as u8) * i
}

impl Half {
    // The half that an edge makes of a position's matching.
    fn of(radix: Radix, p: Position, sums: Sums, edge: Transition, drops: bool) -> Self
        requires sized { Sized radix × Fits radix p × SumsOf radix p sums }
        requires undropped { drops ≡ false → Undropped radix p edge.target }
        ensures edge { result.edge ≡ edge }
        ensures half { HalfOf radix p result }
    {
        let left = edge.target;
        if !drops {
            return Half {
                edge,
                partners: p.partners,
                register: left.register,
                rest: Some(sums.rest(radix, p, left.register)),
            };
        }
        let mut partners = Position::EMPTY;
        for i in 0..Model::REGISTERS {
            partners[i as usize] = (has(left.set, i + 1) as u8) * p.partners[i as usize];
        }
        Half {
            edge,
            partners,
            register: in_set(left.set, left.register),
            rest: None,
        }
    }

    // The key of the position after both halves of a round, where the history then has this size, digit by digit: the position is
    // not made.
    fn key_by_digits(self, radix: Radix, size: u8, right: Target) -> u32
        requires { Sized radix × Fits radix (joined_to self size right) }
        ensures { result ≡ key_of radix (joined_to self size right) }
    {
        let mut front = (self.edge.target.state as u32) * (radix.right as u32)
            + (right.state as u32);
        for i in 0..radix.registers {
            let x = rounds::rejoined(
                self.register,
                right.register,
                i + 1,
                self.partners[i as usize],
            );
            front = front * PARTNER_BASE + (in_set(right.set, x) as u32);
        }
        front * radix.sizes() + ((size - radix.least) as u32)
    }

    // The same, by sums where the right edge drops no register either.
    fn key_after(self, radix: Radix, size: u8, right: Target, drops: bool) -> u32
        requires sized { Sized radix × Fits radix (joined_to self size right) }
        requires summed { drops ≡ false → SummedBy radix self right }
        ensures { result ≡ key_of radix (joined_to self size right) }
    {
        match self.rest {
            Some(rest) if !drops => {
                let states = (self.edge.target.state as u32) * (radix.right as u32)
                    + (right.state as u32);
                let joined = rest.word + (right.register as u32) * rest.place
                    - rest.adds[right.register as usize];
                let front = states * place_of(radix.registers) + joined;
                front * radix.sizes() + ((size - radix.least) as u32)
            }
            _ => self.key_by_digits(radix, size, right),
        }
    }
}

// Inserts the keys of the positions that a left and a right edge lead to, which can take one number. Two locally fresh edges take
// a new number, or one seen before if there is room for such; at the history's greatest size both lead to one position.
fn visit_pair(
    table: &mut [u8],
    n: usize,
    source: Source,
    half: Half,
    right: Transition,
    drops: bool,
) -> Result<usize, Full>
    requires stored { Stored source.keys n table.old × Keyed source }
    requires halves { Halves source.position half × (compatible source.position Left half.edge.kind right.kind ≡ true) }
    requires summed { drops ≡ false → SummedBy source.radix half right.target }
    requires pair_fits { PairFits source.radix source.room source.position half.edge right }
    ensures { Visited source.keys (PairKey source.radix source.room source.position half.edge right) n
        table.old result table.new }
{
    let before = source.position.history;
    let radix = source.radix;
    let size = rounds::size_after(half.edge.kind, right.kind, before);
    let key = half.key_after(radix, size, right.target, drops);
    let m = visit(table, n, key, source.keys)?;
    if source.room & (size != before) & rounds::also_seen(half.edge.kind, right.kind) {
        let seen = half.key_after(radix, before, right.target, drops);
        return visit(table, m, seen, source.keys);
    }
    Ok(m)
}

// Inserts the positions that a left edge leads to with right edges of a range. Whether they can take one number is asked first.
fn visit_edges(
    table: &mut [u8],
    n: usize,
    source: Source,
    half: Half,
    index: &TaskIndex,
    edges: Range,
) -> Result<usize, Full>
    requires stored { Stored source.keys n table.old × Keyed source }
    requires halves { Halves source.position half × RangeSummed index.now.bytes source.radix half edges }
    requires range_fits { RangeFits index.now.bytes source.radix source.room source.position half.edge edges }
    ensures { Visited source.keys (RangeKey index.now.bytes source.radix source.room source.position half.edge edges) n
        table.old result table.new }
{
    let partners = source.position.partners;
    let mut m = n;
    for k in edges.first..edges.end {
        let right = game_index::transition_at(index, Side::Right, k);
        if joint(&partners, half.edge.kind, right.kind) {
            let drops = game_index::drops_at(index, Side::Right, k);
            m = visit_pair(table, m, source, half, right, drops)?;
        }
    }
    Ok(m)
}

// Inserts the successors of a position.
pub fn visit_successors(
    table: &mut [u8],
    n: usize,
    index: &TaskIndex,
    source: Source,
) -> Result<usize, Full>
    requires stored { Stored source.keys n table.old }
    requires source_value { (source ≡ source_of (task_in index.now.bytes) source.position) × Expandable (task_in index.now.bytes) source.position }
    ensures { Visited source.keys (SuccessorKey (rules_in index.now.bytes) (task_in index.now.bytes) source.position) n
        table.old result table.new }
{
    let p = source.position;
    let sums = Sums::of(source.radix, p);
    let edges = game_index::edges_of(index, Side::Left, p.left);
    let mut m = n;
    for k in edges.first..edges.end {
        let e = game_index::edge_at(&index.bytes, Side::Left, k);
        let left = game_index::transition_at(index, Side::Left, k);
        let others = game_index::tagged(index, Side::Right, p.right, e.tag);
        let drops = game_index::drops_at(index, Side::Left, k);
        let half = Half::of(source.radix, p, sums, left, drops);
        m = visit_edges(table, m, source, half, index, others)?;
    }
    Ok(m)
}
