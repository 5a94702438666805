// Which positions a pass of ranking can leave alone: those from whose states no round leads to the states of a position lost in
// the pass before. And which it need not look up: those with whose states none is lost.
#![tactic(auto)]

ghost use Rattle.std.specs.Prelude.{◌≡◌};
ghost use Rattle.listing.specs.Listing.{of_table, Fitting};
ghost use Rattle.game_index.specs.Reading.{task_in};
ghost use Rattle.comparer_rank_laws.specs.Sources.{between, lost_pairs, leads_into, with_sources, sources};

use fra::{Edge, Side};
use game_index::layout::SIZE;
use game_state_pairs::{SIZE as PAIRS, add, has};
use listing::{Listing, position_at, rounds_at};

// The rounds are not fewer than `from`, and fewer than `below`.
fn between(rounds: u32, from: u32, below: u32) -> bool
    ensures { result ≡ between from below rounds }
{
    (from..below).contains(&rounds)
}

// The pairs of the positions of the first n entries whose rounds are not fewer than `from`, and fewer than `below`.
#[tactic(auto, unfolding(comparer_rank_laws::specs::Sources::with_pairs))]
pub fn lost_pairs(table: &[u8], n: usize, from: u32, below: u32) -> [u8; PAIRS]
    requires { Fitting (of_table n) table.now }
    ensures { result ≡ lost_pairs table.now from below n }
{
    let entries = Listing::of_table(n);
    let mut lost = [0u8; PAIRS];
    for i in 0..n {
        if between(rounds_at(table, entries, i), from, below) {
            let p = position_at(table, entries, i);
            add(&mut lost, p.left, p.right);
        }
    }
    lost
}

// A left and a right edge have one tag, and lead to a pair of the set.
fn leads_into(pairs: &[u8; PAIRS], e: Edge, f: Edge) -> bool
    ensures { result ≡ leads_into pairs.now e f }
{
    e.tag == f.tag && has(pairs, e.to, f.to)
}

// Adds the pairs from which left edge e and a right edge of its tag lead to a pair of `lost`.
#[tactic(auto, unfolding(comparer_rank_laws::specs::Sources::with_pairs, game_index::specs::Reading::task_in))]
fn add_sources(pairs: &mut [u8; PAIRS], lost: &[u8; PAIRS], e: Edge, index: &[u8; SIZE])
    ensures { pairs.new ≡ with_sources lost.now e (task_in index.now).right pairs.old }
{
    let end = game_index::edge_count(index, Side::Right);
    for j in 0..end {
        let f = game_index::edge_at(index, Side::Right, j);
        if leads_into(lost, e, f) {
            add(pairs, e.from, f.from);
        }
    }
}

// The pairs from which a left and a right edge of one tag lead to a pair of `lost`.
#[tactic(auto, unfolding(comparer_rank_laws::specs::Sources::sources_to, game_index::specs::Reading::task_in))]
pub fn sources(index: &[u8; SIZE], lost: &[u8; PAIRS]) -> [u8; PAIRS]
    ensures { result ≡ sources (task_in index.now) lost.now }
{
    let end = game_index::edge_count(index, Side::Left);
    let mut pairs = [0u8; PAIRS];
    for i in 0..end {
        let e = game_index::edge_at(index, Side::Left, i);
        add_sources(&mut pairs, lost, e, index);
    }
    pairs
}
