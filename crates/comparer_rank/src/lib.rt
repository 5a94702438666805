// Ranks by passes over the sorted table in its final layout: after pass k an entry's rounds are exact if at most k, else
// FF FF FF FF. A reply counts as lost in pass k if its rounds are fewer than k, so marks of the same pass do not count. From
// pass 2 on a pass looks only at positions whose states lead to the states of one that the pass before has marked (`worth`).
// Where a reply leads is looked up only if positions with its states are lost (`losing`).
#![tactic(auto)]

ghost use Rattle.std.specs.Prelude.{◌*◌, ◌<◌, ◌≡◌, ◌++◌, drop};
ghost use Rattle.outcome.specs.Bytes.{all_ones};
ghost use Rattle.outcome.specs.Certificate.{entries};
ghost use Rattle.listing.specs.Widths.{entry_width};
ghost use Rattle.listing.specs.Listing.{of_table, Fitting, Searchable};
ghost use Rattle.game_index.specs.Reading.{task_in, rules_in};
ghost use Rattle.comparer_rank.specs.RankPasses.{ranks_in, Begins, Ready, Leveled, gains, loses, marked_if};

use game_index::TaskIndex;
use game_index::layout::SIZE;
use game_state_pairs::SIZE as PAIRS;
use game_wins::{Judge, Test, first_win};
use listing::words::put_word;
use listing::{Listing, position_at, rounds_at};
use outcome::layout::{ENTRY, ENTRY_ROUNDS, NEVER};

// Pass 0 at entry i.
fn mark_at_once(table: &mut [u8], n: usize, index: &[u8; SIZE], i: usize)
    requires { Fitting (of_table n) table.old × (i < n) }
    ensures { table.new ≡ marked_if (loses index.now n table.old i) table.old i 0 }
{
    let p = position_at(table, Listing::of_table(n), i);
    if game_index::lost_at_once(index, p) {
        put_word(table, i * ENTRY + ENTRY_ROUNDS, 0);
    }
}

// Pass 0: rounds 0 where the end marks lose at once.
fn pass_zero(table: &mut [u8], n: usize, index: &TaskIndex)
    requires { Begins index.now.bytes (λ p. all_ones) n table.old }
    ensures { Leveled index.now.bytes 0 n table.old table.new }
{
    for i in 0..n {
        mark_at_once(table, n, &index.bytes, i);
    }
}

// Pass k at entry i, if its pair of states is worth a look; the answer is whether the entry was marked.
fn mark(
    table: &mut [u8],
    n: usize,
    index: &TaskIndex,
    losing: &[u8; PAIRS],
    worth: &[u8; PAIRS],
    k: u32,
    i: usize,
) -> bool
    requires { Searchable (of_table n) table.old × (i < n) }
    ensures value { result ≡ gains index.now.bytes table.old n losing.now worth.now k i }
    ensures table_after { table.new ≡ marked_if result table.old i k }
{
    let records = Listing::of_table(n);
    let p = position_at(table, records, i);
    if !game_state_pairs::has(worth, p.left, p.right) {
        return false;
    }
    if rounds_at(table, records, i) != NEVER {
        return false;
    }
    let test = Test::Sooner(k);
    let win = first_win(table, Judge { records, test }, losing, index, p);
    if win.is_none() {
        return false;
    }
    put_word(table, i * ENTRY + ENTRY_ROUNDS, k);
    true
}

// Pass k: rounds k where an attack wins by positions of fewer rounds; the answer is whether an entry was marked.
fn pass(
    table: &mut [u8],
    n: usize,
    index: &TaskIndex,
    losing: &[u8; PAIRS],
    worth: &[u8; PAIRS],
    k: u32,
) -> bool
    requires { Ready index.now.bytes k n table.old losing.now worth.now }
    ensures value { result ≡ ranks_in index.now.bytes k }
    ensures leveled { Leveled index.now.bytes k n table.old table.new }
{
    let mut marked = false;
    for i in 0..n {
        if mark(table, n, index, losing, worth, k, i) {
            marked = true;
        }
    }
    marked
}

// Gives the n positions reached, which the table begins with, their rounds.
pub fn rank(table: &mut [u8], n: usize, index: &TaskIndex)
    requires { Begins index.now.bytes (λ p. all_ones) n table.old }
    ensures { table.new ≡ entries (rules_in index.now.bytes) (task_in index.now.bytes) ++ drop (n * entry_width) table.old }
{
    pass_zero(table, n, index);
    let mut losing = comparer_state_pairs::lost_pairs(table, n, 0, 1);
    // An attack without a reply wins in pass 1 whatever pass 0 has marked.
    let mut worth = game_state_pairs::ALL;
    let mut k: u32 = 1;
    while pass(table, n, index, &losing, &worth, k) {
        let next = k + 1;
        let lost = comparer_state_pairs::lost_pairs(table, n, k, next);
        losing = comparer_state_pairs::lost_pairs(table, n, 0, next);
        worth = comparer_state_pairs::sources(&index.bytes, &lost);
        k = next;
    }
}
