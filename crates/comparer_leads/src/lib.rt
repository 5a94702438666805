// What the attacks of a lost start lead to, marked in the table. Its rounds are doubled, so that marks can stand.
#![tactic(auto)]

ghost use Rattle.std.specs.Prelude.{◌<◌, ◌≡◌, Some};
ghost use Rattle.outcome.specs.Certificate.{attack_leads};
ghost use Rattle.listing.specs.Listing.{of_table, Searchable};
ghost use Rattle.game_index.specs.Reading.{task_in, rules_in};
ghost use Rattle.comparer_certify_laws.specs.MarkedRounds.{rounds_limit};
ghost use Rattle.comparer_certify_laws.specs.Marking.{marked_all, attack_by, led_from, passed, marking, prepared};

use comparer_marks::{doubled, mark, rescale};
use fra::{Attack, Position};
use game_index::TaskIndex;
use game_replies::{Challenge, next_reply};
use game_wins::{Judge, Test, first_win};
use listing::{Listing, position_at, rounds_at};

// The attack of a position of k rounds.
pub fn attack_of(table: &[u8], n: usize, index: &TaskIndex, p: Position, k: u32) -> Option<Attack>
    requires searchable { Searchable (of_table n) table.now }
    requires bounds { k < rounds_limit }
    ensures { result ≡ attack_by (rules_in index.now.bytes) (task_in index.now.bytes) n table.now k p }
{
    if k == 0 {
        return None;
    }
    let records = Listing::of_table(n);
    let test = Test::Sooner(k * 2);
    let all = game_state_pairs::ALL;
    first_win(table, Judge { records, test }, &all, index, p)
}

// Marks what the replies to an attack lead to.
fn mark_replies(table: &mut [u8], n: usize, index: &TaskIndex, p: Position, a: Attack)
    requires { Searchable (of_table n) table.old }
    ensures { table.new ≡ marked_all n (attack_leads (task_in index.now.bytes) p (Some a)) table.old }
{
    let challenge = Challenge::of(index, p, a);
    let mut from = 0;
    while let Some(reply) = next_reply(index, challenge, from) {
        mark(table, n, challenge.after(p, reply.target));
        from = reply.edge + 1;
    }
}

// Marks what the attack of entry i, which has k rounds, leads to.
fn lead(table: &mut [u8], n: usize, index: &TaskIndex, k: u32, i: usize)
    requires searchable { Searchable (of_table n) table.old }
    requires bounds { (k < rounds_limit) × (i < n) }
    ensures { table.new ≡ led_from (rules_in index.now.bytes) (task_in index.now.bytes) n k i table.old }
{
    let p = position_at(table, Listing::of_table(n), i);
    if let Some(a) = attack_of(table, n, index, p, k) {
        mark_replies(table, n, index, p, a);
    }
}

// Marks what the attacks of marked entries of k rounds lead to.
fn pass(table: &mut [u8], n: usize, index: &TaskIndex, k: u32)
    requires searchable { Searchable (of_table n) table.old }
    requires bounds { k < rounds_limit }
    ensures { table.new ≡ passed (rules_in index.now.bytes) (task_in index.now.bytes) n k n table.old }
{
    let entries = Listing::of_table(n);
    for i in 0..n {
        if rounds_at(table, entries, i) == k * 2 + 1 {
            lead(table, n, index, k, i);
        }
    }
}

// Marks what the attacks of marked entries lead to, from these rounds down.
fn mark_down(table: &mut [u8], n: usize, index: &TaskIndex, rounds: u32)
    requires searchable { Searchable (of_table n) table.old }
    requires bounds { rounds < rounds_limit }
    ensures { table.new ≡ marking (rules_in index.now.bytes) (task_in index.now.bytes) n rounds table.old }
{
    for k in (1..=rounds).rev() {
        pass(table, n, index, k);
    }
}

// Doubles the rounds of a table in which the start has this many, and marks the positions of the certificate: the start and
// what attacks lead to from there.
pub fn prepare(table: &mut [u8], n: usize, index: &TaskIndex, rounds: u32)
    requires searchable { Searchable (of_table n) table.old }
    requires bounds { rounds < rounds_limit }
    ensures { table.new ≡ prepared (rules_in index.now.bytes) (task_in index.now.bytes) n rounds table.old }
{
    rescale(table, n, doubled);
    mark(table, n, game_index::start(&index.bytes));
    mark_down(table, n, index, rounds);
}
