// Marks in a table of ranked positions. While marks stand, the rounds of an entry are doubled, and 1 more where the entry is
// marked; FF FF FF FF stays as it is.
#![tactic(auto)]

ghost use Rattle.std.specs.Prelude.{ℕ, ◌≡◌, length};
ghost use Rattle.listing.specs.Listing.{of_table, Fitting, Searchable};
ghost use Rattle.comparer_certify_laws.specs.MarkedRounds.{doubled, halved, with_mark, is_marked};
ghost use Rattle.comparer_certify_laws.specs.Marking.{changed, rounds_for, marked};
ghost use Rattle.comparer_certify_laws.specs.EntryRecords.{is_listed, listed_places};
ghost use Rattle.comparer_marks.specs.Scaling.{Computes};

use fra::Position;
use listing::words::put_word;
use listing::{Listing, find, rounds_at};
use outcome::Standing;
use outcome::layout::{ENTRY, ENTRY_ROUNDS, NEVER};

// Table and n stay two parameters, also in ranking and leads: each clause on a struct of both reads `self.entry.table.now`.
// The rounds of a position among the first n entries.
pub fn rounds_of(table: &[u8], n: usize, q: Position) -> u32
    requires { Searchable (of_table n) table.now }
    ensures { result ≡ rounds_for n q table.now }
{
    let entries = Listing::of_table(n);
    let Some(i) = find(table, entries, q) else {
        return NEVER;
    };
    rounds_at(table, entries, i)
}

// As many rounds no position has: there are fewer positions.
const LIMIT: u32 = 2147483648;

// The rounds while marks can stand.
pub fn doubled(rounds: u32) -> u32
    ensures { result ≡ doubled rounds }
{
    if rounds == NEVER {
        return NEVER;
    }
    rounds % LIMIT * 2
}

// Doubled rounds, marked or not, as they were.
pub fn halved(rounds: u32) -> u32
    ensures { result ≡ halved rounds }
{
    if rounds == NEVER {
        return NEVER;
    }
    rounds / 2
}

// Changes the rounds of the first n entries by a function.
pub fn rescale<F: Fn(u32) -> u32>(table: &mut [u8], n: usize, scale: F)
    requires fitting { Fitting (of_table n) table.old }
    requires callable { F.IsAlwaysCallable scale }
    ensures { (f : ℕ → ℕ) → Computes (F.post scale) f → table.new ≡ changed f n table.old }
{
    let entries = Listing::of_table(n);
    for i in 0..n {
        let rounds = rounds_at(table, entries, i);
        put_word(table, i * ENTRY + ENTRY_ROUNDS, scale(rounds));
    }
}

// The rounds with a mark.
fn with_mark(rounds: u32) -> u32
    ensures { result ≡ with_mark rounds }
{
    rounds - rounds % 2 + 1
}

// Marks the entry of a position among the first n.
pub fn mark(table: &mut [u8], n: usize, q: Position)
    requires { Searchable (of_table n) table.old }
    ensures { table.new ≡ marked n q table.old }
{
    let entries = Listing::of_table(n);
    if let Some(i) = find(table, entries, q) {
        let rounds = rounds_at(table, entries, i);
        put_word(table, i * ENTRY + ENTRY_ROUNDS, with_mark(rounds));
    }
}

fn is_marked(rounds: u32) -> bool
    ensures { result ≡ is_marked rounds }
{
    rounds % 2 == 1 && rounds != NEVER
}

// An entry with these rounds has a record in the certificate of the standing.
pub fn is_listed(standing: Standing, rounds: u32) -> bool
    ensures { result ≡ is_listed standing rounds }
{
    match standing {
        Standing::Kept => rounds == NEVER,
        Standing::Lost => is_marked(rounds),
    }
}

// How many of the first n entries have a record.
pub fn count_listed(table: &[u8], n: usize, standing: Standing) -> usize
    requires { Fitting (of_table n) table.now }
    ensures { result ≡ length (listed_places standing n table.now) }
{
    let entries = Listing::of_table(n);
    let mut found = 0;
    for i in 0..n {
        if is_listed(standing, rounds_at(table, entries, i)) {
            found += 1;
        }
    }
    found
}
