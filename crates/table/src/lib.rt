// The lent table (01, "Verdict, table, certificate"). While positions are explored it begins with their keys, a word each;
// afterwards an entry holds a position's bytes and its rounds.
#![tactic(auto)]

ghost use Rattle.std.specs.Prelude.{◌≡◌, ◌+◌, ◌*◌, ◌≤◌, ◌++◌, length, take, drop};
ghost use lib.Seq.{sets};
ghost use Rattle.outcome.specs.Bytes.{all_ones, cleared, then_zeros};
ghost use Rattle.listing.specs.Widths.{entry_width};
ghost use Rattle.table_keys.specs.Keys.{key_count, Sized};
ghost use Rattle.table_laws.specs.Table.{keys, KeysBelow, laid_out, row};

use fra::Position;
use listing::put_position;
use listing::words::{put_word, word_at};
use outcome::layout::{ENTRY, ENTRY_ROUNDS, NEVER, WORD};
use table_keys::{Radix, position};

// Fills the table with zeros.
pub fn clear(table: &mut [u8])
    ensures { table.new ≡ cleared table.old }
{
    table.fill(0);
}

// Fills the table with zeros from a place on.
pub fn clear_from(table: &mut [u8], at: usize)
    requires { at ≤ length table.old }
    ensures { table.new ≡ then_zeros (take at table.old) table.old }
{
    clear(&mut table[at..]);
}

// Writes entry i: a position that is never lost.
fn put_row(table: &mut [u8], i: usize, p: Position)
    requires { i * entry_width + entry_width ≤ length table.old }
    ensures { table.new ≡ sets table.old (i * entry_width) (row p all_ones) }
{
    put_position(table, i * ENTRY, p);
    put_word(table, i * ENTRY + ENTRY_ROUNDS, NEVER);
}

// Turns the first n keys into entries of positions that are never lost. An entry is wider than a key: the last one is made first, so
// that no key is overwritten before it is read.
pub fn lay_out(table: &mut [u8], n: usize, radix: Radix)
    requires { (n * entry_width ≤ length table.old) × Sized radix × KeysBelow (key_count radix) n table.old }
    ensures { table.new ≡ laid_out radix (keys n table.old) ++ drop (n * entry_width) table.old }
{
    for i in (0..n).rev() {
        put_row(table, i, position(radix, word_at(table, i * WORD)));
    }
}
