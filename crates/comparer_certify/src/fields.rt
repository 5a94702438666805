// The bytes of a certificate's records (01, "Verdict, table, certificate").
ghost use Rattle.std.specs.Prelude.{◌+◌, ◌≤◌, ◌<◌, ◌≡◌, length};
ghost use lib.Seq.{sets};
ghost use Rattle.outcome.specs.Certificate.{kept_record};
ghost use Rattle.outcome.specs.declared.Standing.TheVariants.{Lost};
ghost use Rattle.listing.specs.Widths.{kept_width, lost_width};
ghost use Rattle.listing.specs.Listing.{of_table, Searchable};
ghost use Rattle.outcome.specs.Verdicts.{width_of};
ghost use Rattle.comparer_certify.specs.RecordFields.{attack_width, attack_bytes, kind_in, record_in};

use comparer_leads::attack_of;
use fra::{Attack, Position};
use game_index::TaskIndex;
use game_index::layout::SIZE;
use listing::words::put_word;
use listing::{Listing, position_at, put_position, rounds_at};
use outcome::layout::{POSITION, ROUNDS, SIDE};
use outcome::{Standing, Verdict};

// The kind byte of the index's game.
fn kind_of(index: &[u8; SIZE], standing: Standing) -> u8
    ensures { result ≡ kind_in index.now standing }
{
    let verdict = Verdict::of(game_index::game(index), standing);
    verdict.kind()
}

// Writes a kind and a position.
fn put_head(buffer: &mut [u8], at: usize, kind: u8, p: Position)
    requires { at + kept_width ≤ length buffer.old }
    ensures { buffer.new ≡ sets buffer.old at (kept_record kind p) }
{
    buffer[at] = kind;
    put_position(buffer, at + POSITION, p);
}

// The side, edge and case of an attack, or zeros where there is none.
fn attack_bytes(attack: Option<Attack>) -> [u8; 3]
    ensures { result ≡ attack_bytes attack }
{
    match attack {
        Some(a) => [u8::from(a.side), a.edge, u8::from(a.case)],
        None => [0; 3],
    }
}

// Writes the side, edge and case of an attack, or zeros where there is none.
fn put_attack(buffer: &mut [u8], at: usize, attack: Option<Attack>)
    requires { at + attack_width ≤ length buffer.old }
    ensures { buffer.new ≡ sets buffer.old at (attack_bytes attack) }
{
    buffer[at..at + 3].copy_from_slice(&attack_bytes(attack));
}

// Table and n stay two parameters, as in comparer_marks: each clause on a struct of both reads `self.entry.table.now`.
// Writes the record of entry i, a lost position, whose rounds are doubled in the table.
fn put_loss(table: &[u8], n: usize, index: &TaskIndex, i: usize, buffer: &mut [u8], at: usize)
    requires searchable { Searchable (of_table n) table.now }
    requires bounds { (i < n) × (at + lost_width ≤ length buffer.old) }
    ensures { buffer.new ≡ sets buffer.old at (record_in index.now.bytes Lost n table.now i) }
{
    let entries = Listing::of_table(n);
    let p = position_at(table, entries, i);
    let rounds = rounds_at(table, entries, i) / 2;
    let attack = attack_of(table, n, index, p, rounds);
    put_head(buffer, at, kind_of(&index.bytes, Standing::Lost), p);
    put_attack(buffer, at + SIDE, attack);
    put_word(buffer, at + ROUNDS, rounds);
}

// Writes the record of entry i.
pub fn put_record(
    table: &[u8],
    n: usize,
    index: &TaskIndex,
    standing: Standing,
    i: usize,
    buffer: &mut [u8],
    at: usize,
)
    requires searchable { Searchable (of_table n) table.now }
    requires bounds { (i < n) × (at + width_of standing ≤ length buffer.old) }
    ensures { buffer.new ≡ sets buffer.old at (record_in index.now.bytes standing n table.now i) }
{
    match standing {
        Standing::Kept => {
            let p = position_at(table, Listing::of_table(n), i);
            put_head(buffer, at, kind_of(&index.bytes, Standing::Kept), p);
        }
        Standing::Lost => put_loss(table, n, index, i, buffer, at),
    }
}
