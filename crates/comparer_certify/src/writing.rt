// The records of all entries that have one, written if they fit.
ghost use Rattle.std.specs.Prelude.{◌≤◌, ◌≡◌, length};
ghost use lib.Seq.{sets};
ghost use Rattle.listing.specs.Listing.{of_table, Searchable};
ghost use Rattle.comparer_certify.specs.RecordFields.{records_in};
ghost use Rattle.comparer_certify.specs.CertifyAnswers.{Certifies};

use crate::TooLong;
use crate::fields::put_record;
use comparer_marks::{count_listed, is_listed};
use game_index::TaskIndex;
use listing::{Listing, rounds_at};
use outcome::Standing;

// Writes the records from the buffer's start.
fn put_records(table: &[u8], n: usize, index: &TaskIndex, standing: Standing, buffer: &mut [u8])
    requires searchable { Searchable (of_table n) table.now }
    requires table_in_bounds { length (records_in index.now.bytes standing n table.now) ≤ length buffer.old }
    ensures { buffer.new ≡ sets buffer.old 0 (records_in index.now.bytes standing n table.now) }
{
    let entries = Listing::of_table(n);
    let mut at = 0;
    for i in 0..n {
        if is_listed(standing, rounds_at(table, entries, i)) {
            put_record(table, n, index, standing, i, buffer, at);
            at += standing.width();
        }
    }
}

// Writes the records, counted first, if they fit, and returns their length.
pub fn write(
    table: &[u8],
    n: usize,
    index: &TaskIndex,
    standing: Standing,
    buffer: &mut [u8],
) -> Result<usize, TooLong>
    requires { Searchable (of_table n) table.now }
    ensures { Certifies (records_in index.now.bytes standing n table.now) table.now buffer.old result table.now buffer.new }
{
    let size = count_listed(table, n, standing) * standing.width();
    if buffer.len() < size {
        return Err(TooLong);
    }
    put_records(table, n, index, standing, buffer);
    Ok(size)
}
