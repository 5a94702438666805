// The set of keys in the lent table: it begins with a column of words, the keys found, in order of discovery. Whether a key is among
// them is told by a bit for each possible key where these fit behind two words for each entry, and by hash chains otherwise. The two
// ways share a contract and no code: one looks a bit up, the other walks along links.
#![tactic(auto)]

mod bits;
mod chains;

ghost use Rattle.std.specs.Prelude.{◌≤◌, ◌<◌, ◌≡◌};
ghost use Rattle.table_keys.specs.Keys.{key_limit};
ghost use Rattle.table_laws.specs.Sorted.{sorted};
ghost use Rattle.table_laws.specs.Table.{keys, with_keys};
ghost use Rattle.key_set_laws.specs.Bits.{bits_fit};
ghost use Rattle.key_set_laws.specs.Stored.{Stored};
ghost use Rattle.key_set.specs.Insertions.{Inserts};

use outcome::layout::ENTRY;

// No entry is left.
#[derive(Clone, Copy, Debug, PartialEq, Eq)]
pub struct Full;

// An entry has five bytes beside its two words.
const BITS_EACH: usize = 40;

// A table of so many entries has room for a bit for each of `space` keys. The bits are rounded up to whole entries, since their
// number in the entries may be more than a usize holds.
fn bits_fit(space: u32, entries: usize) -> bool
    ensures { result ≡ bits_fit space entries }
{
    (space as usize).div_ceil(BITS_EACH) <= entries
}

// Inserts a key into the set of the first n keys, all of which are below `space`, and says whether it was added.
pub fn insert(table: &mut [u8], n: usize, key: u32, space: u32) -> Result<bool, Full>
    requires { Stored space n table.old × (key < space) × (space ≤ key_limit) }
    ensures { Inserts space n key table.old result table.new }
{
    if bits_fit(space, table.len() / ENTRY) {
        return bits::insert(table, n, key);
    }
    chains::insert(table, n, key)
}

// Puts the first n keys, all of which are below `space`, in order.
pub fn put_in_order(table: &mut [u8], n: usize, space: u32)
    requires { Stored space n table.old × (space ≤ key_limit) }
    ensures { table.new ≡ with_keys (sorted (keys n table.old)) table.old }
{
    if bits_fit(space, table.len() / ENTRY) {
        bits::collect(table, space);
        return;
    }
    table_sorting::sort_keys(table, n);
}
