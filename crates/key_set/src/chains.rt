// A chained hash set with a bucket for each entry: behind the keys stand a column of links and one of heads. A link or head is an
// entry's number plus one, or 0 for none.
ghost use Rattle.std.specs.Prelude.{ℕ, ◌*◌, ◌^◌, ◌≤◌, ◌<◌, ◌≡◌, false, length};
ghost use Rattle.outcome.specs.Compare.{capacity};
ghost use Rattle.listing.specs.Widths.{entry_width};
ghost use Rattle.table_keys.specs.Keys.{key_limit};
ghost use Rattle.key_set_laws.specs.HashChains.{Chained};
ghost use Rattle.key_set_laws.specs.Bits.{bits_fit};
ghost use Rattle.key_set_laws.specs.Stored.{bucket_of, head_place, entries_of, with_entry, Stored, Walkable, Walked};
ghost use Rattle.key_set.specs.Insertions.{Inserts};

use crate::Full;
use listing::words::{put_word, word_at};
use outcome::layout::{ENTRY, WORD};

// As many buckets are used at most.
const MOST_BUCKETS: usize = 67108864;

// A hash is of 32 bits, by the factor of a multiplicative hash: 2 to the 32nd divided by the golden ratio.
const HASH_LIMIT: u64 = 4294967296;

const HASH_FACTOR: u64 = 2654435769;

// The bucket of a key, by a multiplicative hash that is scaled, since a division would take longer than the rest.
fn bucket(key: u32, buckets: usize) -> usize
    requires { 0 < buckets }
    ensures { (result ≡ bucket_of buckets key) × (result < buckets) }
{
    let used = buckets.min(MOST_BUCKETS) as u64;
    let hash = (key as u64) * HASH_FACTOR % HASH_LIMIT;
    (hash * used / HASH_LIMIT) as usize
}

// The chain from a head has the key.
fn walk(table: &[u8], entries: usize, key: u32, head: u32) -> bool
    requires { Walkable entries table.now head }
    ensures { Walked entries table.now key head result }
{
    let mut at = head as usize;
    while 0 < at {
        let i = at - 1;
        if word_at(table, i * WORD) == key {
            return true;
        }
        at = word_at(table, entries * WORD + i * WORD) as usize;
    }
    false
}

// Where the head of bucket b stands.
fn head_place(entries: usize, b: usize) -> usize
    requires { (b < entries) × (entries * entry_width < 2 ^ 64) }
    ensures { result ≡ head_place entries b }
{
    entries * WORD + entries * WORD + b * WORD
}

// Writes entry n, before the chain of bucket b. Its head is read after the key is written: read before, it would share its four
// bytes with the walk's look at it, which then took a byte at a time.
fn put_entry(table: &mut [u8], entries: usize, n: usize, key: u32, b: usize)
    requires { (n < entries) × (b < entries) × (n ≤ key_limit) × (entries * entry_width ≤ length table.old) }
    ensures { table.new ≡ with_entry entries table.old n key b }
{
    let at = head_place(entries, b);
    put_word(table, n * WORD, key);
    let head = word_at(table, at);
    put_word(table, entries * WORD + n * WORD, head);
    put_word(table, at, (n + 1) as u32);
}

// Inserts a key into the set of the first n keys, which are chained.
pub fn insert(table: &mut [u8], n: usize, key: u32) -> Result<bool, Full>
    requires chained { Chained (capacity table.old) (bucket_of (capacity table.old)) n (entries_of (capacity table.old) table.old) }
    requires n_bound { (n ≤ capacity table.old) × (n ≤ key_limit) }
    ensures { (space : ℕ) → Stored space n table.old → bits_fit space (capacity table.old) ≡ false
        → key < space → Inserts space n key table.old result table.new }
{
    let entries = table.len() / ENTRY;
    if entries == 0 {
        return Err(Full);
    }
    let b = bucket(key, entries);
    let head = word_at(table, head_place(entries, b));
    if walk(table, entries, key, head) {
        return Ok(false);
    }
    if n < entries {
        put_entry(table, entries, n, key, b);
        return Ok(true);
    }
    Err(Full)
}
