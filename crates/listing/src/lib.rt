// Records of positions in lent bytes, rising by position: the entries of the table, and the records of a certificate. One search
// looks a position up in either.
#![tactic(auto)]

ghost use Rattle.std.specs.Prelude.{◌+◌, ◌≤◌, ◌<◌, ◌≡◌, length, drop};
ghost use lib.Seq.{sets};
ghost use Rattle.fra.specs.Position.{bytes, before};
ghost use Rattle.outcome.specs.Check.{position_of};
ghost use Rattle.listing.specs.Widths.{position_width};
ghost use Rattle.listing.specs.Digits.{value};
ghost use Rattle.listing.specs.Listing.{of_table, of_kept, of_lost, position_at, rounds_at, positions_in, number_at, Fitting, Searchable, Bound};
ghost use Rattle.listing.specs.Lookup.{place_of};

use crate::words::word_at;
use fra::{Model, Position};
use outcome::layout;

pub mod words;

// How many records there are, the bytes of each, and where a record's position and rounds stand in it. Records without rounds
// have no use for their place.
#[derive(Clone, Copy)]
pub struct Listing {
    pub count: usize,
    pub width: usize,
    pub position: usize,
    pub rounds: usize,
}

impl Listing {
    // The first entries of the table.
    pub fn of_table(count: usize) -> Self
        ensures { result ≡ of_table count }
    {
        Listing {
            count,
            width: layout::ENTRY,
            position: 0,
            rounds: layout::ENTRY_ROUNDS,
        }
    }

    // A certificate's records of positions that are never lost.
    pub fn of_kept(count: usize) -> Self
        ensures { result ≡ of_kept count }
    {
        Listing {
            count,
            width: layout::KEPT_WIDTH,
            position: layout::POSITION,
            rounds: 0,
        }
    }

    // A certificate's records of lost positions.
    pub fn of_lost(count: usize) -> Self
        ensures { result ≡ of_lost count }
    {
        Listing {
            count,
            width: layout::LOST_WIDTH,
            position: layout::POSITION,
            rounds: layout::ROUNDS,
        }
    }
}

// Where the partners, and the history's size behind them, stand in a position's bytes.
const PARTNERS: usize = 2;

const HISTORY: usize = Position::WIDTH - 1;

// The position whose bytes start here.
fn position_from(list: &[u8], at: usize) -> Position
    requires { at + position_width ≤ length list.now }
    ensures { result ≡ position_of 6 (drop at list.now) }
{
    let mut partners = [0; Model::REGISTERS as usize];
    partners.copy_from_slice(&list[at + PARTNERS..at + HISTORY]);
    Position {
        left: list[at],
        right: list[at + 1],
        partners,
        history: list[at + HISTORY],
    }
}

// The position of record i.
pub fn position_at(list: &[u8], records: Listing, i: usize) -> Position
    requires { Fitting records list.now × (i < records.count) }
    ensures { result ≡ position_at records list.now i }
{
    position_from(list, i * records.width + records.position)
}

// The rounds of record i.
pub fn rounds_at(list: &[u8], records: Listing, i: usize) -> u32
    requires { Fitting records list.now × (i < records.count) }
    ensures { result ≡ rounds_at records list.now i }
{
    word_at(list, i * records.width + records.rounds)
}

// A position's bytes.
fn bytes_of(p: Position) -> [u8; Position::WIDTH]
    ensures { result ≡ bytes p }
{
    let a = p.partners;
    [
        p.left, p.right, a[0], a[1], a[2], a[3], a[4], a[5], p.history,
    ]
}

// Writes a position's bytes from a place on.
pub fn put_position(list: &mut [u8], at: usize, p: Position)
    requires { at + position_width ≤ length list.old }
    ensures { list.new ≡ sets list.old at (bytes p) }
{
    list[at..at + Position::WIDTH].copy_from_slice(&bytes_of(p));
}

// The number of a position's bytes, high byte first. It has more bits than a u64; the zeros fill up those of a u128.
fn number(b: &[u8]) -> u128
    requires { length b.now ≡ position_width }
    ensures { result ≡ value 256 0 b.now }
{
    u128::from_be_bytes([
        0, 0, 0, 0, 0, 0, 0, b[0], b[1], b[2], b[3], b[4], b[5], b[6], b[7], b[8],
    ])
}

// The number of record i's position.
fn number_at(list: &[u8], records: Listing, i: usize) -> u128
    requires { Fitting records list.now × (i < records.count) }
    ensures { result ≡ number_at records list.now i }
{
    let at = i * records.width + records.position;
    number(&list[at..at + Position::WIDTH])
}

// The order of positions by their bytes.
pub fn before(p: Position, q: Position) -> bool
    ensures { result ≡ before p q }
{
    number(&bytes_of(p)) < number(&bytes_of(q))
}

// The first record whose position's number is not below the sought one.
fn lower_bound(list: &[u8], records: Listing, sought: u128) -> usize
    requires { Searchable records list.now }
    ensures { Bound records list.now sought result }
{
    let mut low: usize = 0;
    let mut high = records.count;
    while low < high {
        let middle = low + (high - low) / 2;
        let below = number_at(list, records, middle) < sought;
        if below {
            low = middle + 1;
        } else {
            high = middle;
        }
    }
    low
}

// Looks a position up.
pub fn find(list: &[u8], records: Listing, p: Position) -> Option<usize>
    requires { Searchable records list.now }
    ensures { result ≡ place_of p (positions_in records list.now) }
{
    let sought = number(&bytes_of(p));
    let at = lower_bound(list, records, sought);
    let found = at < records.count && number_at(list, records, at) == sought;
    found.then_some(at)
}
