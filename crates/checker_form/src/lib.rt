// The form of a proposed certificate: whole records of one kind, with legal positions that rise strictly.
#![tactic(auto)]

ghost use Rattle.std.specs.Prelude.{◌<◌, ◌≡◌};
ghost use Rattle.game_index.specs.Reading.{task_in};
ghost use Rattle.listing.specs.Listing.{Fitting};
ghost use Rattle.checker_laws.specs.CertificateRecords.{rises_at, formed_at, formed};

use crate::legality::legal;
use game_index::layout::SIZE;
use listing::{Listing, before, position_at};

mod legality;

// The position of record i comes after that of the record before it, if there is one.
fn rises(certificate: &[u8], records: Listing, i: usize) -> bool
    requires { Fitting records certificate.now × (i < records.count) }
    ensures { result ≡ rises_at records certificate.now i }
{
    if i == 0 {
        return true;
    }
    let previous = position_at(certificate, records, i - 1);
    let position = position_at(certificate, records, i);
    before(previous, position)
}

// Record i has this kind and a legal position, and rises.
fn record_formed(
    index: &[u8; SIZE],
    certificate: &[u8],
    kind: u8,
    records: Listing,
    i: usize,
) -> bool
    requires { Fitting records certificate.now × (i < records.count) }
    ensures { result ≡ formed_at (task_in index.now) kind records certificate.now i }
{
    if certificate[i * records.width] != kind {
        return false;
    }
    if !legal(index, position_at(certificate, records, i)) {
        return false;
    }
    rises(certificate, records, i)
}

// Whole records of this kind, each of them well formed.
pub fn formed(index: &[u8; SIZE], certificate: &[u8], kind: u8, records: Listing) -> bool
    requires { Fitting records certificate.now }
    ensures { result ≡ formed (task_in index.now) kind records certificate.now }
{
    let cut = certificate.len() % records.width != 0;
    if cut {
        return false;
    }
    for i in 0..records.count {
        if !record_formed(index, certificate, kind, records, i) {
            return false;
        }
    }
    true
}
