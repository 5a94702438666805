// Acceptance of a well-formed list: of kept positions, each of whose attacks must have a reply that leads to a listed one, or of
// losses, whose attacks must lead to listed positions of fewer rounds alone; with the start among them. The standing says which of
// the two it is.
#![tactic(auto)]

ghost use Rattle.std.specs.Prelude.{◌<◌, ◌≡◌, length, Some};
ghost use Rattle.outcome.specs.Check.{holds, forces, loss_holds};
ghost use Rattle.outcome.specs.declared.Standing.TheVariants.{Kept, Lost};
ghost use Rattle.listing.specs.Listing.{Searchable};
ghost use Rattle.game_index.specs.Reading.{task_in, rules_in};
ghost use Rattle.checker_laws.specs.CertificateRecords.{records_of, kept_in, loss_at, losses_in};
ghost use Rattle.checker_laws.specs.CheckAnswers.{lost_already, record_holds, accepted_by, rounds_by};
ghost use Rattle.checker_acceptance.specs.RecordTests.{Testable, loss_of};

use checker_attacks::{attack_named, is_attack};
use fra::{Attack, Position};
use game_index::TaskIndex;
use game_index::layout::SIZE;
use game_replies::Challenge;
use game_state_pairs::SIZE as PAIRS;
use game_wins::{Judge, Test, first_win, settled};
use listing::{Listing, find, position_at, rounds_at};
use outcome::{Standing, layout};

// What a record of a lost position claims.
#[derive(Clone, Copy, Debug, PartialEq, Eq)]
pub struct Claim {
    pub position: Position,
    pub side: u8,
    pub edge: u8,
    pub case: u8,
    pub rounds: u32,
}

// The whole records of a certificate of this length.
pub fn records_of(standing: Standing, length: usize) -> Listing
    ensures { result ≡ records_of standing length }
{
    match standing {
        Standing::Kept => Listing::of_kept(length / layout::KEPT_WIDTH),
        Standing::Lost => Listing::of_lost(length / layout::LOST_WIDTH),
    }
}

// ── Kept positions ──

// A kept position holds: its end marks do not lose, and no attack has only replies that lead to positions which are not listed.
fn kept_holds(index: &TaskIndex, certificate: &[u8], pairs: &[u8; PAIRS], p: Position) -> bool
    requires { Testable Kept index.now.bytes certificate.now pairs.now }
    ensures { result ≡ holds (rules_in index.now.bytes) (task_in index.now.bytes) (kept_in certificate.now) p }
{
    let lost = game_index::lost_at_once(&index.bytes, p);
    if lost {
        return false; // for its end marks lose
    }
    let records = records_of(Standing::Kept, certificate.len());
    let test = Test::Unlisted;
    let win = first_win(certificate, Judge { records, test }, pairs, index, p);
    win.is_none()
}

// ── Losses ──

// What record i of a list of losses claims.
fn claim_at(certificate: &[u8], i: usize) -> Claim
    requires { i < (records_of Lost (length certificate.now)).count }
    ensures { loss_of result ≡ loss_at certificate.now i }
{
    let records = records_of(Standing::Lost, certificate.len());
    let at = i * layout::LOST_WIDTH;
    let position = position_at(certificate, records, i);
    Claim {
        position,
        side: certificate[at + layout::SIDE],
        edge: certificate[at + layout::EDGE],
        case: certificate[at + layout::CASE],
        rounds: rounds_at(certificate, records, i),
    }
}

// The attack exists, and every reply leads to a listed position of fewer rounds than the record has.
fn forces(index: &TaskIndex, certificate: &[u8], pairs: &[u8; PAIRS], x: Claim, a: Attack) -> bool
    requires { Testable Lost index.now.bytes certificate.now pairs.now }
    ensures { result ≡ forces (rules_in index.now.bytes) (task_in index.now.bytes) (losses_in certificate.now) (loss_of x) (Some a) }
{
    let p = x.position;
    let there = is_attack(&index.bytes, p, a);
    if !there {
        return false; // for there is no such attack
    }
    let records = records_of(Standing::Lost, certificate.len());
    let test = Test::Sooner(x.rounds);
    let challenge = Challenge::of(index, p, a);
    settled(
        certificate,
        Judge { records, test },
        pairs,
        index,
        p,
        challenge,
    )
}

// The end marks lose, and no attack is named.
fn lost_already(index: &[u8; SIZE], x: Claim) -> bool
    ensures { result ≡ lost_already (rules_in index.now) (task_in index.now) (loss_of x) }
{
    let lost = game_index::lost_at_once(index, x.position);
    if !lost {
        return false; // for its end marks do not lose
    }
    x.side == 0 && x.edge == 0 && x.case == 0
}

// A record of a lost position holds.
fn loss_holds(index: &TaskIndex, certificate: &[u8], pairs: &[u8; PAIRS], x: Claim) -> bool
    requires { Testable Lost index.now.bytes certificate.now pairs.now }
    ensures { result ≡ loss_holds (rules_in index.now.bytes) (task_in index.now.bytes) (losses_in certificate.now) (loss_of x) }
{
    if x.rounds == 0 {
        return lost_already(&index.bytes, x);
    }
    match attack_named(x.side, x.edge, x.case) {
        Some(a) => forces(index, certificate, pairs, x, a),
        None => false,
    }
}

// ── Either ──

// Record i holds.
fn record_holds(
    index: &TaskIndex,
    certificate: &[u8],
    pairs: &[u8; PAIRS],
    standing: Standing,
    i: usize,
) -> bool
    requires testable { Testable standing index.now.bytes certificate.now pairs.now }
    requires i_bound { i < (records_of standing (length certificate.now)).count }
    ensures { result ≡ record_holds (rules_in index.now.bytes) (task_in index.now.bytes) standing certificate.now i }
{
    match standing {
        Standing::Kept => {
            let records = records_of(Standing::Kept, certificate.len());
            kept_holds(
                index,
                certificate,
                pairs,
                position_at(certificate, records, i),
            )
        }
        Standing::Lost => loss_holds(index, certificate, pairs, claim_at(certificate, i)),
    }
}

// The list is accepted: the start is listed, and every record holds.
pub fn accepted(index: &TaskIndex, certificate: &[u8], standing: Standing) -> bool
    requires { Searchable (records_of standing (length certificate.now)) certificate.now }
    ensures { result ≡ accepted_by (rules_in index.now.bytes) (task_in index.now.bytes) standing certificate.now }
{
    let records = records_of(standing, certificate.len());
    let place = find(certificate, records, game_index::start(&index.bytes));
    let listed = place.is_some();
    if !listed {
        return false; // for the start is not listed
    }
    let pairs = game_state_pairs::ALL;
    for i in 0..records.count {
        if !record_holds(index, certificate, &pairs, standing, i) {
            return false;
        }
    }
    true
}

// The rounds that acceptance returns: those that the start is listed with, 0 for kept positions.
pub fn start_rounds(index: &[u8; SIZE], certificate: &[u8], standing: Standing) -> u32
    requires { Searchable (records_of standing (length certificate.now)) certificate.now }
    ensures { result ≡ rounds_by (task_in index.now) standing certificate.now }
{
    let Standing::Lost = standing else {
        return 0;
    };
    let records = records_of(Standing::Lost, certificate.len());
    match find(certificate, records, game_index::start(index)) {
        Some(i) => rounds_at(certificate, records, i),
        None => 0,
    }
}
