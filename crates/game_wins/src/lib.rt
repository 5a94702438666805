// The one walk through a position's attacks and their replies. A listing judges the positions that replies lead to, the table
// while ranking and certifying, a certificate while it is checked: an attack wins if all its replies lead to positions that are
// judged lost. `losing` are the pairs of states whose positions the listing is asked for.
#![tactic(auto)]

ghost use Rattle.std.specs.Prelude.{◌≡◌};
ghost use Rattle.listing.specs.Listing.{Searchable};
ghost use Rattle.game_index.specs.Reading.{task_in};
ghost use Rattle.game_state_pairs.specs.StatePairs.{has_pair};
ghost use Rattle.game_replies.specs.Challenges.{challenge_of, attack_of, after_reply};
ghost use Rattle.game_replies.specs.Winner.{wins_by};
ghost use Rattle.game_wins.specs.Judgement.{judged, judged_among};
ghost use Rattle.game_wins.specs.Wins.{edge_win, side_win, first_win};

use fra::{Attack, IdCase, Position, Side};
use game_index::TaskIndex;
use game_moves::cases;
use game_moves::rounds::Target;
use game_replies::{Challenge, next_reply};
use game_state_pairs::SIZE as PAIRS;
use listing::Listing;

// Which positions count as lost: those with fewer rounds than this, or those that are not listed.
#[derive(Clone, Copy)]
pub enum Test {
    Sooner(u32),
    Unlisted,
}

// A test and the listing that it is made by. The list's bytes go beside it: as a ghost field of a struct that holds them,
// `Searchable` is refused, since antt finds no proof that `Rising`, which goes by recursion, is a proposition.
#[derive(Clone, Copy)]
pub struct Judge {
    pub records: Listing,
    pub test: Test,
}

// The listing judges the position lost.
fn is_lost(list: &[u8], judge: Judge, q: Position) -> bool
    requires { Searchable judge.records list.now }
    ensures { result ≡ judged list.now judge q }
{
    let records = judge.records;
    let place = listing::find(list, records, q);
    match judge.test {
        Test::Sooner(rounds) => match place {
            Some(i) => listing::rounds_at(list, records, i) < rounds,
            None => false,
        },
        Test::Unlisted => place.is_none(),
    }
}

// A reply that leads there leads to a pair of states of the set.
fn may_be_lost(losing: &[u8; PAIRS], challenge: Challenge, reply: Target) -> bool
    ensures { (p : Position) → result ≡ has_pair losing.now (after_reply challenge p reply).left (after_reply challenge p reply).right }
{
    let own = challenge.target;
    match challenge.side {
        Side::Left => game_state_pairs::has(losing, own.state, reply.state),
        Side::Right => game_state_pairs::has(losing, reply.state, own.state),
    }
}

// A reply leads to a position that is judged lost. It is looked up only if its pair of states is one that has such.
fn leads_to_lost(
    list: &[u8],
    judge: Judge,
    losing: &[u8; PAIRS],
    p: Position,
    challenge: Challenge,
    reply: Target,
) -> bool
    requires { Searchable judge.records list.now }
    ensures { result ≡ judged_among losing.now list.now judge (after_reply challenge p reply) }
{
    if !may_be_lost(losing, challenge, reply) {
        return false;
    }
    is_lost(list, judge, challenge.after(p, reply))
}

// The attack wins: every reply leads to a position that is judged lost. A reply that does not exist settles the round.
pub fn settled(
    list: &[u8],
    judge: Judge,
    losing: &[u8; PAIRS],
    index: &TaskIndex,
    p: Position,
    challenge: Challenge,
) -> bool
    requires searchable { Searchable judge.records list.now }
    requires asked { challenge ≡ challenge_of (task_in index.now.bytes) p (attack_of challenge) }
    ensures { result ≡ wins_by (task_in index.now.bytes) (judged_among losing.now list.now judge) p
        (attack_of challenge) }
{
    let mut from = 0;
    loop {
        let Some(reply) = next_reply(index, challenge, from) else {
            return true;
        };
        if !leads_to_lost(list, judge, losing, p, challenge, reply.target) {
            return false;
        }
        from = reply.edge + 1;
    }
}

// The first case in which edge k of the side wins.
fn edge_win(
    list: &[u8],
    judge: Judge,
    losing: &[u8; PAIRS],
    index: &TaskIndex,
    p: Position,
    side: Side,
    k: u8,
) -> Option<Attack>
    requires { Searchable judge.records list.now }
    ensures { result ≡ edge_win (judged_among losing.now list.now judge) (task_in index.now.bytes) p side k }
{
    let away = side.other();
    let others = game_index::set_of(&index.bytes, away, p.state(away));
    let room = game_index::has_room(&index.bytes, p);
    let kind = game_index::edge_at(&index.bytes, side, k).kind;
    let held = Attack {
        side,
        edge: k,
        case: IdCase::Held,
    };
    let challenge = Challenge::of(index, p, held);
    let mut from = 0;
    loop {
        let (case, next) = cases::next_case(p, side, kind, others, room, from)?;
        if settled(list, judge, losing, index, p, challenge.in_case(case)) {
            return Some(Attack { case, ..held });
        }
        // A number seen before has no reply that a new one has not. At the greatest size of the history both lead to the same
        // positions: where the one does not win, the other does not.
        if (next == cases::NEW) & (Position::MOST_SEEN <= p.history) {
            return None;
        }
        from = next;
    }
}

// The first edge and case in which the side wins.
fn side_win(
    list: &[u8],
    judge: Judge,
    losing: &[u8; PAIRS],
    index: &TaskIndex,
    p: Position,
    side: Side,
) -> Option<Attack>
    requires { Searchable judge.records list.now }
    ensures { result ≡ side_win (judged_among losing.now list.now judge) index.now.bytes p side }
{
    if !game_index::attacks(&index.bytes, side) {
        return None;
    }
    let edges = game_index::edges_of(index, side, p.state(side));
    for k in edges.first..edges.end {
        if let Some(a) = edge_win(list, judge, losing, index, p, side, k) {
            return Some(a);
        }
    }
    None
}

// The first attack of a position, in order of side, edge, case, whose replies all lead to positions that are judged lost.
pub fn first_win(
    list: &[u8],
    judge: Judge,
    losing: &[u8; PAIRS],
    index: &TaskIndex,
    p: Position,
) -> Option<Attack>
    requires { Searchable judge.records list.now }
    ensures { result ≡ first_win (judged_among losing.now list.now judge) index.now.bytes p }
{
    let left = side_win(list, judge, losing, index, p, Side::Left);
    left.or_else(|| side_win(list, judge, losing, index, p, Side::Right))
}
