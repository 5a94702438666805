// What an attack asks of its replies, the test for them, and the search for them among the edges of the other side.
#![tactic(auto)]

ghost use Rattle.std.specs.Prelude.{◌≡◌, length};
ghost use Rattle.fra.specs.Game.{answers, is_reply};
ghost use Rattle.fra.specs.declared.Side.TheVariants.{Left};
ghost use Rattle.fra_laws.specs.Joint.{compatible};
ghost use Rattle.game_index.specs.Reading.{task_in};
ghost use Rattle.game_replies.specs.Challenges.{challenge_of, in_case, after_reply};
ghost use Rattle.game_replies.specs.ReplySearch.{reply_from};

use fra::{Attack, EdgeKind, IdCase, Model, Position, Side, left_partner, right_partner};
use game_index::{Range, TaskIndex};
use game_moves::rounds;
use game_moves::rounds::Target;

// An attack as its replies see it: where its edge leads, the partner of that edge's register, and the edges of the other side that
// start in its state and have the attack's tag. It holds no matching: what replies depend on is read once.
#[derive(Clone, Copy)]
pub struct Challenge {
    pub side: Side,
    pub edge: u8,
    pub case: IdCase,
    pub target: Target,
    pub partner: u8,
    pub edges: Range,
}

impl Challenge {
    // What an attack asks.
    pub fn of(index: &TaskIndex, p: Position, a: Attack) -> Self
        ensures { result ≡ challenge_of (task_in index.now.bytes) p a }
    {
        let side = a.side;
        let away = side.other();
        let e = game_index::edge_at(&index.bytes, side, a.edge);
        let target = game_index::transition_at(index, side, a.edge).target;
        Challenge {
            side,
            edge: a.edge,
            case: a.case,
            target,
            partner: p.partner(side, target.register),
            edges: game_index::tagged(index, away, p.state(away), e.tag),
        }
    }

    // The same edge in another id case.
    pub fn in_case(self, case: IdCase) -> Self
        ensures { result ≡ in_case self case }
    {
        Challenge { case, ..self }
    }

    // Edge k of the other side is a reply: it is among the edges that start in that side's state and have the attack's tag, and its
    // kind answers the id case.
    pub fn is_reply(self, index: &TaskIndex, k: u8) -> bool
        ensures { (p : Position) (a : Attack) → self ≡ challenge_of (task_in index.now.bytes) p a
            → result ≡ is_reply (task_in index.now.bytes) p a k }
    {
        let edges = self.edges;
        if (k < edges.first) | (edges.end <= k) {
            return false;
        }
        // The edges of a range are below the places for edges: the remainder costs no jump, as a comparison would.
        let kind = game_index::kind_at(&index.bytes, self.side.other(), k % Model::EDGES);
        answers(self.partner, self.case, kind)
    }

    // The position after a reply that leads there.
    pub fn after(self, p: Position, reply: Target) -> Position
        ensures { result ≡ after_reply self p reply }
    {
        let size = self.case.history_after(p.history);
        match self.side {
            Side::Left => rounds::moved(p, size, self.target, reply),
            Side::Right => rounds::moved(p, size, reply, self.target),
        }
    }
}

// A reply: the number of its edge in its model, and where that edge leads.
#[derive(Clone, Copy)]
pub struct Reply {
    pub edge: u8,
    pub target: Target,
}

// An edge of this kind answers the id case, where the attacking edge's register has this partner.
fn answers(partner: u8, case: IdCase, kind: EdgeKind) -> bool
    ensures { result ≡ answers partner case kind }
{
    match case {
        IdCase::Held => {
            let unpartnered = partner == 0;
            if unpartnered {
                kind.is_locally_fresh()
            } else {
                kind.is_known(partner)
            }
        }
        IdCase::Private(j) => kind.is_known(j),
        IdCase::Seen => kind.is_locally_fresh(),
        IdCase::New => kind.is_fresh(),
    }
}

// A left and a right edge of these kinds can take one number in a round, where the registers have these partners: if one of them is
// known, the other answers an attack with it; if both are fresh, they take a new number. The matching is not copied.
pub fn joint(partners: &[u8], left: EdgeKind, right: EdgeKind) -> bool
    requires { length partners.now ≡ 6 }
    ensures { (p : Position) → p.partners ≡ partners.now → result ≡ compatible p Left left right }
{
    let held = IdCase::Held;
    if !left.is_fresh() {
        return answers(right_partner(partners, left.register()), held, right);
    }
    if !right.is_fresh() {
        return answers(left_partner(partners, right.register()), held, left);
    }
    true
}

// The first reply to a challenge, from an edge's number on. Only the edges of the challenge are looked at; the number found is the
// edge's number in its model, and not a place among these.
pub fn next_reply(index: &TaskIndex, challenge: Challenge, from: u8) -> Option<Reply>
    ensures { (p : Position) (a : Attack) → challenge ≡ challenge_of (task_in index.now.bytes) p a
        → result ≡ reply_from (task_in index.now.bytes) p a from }
{
    let edges = challenge.edges;
    for k in edges.first.max(from)..edges.end {
        let found = challenge.is_reply(index, k);
        if found {
            let away = challenge.side.other();
            let target = game_index::target_at(index, away, k % Model::EDGES);
            return Some(Reply { edge: k, target });
        }
    }
    None
}
