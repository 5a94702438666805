// The attack that a record of a certificate names, and whether it exists.
#![tactic(auto)]

ghost use Rattle.std.specs.Prelude.{◌≡◌};
ghost use Rattle.fra.specs.Game.{is_attack};
ghost use Rattle.fra.specs.AttackNumbers.{side_of, case_of};
ghost use Rattle.outcome.specs.Check.{attack_from};
ghost use Rattle.game_index.specs.Reading.{task_in, rules_in};

use fra::{Attack, IdCase, Position, Side};
use game_index::layout::SIZE;
use game_moves::cases::has_case;

// The attack that a record's numbers name, if they name one.
pub fn attack_named(side: u8, edge: u8, case: u8) -> Option<Attack>
    ensures { result ≡ attack_from (side_of side) edge (case_of 6 case) }
{
    let side = Side::of(side)?;
    let case = IdCase::of(case)?;
    Some(Attack { side, edge, case })
}

// The attack exists.
pub fn is_attack(index: &[u8; SIZE], p: Position, a: Attack) -> bool
    ensures { result ≡ is_attack (rules_in index.now) (task_in index.now) p a }
{
    let side = a.side;
    if !game_index::attacks(index, side) {
        return false;
    }
    if game_index::edge_count(index, side) <= a.edge {
        return false;
    }
    let e = game_index::edge_at(index, side, a.edge);
    if e.from != p.state(side) {
        return false;
    }
    let away = side.other();
    let others = game_index::set_of(index, away, p.state(away));
    let room = game_index::has_room(index, p);
    has_case(p, side, e.kind, others, room, a.case)
}
