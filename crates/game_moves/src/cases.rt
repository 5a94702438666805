// The id cases of an attack, in order.
ghost use Rattle.std.specs.Prelude.{◌≡◌};
ghost use Rattle.game_moves.specs.IdCases.{unpartnered, has_case_in, case_from};

use fra::{EdgeKind, IdCase, Model, Position, Side, has};

// How many id cases there are.
const COUNT: u8 = Model::REGISTERS + 3;

// The number of the case of a new number, which follows that of a number seen before.
pub const NEW: u8 = Model::REGISTERS + 2;

// Register j of a side whose state has this register set is filled and has no partner.
fn unpartnered(p: Position, side: Side, set: u8, j: u8) -> bool
    ensures { result ≡ unpartnered p side set j }
{
    has(set, j) && p.partner(side, j) == 0
}

// An edge of this kind has the case, where the other side's state has the register set `others` and the history has room for a
// number that neither reader holds, or none.
pub fn has_case(
    p: Position,
    side: Side,
    kind: EdgeKind,
    others: u8,
    room: bool,
    case: IdCase,
) -> bool
    ensures { result ≡ has_case_in others room p side kind case }
{
    match case {
        IdCase::Held => !kind.is_fresh(),
        IdCase::Private(j) => kind.is_locally_fresh() && unpartnered(p, side.other(), others, j),
        IdCase::Seen => kind.is_locally_fresh() & room,
        IdCase::New => kind.is_fresh(),
    }
}

// The first case of the edge from this case number on, with the number of the case to go on from; none if the edge has no more.
pub fn next_case(
    p: Position,
    side: Side,
    kind: EdgeKind,
    others: u8,
    room: bool,
    from: u8,
) -> Option<(IdCase, u8)>
    ensures { result ≡ case_from others room p side kind from }
{
    for n in from..COUNT {
        let case = IdCase::of(n)?;
        if has_case(p, side, kind, others, room, case) {
            return Some((case, n + 1));
        }
    }
    None
}
