// Exploring in place (01, "Positions reached are the start and all that attacks and replies lead to"): the lent table is the set
// of positions found, and the queue of those whose successors are still to be found.
#![tactic(auto)]

ghost use Rattle.std.specs.Prelude.{◌≡◌, length};
ghost use Rattle.game_index.specs.Reading.{task_in, rules_in};
ghost use Rattle.table_keys.specs.Keys.{radix_of};
ghost use Rattle.comparer_explore_laws.specs.Exploring.{Exploring};
ghost use Rattle.comparer_explore.specs.ExploreAnswers.{Explores};

use crate::expand::Source;
use game_index::TaskIndex;
use key_set::Full;
use listing::words::word_at;
use outcome::layout::WORD;
use table_keys::{Radix, key, position};

mod expand;
mod sums;

// Expands one entry after another, where n positions are found, until all are expanded, and says how many there are then. The
// entries are a queue, which grows as it is gone through.
fn expand_all(table: &mut [u8], n: usize, index: &TaskIndex, radix: Radix) -> Result<usize, Full>
    requires radix_value { radix ≡ radix_of (task_in index.now.bytes) }
    requires exploring { Exploring (rules_in index.now.bytes) (task_in index.now.bytes) (length table.old) n 0 table.old }
    ensures { Explores (rules_in index.now.bytes) (task_in index.now.bytes)
        table.old result table.new }
{
    let keys = radix.key_count();
    let mut found = n;
    let mut done: usize = 0;
    while done < found {
        let position = position(radix, word_at(table, done * WORD));
        let room = game_index::has_room(&index.bytes, position);
        let source = Source {
            position,
            room,
            radix,
            keys,
        };
        found = expand::visit_successors(table, found, index, source)?;
        done += 1;
    }
    Ok(found)
}

// Fills the table with the keys of the positions reached, in order of discovery, and says how many there are; or a position has no
// room.
pub fn explore(index: &TaskIndex, table: &mut [u8]) -> Result<usize, Full>
    ensures { Explores (rules_in index.now.bytes) (task_in index.now.bytes)
        table.old result table.new }
{
    table::clear(table);
    let radix = Radix::of(&index.bytes);
    let first = key(radix, game_index::start(&index.bytes));
    let n = expand::visit(table, 0, first, radix.key_count())?;
    expand_all(table, n, index, radix)
}
