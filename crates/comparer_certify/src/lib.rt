// The certificate of a ranked table (01, "Verdict, table, certificate"), written with no memory but the table: what a lost
// start's attacks lead to is marked in it, and the marks are cleared at the end.
#![tactic(auto)]

mod fields;
mod writing;

ghost use Rattle.comparer_certify.specs.CertifyAnswers.{Ranked, certificate_in, Certifies};

use crate::writing::write;
use comparer_leads::prepare;
use comparer_marks::{halved, rescale, rounds_of};
use game_index::TaskIndex;
use outcome::Standing;
use outcome::layout::NEVER;

// The certificate is longer than its buffer.
#[derive(Clone, Copy, Debug, PartialEq, Eq)]
pub struct TooLong;

// Writes the certificate of a table of n entries, and returns its length.
pub fn certify(
    table: &mut [u8],
    n: usize,
    index: &TaskIndex,
    buffer: &mut [u8],
) -> Result<usize, TooLong>
    requires { Ranked index.now.bytes n table.old }
    ensures { Certifies (certificate_in index.now.bytes) table.old buffer.old result table.new buffer.new }
{
    let rounds = rounds_of(table, n, game_index::start(&index.bytes));
    if rounds == NEVER {
        return write(table, n, index, Standing::Kept, buffer);
    }
    prepare(table, n, index, rounds);
    let answer = write(table, n, index, Standing::Lost, buffer);
    rescale(table, n, halved);
    answer
}
