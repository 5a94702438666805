// Reading into lent bytes: as many as there is room for, or as there are.
#![tactic(auto)]

ghost use Rattle.std.specs.Prelude.{◌≡◌, ◌<◌, ◌≤◌, ℕ, length, take, IfOk, IfErr};
ghost use Rattle.std.specs.Io.{ReadsAtMost};
ghost use Rattle.std.specs.Io.KnownBytes.{Consumes, IsAtEnd};

use std::io;
use std::io::Read;

// Reads until the room is full or the input ends, and says how many bytes now stand at its start: those that the reader had next, and
// all that it had where they are fewer than there is room for. Where a read fails, what was read before it stands at the start too.
pub fn read_full<R: Read>(reader: &mut R, room: &mut [u8]) -> io::Result<usize>
    ensures read { ReadsAtMost result room.new }
    ensures bytes { IfOk result (λ n. Consumes (R.remaining reader.old) (R.remaining reader.new) (take n room.new)) }
    ensures full_or_all { IfOk result (λ n. n < length room.new → IsAtEnd (R.remaining reader.new)) }
    ensures none_lost { IfErr result (λ e. (n : ℕ) × (n ≤ length room.new)
        × Consumes (R.remaining reader.old) (R.remaining reader.new) (take n room.new)) }
    ensures room_stays { length room.new ≡ length room.old }
{
    let mut done = 0;
    while done < room.len() {
        let n = reader.read(&mut room[done..])?;
        if n == 0 {
            return Ok(done);
        }
        done += n;
    }
    Ok(done)
}
