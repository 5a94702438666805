// Numbers in decimal digits.
// std's `write!` promises its text only where it gives Ok, and no clause says that it does: the digits are written here.
ghost use Rattle.std.specs.Prelude.{◌+◌, ◌≤◌, ◌<◌, ◌≡◌, length};
ghost use lib.Seq.{sets};
ghost use Rattle.text.specs.Text.{decimal, spaced, digit};
ghost use Rattle.text.specs.LentLine.{longest_number, line_room, Puts};

use crate::LINE;

// How many digits a number has.
fn places(n: u32) -> usize
    ensures { result ≡ length (decimal n) }
{
    match n.checked_ilog10() {
        Some(k) => k as usize + 1,
        None => 1,
    }
}

fn digit(d: u32) -> u8
    requires { d < 10 }
    ensures { result ≡ digit d }
{
    b'0' + (d as u8)
}

// Writes a number's digits, the last one first, between two places.
fn put_digits(n: u32, line: &mut [u8; LINE], at: usize, end: usize)
    requires { (end ≡ at + length (decimal n)) × (end ≤ line_room) }
    ensures { line.new ≡ sets line.old at (decimal n) }
{
    let mut rest = n;
    for i in (at..end).rev() {
        line[i] = digit(rest % 10);
        rest /= 10;
    }
}

// Writes a number behind a space, and returns the place behind it.
pub fn put_number(n: u32, line: &mut [u8; LINE], at: usize) -> usize
    requires { at + longest_number ≤ line_room }
    ensures { Puts (spaced n) line.old at line.new result }
{
    line[at] = b' ';
    let end = at + 1 + places(n);
    put_digits(n, line, at + 1, end);
    end
}
