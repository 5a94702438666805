// What the programs `compare` and `compare_one_way` print (01, "Sample pairs"), line by line in a lent buffer.
#![tactic(auto)]

ghost use Rattle.std.specs.Prelude.{ℕ, ◌+◌, ◌/◌, ◌≤◌, ◌≡◌, length, take, replicate};
ghost use lib.Seq.{sets};
ghost use Rattle.outcome.specs.Verdicts.{width_of};
ghost use Rattle.outcome.specs.declared.Standing.TheVariants.{Kept, Lost};
ghost use Rattle.text.specs.Text.{line_of, first_line, refused_line, too_long, body_at, record_line, lines_by, line_by, Numbers};
ghost use Rattle.text.specs.LentLine.{longest_word, most_numbers, line_room, Puts};

use crate::numbers::put_number;
use listing::words::word_at;
use outcome::layout::{KEPT_WIDTH, POSITION, ROUNDS};
use outcome::{Comparison, Standing};

mod numbers;

// The numbers in the line of a position that is never lost: the position's bytes.
const KEPT_NUMBERS: usize = KEPT_WIDTH - POSITION;

// The numbers in the line of a lost position: the bytes before its rounds, and its rounds.
const LOST_NUMBERS: usize = ROUNDS - POSITION + 1;

// The longest word, FALLS SHORT, and the longest number with the space in front of it, 4294967295.
const LONGEST_WORD: usize = 11;

const LONGEST_NUMBER: usize = 11;

// The room for a line, with the line feed.
pub const LINE: usize = LONGEST_WORD + LOST_NUMBERS * LONGEST_NUMBER + 1;

// Writes a word from the line's start.
fn put_word(word: &[u8], line: &mut [u8; LINE]) -> usize
    requires { length word.now ≤ longest_word }
    ensures { Puts word.now line.old 0 line.new result }
{
    line[..word.len()].copy_from_slice(word);
    word.len()
}

// Writes a line: a word, numbers and a line feed.
fn put(word: &[u8], numbers: &[u32], line: &mut [u8; LINE]) -> usize
    requires { (length word.now ≤ longest_word) × (length numbers.now ≤ most_numbers) }
    ensures { Puts (line_of word.now numbers.now) line.old 0 line.new result }
{
    let mut at = put_word(word, line);
    for n in numbers {
        at = put_number(*n, line, at);
    }
    line[at] = b'\n';
    at + 1
}

// "First line: verdict, positions, rounds."
fn put_first(answer: Comparison, line: &mut [u8; LINE]) -> usize
    ensures { Puts (first_line answer.verdict answer.positions answer.rounds) line.old 0 line.new result }
{
    let numbers = [answer.positions, answer.rounds];
    put(answer.verdict.word().as_bytes(), &numbers, line)
}

// "a refusal `REFUSED` and its number"
fn put_refusal(number: u8, line: &mut [u8; LINE]) -> usize
    ensures { Puts (refused_line number) line.old 0 line.new result }
{
    put(b"REFUSED", &[u32::from(number)], line)
}

// Bytes as numbers, and zeros behind them.
fn widened<const N: usize>(bytes: &[u8]) -> [u32; N]
    requires { length bytes.now ≤ N }
    ensures { result ≡ sets (replicate N 0) 0 bytes.now }
{
    let mut numbers = [0u32; N];
    for (i, b) in bytes.iter().enumerate() {
        numbers[i] = u32::from(*b);
    }
    numbers
}

// The line of the record that starts here. "EQUAL lines are `KEPT`" and the numbers of a position; "per record: two states, six
// partners", the size, "side, edge, case, rounds".
fn put_record(standing: Standing, certificate: &[u8], at: usize, line: &mut [u8; LINE]) -> usize
    requires { at + width_of standing ≤ length certificate.now }
    ensures { Puts (record_line standing (body_at (width_of standing) at certificate.now)) line.old 0 line.new result }
{
    let from = at + POSITION;
    match standing {
        Standing::Kept => {
            let numbers = widened::<KEPT_NUMBERS>(&certificate[from..at + KEPT_WIDTH]);
            put(b"KEPT", &numbers, line)
        }
        Standing::Lost => {
            let to = at + ROUNDS;
            let mut numbers = widened::<LOST_NUMBERS>(&certificate[from..to]);
            numbers[LOST_NUMBERS - 1] = word_at(certificate, to);
            put(b"LOST", &numbers, line)
        }
    }
}

// The whole records in the first bytes of a buffer, which may have fewer.
fn record_count(standing: Standing, certificate: &[u8], size: usize) -> usize
    ensures { result ≡ length (take size certificate.now) / width_of standing }
{
    certificate.len().min(size) / standing.width()
}

// The lines of an answer, with the certificate buffer that it comes with. A refusal is whatever has a number of one byte: a
// `task::Refusal`, or the number itself.
pub fn line_count<R: Copy>(answer: Result<Comparison, R>, certificate: &[u8]) -> usize
    ensures { (number : R → ℕ) → result ≡ length (lines_by number answer certificate.now) }
{
    match answer {
        Ok(c) => 1 + record_count(c.verdict.standing(), certificate, c.length),
        Err(_) => 1,
    }
}

// Writes line i of an answer and returns its length, 0 where there is no such line.
pub fn put_line<R: Copy + Into<u8>>(
    answer: Result<Comparison, R>,
    certificate: &[u8],
    i: usize,
    line: &mut [u8; LINE],
) -> usize
    ensures stands { (number : R → ℕ) → Numbers R.converts number → Puts (line_by number answer certificate.now i) line.old 0 line.new result }
    ensures fits { result ≤ line_room }
{
    if line_count(answer, certificate) <= i {
        return 0;
    }
    match answer {
        Ok(c) if i == 0 => put_first(c, line),
        Ok(c) => {
            let standing = c.verdict.standing();
            put_record(standing, certificate, (i - 1) * standing.width(), line)
        }
        Err(refusal) => put_refusal(refusal.into(), line),
    }
}

// "Longer input prints `TOO LONG`"
pub fn put_too_long(line: &mut [u8; LINE]) -> usize
    ensures { Puts too_long line.old 0 line.new result }
{
    put(b"TOO LONG", &[], line)
}
