// What the programs `compare` and `compare_one_way` do (01, "Sample pairs"): a task on standard input; the lines of its
// comparison by a game, which the crate `text` gives, on standard output.
#![tactic(auto)]

use fra::Game;
use outcome::Comparison;
use outcome::layout::ENTRY;
use std::io;
use task::Refusal;
use text::LINE;

// "a task of at most 4,096 bytes"
const LONGEST_TASK: usize = 4096;

// "4,000 table entries and a 64,000-byte certificate"
const ENTRIES: usize = 4000;

const LONGEST_CERTIFICATE: usize = 64000;

type Answer = Result<Comparison, Refusal>;

fn print_line(rt: &impl Print, answer: Answer, certificate: &[u8], i: usize) -> io::Result<()> {
    let mut line = [0u8; LINE];
    let n = text::put_line(answer, certificate, i, &mut line);
    rt.write_all(&line[..n])
}

fn print_lines(rt: &impl Print, answer: Answer, certificate: &[u8]) -> io::Result<()> {
    let count = text::line_count(answer, certificate);
    for i in 0..count {
        print_line(rt, answer, certificate, i)?;
    }
    Ok(())
}

fn print_too_long(rt: &impl Print) -> io::Result<()> {
    let mut line = [0u8; LINE];
    let n = text::put_too_long(&mut line);
    rt.write_all(&line[..n])
}

// Compares in a lent table and buffer of these sizes.
fn print_comparison(rt: &impl Print, game: Game, task: &[u8]) -> io::Result<()> {
    let mut table = [0u8; ENTRIES * ENTRY];
    let mut certificate = [0u8; LONGEST_CERTIFICATE];
    let answer = comparer::compare(game, task, &mut table, &mut certificate);
    print_lines(rt, answer, &certificate)
}

// Reads the task, compares and prints. Only a read or a write that fails is an error.
pub fn run(rt: &(impl Input + Print), game: Game) -> io::Result<()> {
    let mut task = [0u8; LONGEST_TASK + 1];
    let n = reading::read_full(&mut rt.reader(), &mut task)?;
    if LONGEST_TASK < n {
        return print_too_long(rt);
    }
    print_comparison(rt, game, &task[..n])
}
