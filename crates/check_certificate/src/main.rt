// The program `check_certificate TASK CERTIFICATE [--one-way]`: what the checker answers to the task and the proposed certificate
// in two files, in one line on standard output: `ACCEPTED`, the verdict and the start's listed rounds; `REFUSED` and the number;
// or `TOO LONG`.
#![tactic(auto)]

ghost use Rattle.std.specs.Prelude.{◌≤◌, ◌≡◌, IfOk, None, length};
ghost use Rattle.check_certificate.specs.Files.{Within};

use fra::Game;
use outcome::Acceptance;
use std::env::{Env, FillError};
use std::fs::File;
use std::io;
use std::io::{Cursor, Write};
use task::Refusal;

fn print_answer(rt: &HostRuntime, answer: Result<Acceptance, Refusal>) -> io::Result<()> {
    match answer {
        Ok(a) => println!(rt; "ACCEPTED {} {}", a.verdict, a.rounds),
        Err(refusal) => println!(rt; "REFUSED {}", u8::from(refusal)),
    }
}

const USAGE: &str = "check_certificate TASK CERTIFICATE [--one-way]";

// The room for an argument, as for a path with the system's mark of its end.
const LONGEST_ARGUMENT: usize = 4096;

// Whether the program was started with an argument i.
fn is_there(rt: &HostRuntime, i: usize) -> bool {
    let mut word = [0u8; LONGEST_ARGUMENT];
    !matches!(rt.arg(i, &mut word), Err(FillError::NotPresent))
}

// Whether argument i is the word that asks for the one-way game.
fn asks_one_way(rt: &HostRuntime, i: usize) -> bool {
    let mut word = [0u8; LONGEST_ARGUMENT];
    match rt.arg(i, &mut word) {
        Ok(length) => matches!(&word[..length], b"--one-way"),
        Err(_) => false,
    }
}

// The game that the certificate is checked by. Where the arguments ask for none, that is said on standard error.
fn game_asked(rt: &HostRuntime) -> io::Result<Option<Game>> {
    if !is_there(rt, 3) {
        return Ok(Some(Game::BothAttack));
    }
    if !is_there(rt, 4) && asks_one_way(rt, 3) {
        return Ok(Some(Game::LeftAttacks));
    }
    eprintln!(rt; "{USAGE}")?;
    Ok(None)
}

// How much of an error's text says why: behind it stands the system's number in brackets.
fn reason_length(text: &[u8]) -> usize
    ensures { result ≤ length text.now }
{
    match text.iter().rposition(|b| *b == b'(') {
        Some(at) if 0 < at => at - 1,
        _ => text.len(),
    }
}

// The room for an error's text.
const LONGEST_TEXT: usize = 128;

fn complain(rt: &HostRuntime, text: &[u8]) -> io::Result<()> {
    Print::write_all(&rt.stderr(), text)
}

// Says on standard error what could not be read, and why: no bytes were.
fn say_failed(rt: &HostRuntime, what: &[u8], why: io::Error) -> io::Result<Option<usize>>
    ensures { IfOk result (λ r. r ≡ None) }
{
    let mut text = Cursor::new([0u8; LONGEST_TEXT]);
    let _ = write!(text, "{why}");
    let end = LONGEST_TEXT.min(text.position() as usize);
    let text = text.into_inner();
    let n = reason_length(&text[..end]);
    complain(rt, what)?;
    complain(rt, b": ")?;
    complain(rt, &text[..n])?;
    complain(rt, b"\n")?;
    Ok(None)
}

// The system's numbers for an argument that is missing, and for one that is too long.
const INVALID_ARGUMENT: i32 = 22;

const NAME_TOO_LONG: i32 = 36;

// Reads the file of a path, and says how many bytes it gave. Where it cannot be read, that is said on standard error.
fn read_path(rt: &HostRuntime, path: &[u8], out: &mut [u8]) -> io::Result<Option<usize>>
    ensures read { IfOk result (λ r. Within r out.new) }
    ensures room_stays { length out.new ≡ length out.old }
{
    let Ok(name) = std::str::from_utf8(path) else {
        return say_failed(rt, path, io::Error::from_raw_os_error(INVALID_ARGUMENT));
    };
    match File::open(rt, name) {
        Ok(mut file) => {
            let n = reading::read_full(&mut file, out)?;
            Ok(Some(n))
        }
        Err(why) => say_failed(rt, path, why),
    }
}

// Reads the file that argument i names.
fn read_file(rt: &HostRuntime, i: usize, out: &mut [u8]) -> io::Result<Option<usize>>
    ensures read { IfOk result (λ r. Within r out.new) }
    ensures room_stays { length out.new ≡ length out.old }
{
    let mut path = [0u8; LONGEST_ARGUMENT];
    let why = match rt.arg(i, &mut path) {
        Ok(length) => return read_path(rt, &path[..length], out),
        Err(FillError::NotPresent) => INVALID_ARGUMENT,
        Err(FillError::TooLong) => NAME_TOO_LONG,
    };
    say_failed(rt, USAGE.as_bytes(), io::Error::from_raw_os_error(why))
}

// The longest task and certificate that are read.
const LONGEST_TASK: usize = 4096;

const LONGEST_CERTIFICATE: usize = 131072;

fn main(rt: HostRuntime) -> io::Result<()> {
    let Some(game) = game_asked(&rt)? else {
        return Ok(());
    };
    let mut task = [0u8; LONGEST_TASK + 1];
    let mut certificate = [0u8; LONGEST_CERTIFICATE + 1];
    let Some(n) = read_file(&rt, 1, &mut task)? else {
        return Ok(());
    };
    let Some(m) = read_file(&rt, 2, &mut certificate)? else {
        return Ok(());
    };
    if LONGEST_TASK < n || LONGEST_CERTIFICATE < m {
        return println!(&rt; "TOO LONG");
    }
    print_answer(&rt, checker::check(game, &task[..n], &certificate[..m]))
}
