//! The program `test_player`: plays scripts, a conversation of both ends, and the decoding and encoding of a value, each call given
//! again if it is refused for memory, for who refuses allocations from outside and compares what is told, and for who holds what is told
//! against what clients may rely on. What is to be played comes on standard input, each parted from the next by a line `.`: `play N`,
//! `mixed N` (each HELLO on a line of an odd number is one of another version) or `brought N`, and a script behind it, of which it tells all
//! that is seen, and what is reported behind each Nth line; `hears N`, and a line `foreign 0 HEX` behind it, for a client that is given these
//! bytes in pieces of N; `rows`, for the rows of the machine; or the name of what else is played. Of these two it tells whether all held, and
//! on standard error a digest.
#![tactic(auto)]

mod asked;
mod brought;
mod conversation;
mod hearing;
mod hunger;
mod notes;
mod play;
mod rows;
mod script;
mod spelling;
mod without;

use asked::Unplayed;
use conversation::ends;
use hearing::hears;
use play::{notes_of, notes_over};
use rows::add_rows;
use script::Hellos;
use spelling::values;
use std::alloc::Global;
use std::io;
use without::{chunks, clients, puts, sessions, spellings, tokens, worlds};

/// Something couldn't be had to begin with.
const NOT_PLAYED: u64 = 8;

/// A digest is no less; a number below tells what broke.
const LEAST_DIGEST: u64 = 100;

/// Whether calls that take no memory answered as ever, as a digest.
fn as_digest(held: Result<bool, Unplayed>) -> u64 {
    match held {
        Ok(true) => LEAST_DIGEST,
        Ok(false) => 1,
        Err(_) => NOT_PLAYED,
    }
}

/// A digest of what the play of a name told, or a number below `LEAST_DIGEST`.
fn told_by(alloc: Global, name: &str) -> u64 {
    match name {
        "ends" => ends(alloc).unwrap_or(NOT_PLAYED),
        "values" => values(alloc).unwrap_or(NOT_PLAYED),
        "sessions without" => as_digest(sessions(alloc)),
        "clients without" => as_digest(clients(alloc)),
        "chunks without" => as_digest(chunks(alloc)),
        "tokens without" => as_digest(tokens(alloc)),
        "values without" => as_digest(spellings(alloc)),
        "puts without" => as_digest(puts(alloc)),
        "worlds without" => as_digest(worlds(alloc)),
        _ => 0,
    }
}

/// What is printed of it.
fn word_of(told: u64) -> &'static str {
    if told == NOT_PLAYED {
        "not begun"
    } else if told < LEAST_DIGEST {
        "broken"
    } else {
        "held"
    }
}

/// What is played by a name told this.
fn print_digest(rt: &HostRuntime, name: &str, told: u64) -> io::Result<()> {
    println!(rt; "{name}: {}", word_of(told))?;
    eprintln!(rt; "{told}")
}

/// What the play of a script told, and a line `.`.
fn print_notes(rt: &HostRuntime, notes: Result<String, Unplayed>) -> io::Result<()> {
    match notes {
        Ok(notes) => print!(rt; "{notes}.\n"),
        Err(_) => println!(rt; "not begun"),
    }
}

/// After how many lines a script is reported, or how many bytes a piece has.
fn every(how: &str) -> usize {
    how.parse::<usize>().unwrap_or(1)
}

fn print_rows(rt: &HostRuntime) -> io::Result<()> {
    let mut text = String::new(rt.alloc());
    add_rows(&mut text)?;
    print!(rt; "{text}")
}

/// Plays what a block of lines says.
fn play_block(rt: &HostRuntime, block: &str) -> io::Result<()> {
    let (first, rest) = block.split_once('\n').unwrap_or((block, ""));
    if let Some(how) = first.strip_prefix("play ") {
        let notes = notes_of(rt.alloc(), rest, Hellos::OfTheVersion, every(how));
        return print_notes(rt, notes);
    }
    if let Some(how) = first.strip_prefix("mixed ") {
        let notes = notes_of(rt.alloc(), rest, Hellos::Mixed, every(how));
        return print_notes(rt, notes);
    }
    if let Some(how) = first.strip_prefix("hears ") {
        let told = as_digest(hears(rt.alloc(), rest, every(how)));
        return print_digest(rt, "hears", told);
    }
    if let Some(how) = first.strip_prefix("brought ") {
        return print_notes(rt, notes_over(rt.alloc(), rest, every(how)));
    }
    match first {
        "" => Ok(()),
        "rows" => print_rows(rt),
        name => print_digest(rt, name, told_by(rt.alloc(), name)),
    }
}

fn main(rt: HostRuntime) -> io::Result<()> {
    let text = io::read_to_string(rt.alloc(), rt.stdin())?;
    for block in text.as_str().split("\n.\n") {
        play_block(&rt, block)?;
    }
    Ok(())
}
