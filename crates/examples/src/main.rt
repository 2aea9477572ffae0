//! The programs that README, SERVER.md and ENGINE.md show, by the first word of the command line, and callers that are proved from the
//! contracts of the calls that they make.
#![tactic(auto)]

mod answers;
mod asking;
mod driving;
mod notes;
mod noting;
mod querying;
mod reading;
mod serving;
mod tracked;
mod values;

use cli_output::fill_closed;
use client_tracking::Retry;
use querying::Sending;
use std::io;
use std::process::ExitCode;

/// The port that a word names.
fn port_of(word: Option<&String>) -> Option<u16> {
    word?.parse::<u16>().ok()
}

/// Returns the count that a word names.
fn count_of(word: Option<&String>) -> Option<u32> {
    word?.parse::<u32>().ok()
}

/// Returns what the query's program does after a doubt: it sends nothing again, unless its last word is `tokens`.
fn retry_of(word: Option<&String>) -> Option<Retry> {
    match word {
        None => Some(Retry::Never),
        Some(word) if word.as_str() == "tokens" => Some(Retry::Tokens),
        Some(_) => None,
    }
}

/// Runs the query's program by these words. Returns the exit status.
fn query(rt: &HostRuntime, port: u16, words: &[String]) -> u8 {
    if let Some(token) = words.get(3)
        && let Some(tries) = count_of(words.get(4))
        && let Some(puts) = count_of(words.get(5))
        && let Some(retry) = retry_of(words.get(6))
    {
        let token = token.as_str();
        let sending = Sending {
            token,
            puts,
            retry,
            tries,
        };
        return querying::run(rt, port, &sending);
    }
    refuse(rt)
}

/// Says how the programs are used. It answers the exit status of words that name none.
fn refuse(rt: &HostRuntime) -> u8 {
    let _told = eprintln!(rt;
        "usage: examples query PORT TOKEN TRIES PUTS [tokens], examples driver PORT, examples server PORT or examples engine"
    );
    2
}

/// Runs the program that these words name. It answers the exit status.
fn run(rt: &HostRuntime, words: &[String]) -> io::Result<u8> {
    let name = match words.get(1) {
        Some(word) => word.as_str(),
        None => "",
    };
    match (name, port_of(words.get(2)), words.len()) {
        ("driver", Some(port), 3) => return driving::drive(rt, port),
        ("query", Some(port), 6 | 7) => return Ok(query(rt, port, words)),
        ("server", Some(port), 3) => serving::serve(rt, port)?,
        ("engine", _, 2) => noting::note_all(rt)?,
        _ => return Ok(refuse(rt)),
    }
    Ok(0)
}

/// Runs the program that the words of the command line name. It answers the exit status.
fn run_words(rt: &HostRuntime) -> io::Result<u8> {
    let words: Vec<String> = std::env::args(rt)?.collect(rt.alloc())?;
    run(rt, words.as_slice())
}

fn main(rt: HostRuntime) -> ExitCode {
    // Before anything else is opened, and kept until the end: what is printed never goes to a socket.
    let _closed = fill_closed(&rt);
    match run_words(&rt) {
        Ok(status) => ExitCode::from(status),
        Err(error) => {
            let _told = eprintln!(rt; "Error: {error}");
            ExitCode::FAILURE
        }
    }
}
