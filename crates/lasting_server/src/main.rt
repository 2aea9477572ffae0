//! Serves a fixed table whose ledger is kept in a file, at a port of this machine, one connection after another, until its disk fails.
#![tactic(auto)]

use cli_output::fill_closed;
use keeping::serve_file;
use std::io;
use std::io::ErrorKind;
use std::process::ExitCode;

/// The port and the file that the words of the command line name.
fn named(words: &[String]) -> Option<(u16, &str)> {
    let [_, port, file] = words else {
        return None;
    };
    let port = port.parse::<u16>().ok()?;
    Some((port, file.as_str()))
}

/// The program's name and the words after it.
fn words_of(rt: &HostRuntime) -> io::Result<Vec<String>> {
    Ok(std::env::args(rt)?.collect(rt.alloc())?)
}

/// Serves as the words of the command line say.
fn run(rt: &HostRuntime) -> io::Result<()> {
    let words = match words_of(rt) {
        Ok(words) => words,
        Err(error) if error.kind() == ErrorKind::InvalidData => {
            return eprintln!(rt; "error: a word is not UTF-8");
        }
        Err(error) => return Err(error),
    };
    let Some((port, file)) = named(words.as_slice()) else {
        return eprintln!(rt; "usage: lasting_server PORT FILE");
    };
    serve_file(rt, port, file);
    Ok(())
}

/// It serves until it fails, so the status is 1 however it ends.
fn main(rt: HostRuntime) -> ExitCode {
    // Before anything else is opened, and kept until the end.
    let _closed = fill_closed(&rt);
    if let Err(error) = run(&rt) {
        let _told = eprintln!(rt; "Error: {error}");
    }
    ExitCode::FAILURE
}
