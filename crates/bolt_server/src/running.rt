//! What the program does.

use crate::password::password_of;
use crate::words::{Asked, read};
use cli_output::{escape, put_fault};
use cli_serve::{Limits, Place, put_reason, serve_at};
use engine::{FixedTable, Named, OneUser};
use server::Server;
use std::alloc::Global;
use std::io;
use std::io::ErrorKind;
use streams::{Over, Sink, StreamFault, write_all};

/// Steps of a session between two reads of its connection, and reads in a turn. What another connection waits for is at most what 16 times so
/// many steps take.
const STEPS: u32 = 64;

const READS: u32 = 4;

fn milliseconds(seconds: u32) -> u64 {
    u64::from(seconds) * 1000
}

/// How long is waited for a peer, as it was asked for.
fn limits_of(asked: &Asked<'_>) -> Limits {
    Limits {
        steps: STEPS,
        reads: READS,
        silence: milliseconds(asked.silence),
        arrival: milliseconds(asked.arrival),
        last: milliseconds(asked.last),
    }
}

/// Says why the password isn't had: `fault I1`, and on the next line the file and the system's reason, if there is memory for it. It answers the exit
/// status.
fn put_unread<W: Sink>(alloc: Global, file: &str, error: &io::Error, err: &mut W) -> u8 {
    if error.kind() == ErrorKind::OutOfMemory {
        return put_fault(StreamFault::Memory, err);
    }
    let status = put_fault(StreamFault::ReadFailed, err);
    if let Ok(name) = escape(alloc, file)
        && let Ok(text) = format!(in alloc; "{name}: {error}\n")
    {
        let _ = write_all(err, text.as_bytes());
    }
    status
}

/// Serves as it was asked for. It answers the exit status.
fn serve_asked(rt: &HostRuntime, asked: &Asked<'_>) -> u8 {
    let alloc = rt.alloc();
    let (mut out, mut err) = (Over::new(rt.stdout()), Over::new(rt.stderr()));
    let password = match password_of(rt, asked.password_file) {
        Ok(password) => password,
        Err(error) => {
            return put_unread(alloc, asked.password_file.unwrap_or(""), &error, &mut err);
        }
    };
    // Whoever gives none would be let in.
    if password.is_empty() {
        let _told = write_all(
            &mut err,
            b"error: the first line of --password-file is empty\n",
        );
        return 2;
    }
    let (Ok(gate), Ok(agent)) = (
        OneUser::new(alloc, asked.user, password.as_str()),
        String::from_str(alloc, asked.agent),
    ) else {
        return put_fault(StreamFault::Memory, &mut err);
    };
    let Ok(gate) = Named::new(gate, agent) else {
        let _told = write_all(&mut err, b"error: the name of --agent has 1 to 40 bytes\n");
        return 2;
    };
    let mut server = Server::new(alloc, FixedTable::new(alloc), gate);
    let place = Place {
        host: asked.host,
        port: asked.port,
        most: asked.sessions.map(usize::from),
    };
    let limits = limits_of(asked);
    let reason = serve_at(rt, alloc, place, &limits, &mut server, &mut out);
    put_reason(alloc, asked.host, asked.port, reason, &mut err)
}

/// The program's name and the words after it.
fn words_of(rt: &HostRuntime) -> io::Result<Vec<String>> {
    Ok(std::env::args(rt)?.collect(rt.alloc())?)
}

/// Says what there is to say of the words: that they aren't taken, on standard error, or help. It answers the exit status.
fn say(rt: &HostRuntime, error: &clap::Error) -> u8 {
    let said = error.print(rt);
    if error.use_stderr() {
        return 2;
    }
    match said {
        Ok(()) => 0,
        Err(_) => put_fault(StreamFault::WriteFailed, &mut Over::new(rt.stderr())),
    }
}

/// Does what the words of the command line ask for. It answers the exit status: 0 of help, 2 of words that aren't taken, 1 and 3 as
/// `put_reason`.
pub(crate) fn run(rt: &HostRuntime) -> u8 {
    let words = match words_of(rt) {
        Ok(words) => words,
        Err(error) if error.kind() == ErrorKind::InvalidData => {
            let _told = eprintln!(rt; "error: a word is not UTF-8");
            return 2;
        }
        Err(_) => return put_fault(StreamFault::Memory, &mut Over::new(rt.stderr())),
    };
    match read(rt.alloc(), words.as_slice()) {
        Ok(asked) => serve_asked(rt, &asked),
        Err(error) if error.kind() == clap::error::ErrorKind::OutOfMemory => {
            put_fault(StreamFault::Memory, &mut Over::new(rt.stderr()))
        }
        Err(error) => say(rt, &error),
    }
}
