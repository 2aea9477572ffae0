//! Why a server over a file ends, and what is said of it.
ghost use Rattle.std.specs.Prelude.{ℕ, List, IfOk, string_bytes};
ghost use Rattle.cli_output.specs.Stopping.{Gets};
ghost use Rattle.keeping.specs.Reasons.{IsLineOf, IsSaidOf, IsSaidOfFault};

use cli_output::{escape, tell};
use engine_sqlite::OpenFault;
use std::alloc::{AllocError, Global};
use std::io;
use streams::Sink;

/// Why a server over a file ends.
#[derive(Clone, Copy, Debug)]
pub enum Reason {
    /// The file isn't opened: it can't be had, another process holds it, or it is no database.
    Unopened(sqlite::Error),
    /// What the database holds isn't taken as a ledger.
    Unread(OpenFault),
    /// The port isn't had, or gives no connection.
    Port(io::Error),
    /// The disk failed as it was to keep an entry. Nobody was told of that entry, and the next opening of the file settles whether it is there.
    DiskFailed,
    /// Standard output failed.
    OutputFailed,
    /// Memory ran out as a session was to begin or its end to be told, or no number is left for a session.
    Memory,
    /// No connection comes any more.
    NoConnection,
}

/// What is said of a ledger that isn't taken, or want of memory.
fn fault_words(alloc: Global, fault: OpenFault) -> Result<String, AllocError>
    ensures { IfOk result (λ words. IsSaidOfFault fault (string_bytes words)) }
{
    match fault {
        OpenFault::Database(error) => {
            let own = format!(in alloc; "{error}")?;
            let words = format!(in alloc; "the database: {own}")?;
            Ok(words)
        }
        OpenFault::OtherTables => String::from_str(
            alloc,
            "the database holds another thing than a ledger",
        ),
        OpenFault::NoLedger(row) => {
            let words = format!(in alloc; "the database holds no ledger, at row {row}")?;
            Ok(words)
        }
        OpenFault::Memory => String::from_str(alloc, "out of memory"),
    }
}

/// What is said of a reason, or want of memory.
fn reason_words(alloc: Global, reason: Reason) -> Result<String, AllocError>
    ensures { IfOk result (λ words. IsSaidOf reason (string_bytes words)) }
{
    match reason {
        Reason::Unopened(error) => {
            let words = format!(in alloc; "{error}")?;
            Ok(words)
        }
        Reason::Unread(fault) => fault_words(alloc, fault),
        Reason::Port(error) => {
            let own = format!(in alloc; "{error}")?;
            let words = format!(in alloc; "the port: {own}")?;
            Ok(words)
        }
        Reason::DiskFailed => String::from_str(alloc, "the disk failed; start the server again"),
        Reason::OutputFailed => String::from_str(alloc, "standard output failed"),
        Reason::Memory => String::from_str(alloc, "out of memory"),
        Reason::NoConnection => String::from_str(alloc, "no connection comes any more"),
    }
}

/// The line that says why the server of a file ends, or want of memory.
fn reason_line(alloc: Global, file: &str, reason: Reason) -> Result<String, AllocError>
    ensures { IfOk result (λ line. IsLineOf file.now reason (string_bytes line)) }
{
    let name = escape(alloc, file)?;
    let words = reason_words(alloc, reason)?;
    let line = format!(in alloc; "{name}: {words}\n")?;
    Ok(line)
}

/// Says on a line why the server of a file ends: `FILE: WHY`, the file's name escaped. If no memory is left for that line, it is
/// `out of memory`. What `err` doesn't take isn't said.
pub fn put_reason<W: Sink>(alloc: Global, file: &str, reason: Reason, err: &mut W)
    ensures { (line : List ℕ) × IsLineOf file.now reason line
        × Gets (W.has_failed err.old) (W.has_failed err.new) (W.taken err.old) (W.taken err.new) line }
{
    match reason_line(alloc, file, reason) {
        Ok(line) => tell(line.as_bytes(), err),
        Err(_) => tell(b"out of memory\n", err),
    }
}
