//! Why a server over sockets ends, and what is said of it.
ghost use Rattle.std.specs.Prelude.{◌≡◌, ◌⊎◌, ◌↔◌, List, [], ℕ, IfOk, string_bytes};
ghost use Rattle.std.specs.IoError.{error_kind};
ghost use Rattle.cli_output.specs.Stopping.{Gets};
ghost use Rattle.cli_serve.specs.Reasons.{IsErrorOf, IsSaidOf, IsTold, fault_line, place_name, reason_status};

use cli_output::{escape, put_fault};
use std::alloc::{AllocError, Global};
use std::io;
use std::io::ErrorKind;
use streams::{Sink, StreamFault, write_all};

/// Why a server over sockets ends.
#[derive(Clone, Copy, Debug)]
pub enum Reason {
    /// The port isn't had.
    Unbound(io::Error),
    /// The wait for all connections failed.
    Unwaited(io::Error),
    /// The output failed as it was to have the port.
    OutputFailed,
    /// There was no memory to begin.
    Memory,
}

/// Why a port isn't had: by the system's error, or for want of memory.
pub(crate) fn unbound(error: io::Error) -> Reason
    ensures memory { (result ≡ Reason.Memory) ↔ (error_kind error ≡ ErrorKind.OutOfMemory) }
    ensures bound { (result ≡ Reason.Memory) ⊎ (result ≡ Reason.Unbound error) }
{
    if error.kind() == ErrorKind::OutOfMemory {
        return Reason::Memory;
    }
    Reason::Unbound(error)
}

/// Says the fault by which a reason is told, on a line. It answers the exit status.
fn put_fault_of<W: Sink>(reason: Reason, err: &mut W) -> u8
    ensures status { result ≡ reason_status reason }
    ensures text { Gets (W.has_failed err.old) (W.has_failed err.new) (W.taken err.old) (W.taken err.new)
        (fault_line reason) }
{
    match reason {
        Reason::Unbound(_) | Reason::Unwaited(_) => put_fault(StreamFault::ReadFailed, err),
        Reason::OutputFailed => put_fault(StreamFault::WriteFailed, err),
        Reason::Memory => put_fault(StreamFault::Memory, err),
    }
}

/// A host and a port as they are told.
fn place_name(alloc: Global, host: &str, port: u16) -> Result<String, AllocError>
    ensures { IfOk result (λ t. string_bytes t ≡ place_name host.now port) }
{
    let host = escape(alloc, host)?;
    let name = format!(in alloc; "{host} port {port}")?;
    Ok(name)
}

/// An error of the system behind a name, on a line.
fn error_words(alloc: Global, name: &str, error: io::Error) -> Result<String, AllocError>
    ensures { IfOk result (λ words. IsErrorOf name.now (string_bytes words)) }
{
    let own = format!(in alloc; "{error}")?;
    let words = format!(in alloc; "{name}: {own}\n")?;
    Ok(words)
}

/// What is said of a port that isn't had.
fn unbound_words(
    alloc: Global,
    host: &str,
    port: u16,
    error: io::Error,
) -> Result<String, AllocError>
    ensures { IfOk result (λ words. IsErrorOf (place_name host.now port) (string_bytes words)) }
{
    let place = place_name(alloc, host, port)?;
    error_words(alloc, place.as_str(), error)
}

/// What is said beside the fault, if the system has said why.
fn words_of(alloc: Global, host: &str, port: u16, reason: Reason) -> Result<String, AllocError>
    ensures { IfOk result (λ words. IsSaidOf host.now port reason (string_bytes words)) }
{
    match reason {
        Reason::Unbound(error) => unbound_words(alloc, host, port, error),
        Reason::Unwaited(error) => error_words(alloc, "the connections", error),
        Reason::OutputFailed | Reason::Memory => Ok(String::new(alloc)),
    }
}

/// Says why a server at this port of the host ends: its fault on a line, `fault I1` and the like, and on the next the system's reason, where
/// there is one and memory for it. It answers the exit status: 3 for want of memory, else 1.
pub fn put_reason<W: Sink>(alloc: Global, host: &str, port: u16, reason: Reason, err: &mut W) -> u8
    ensures status { result ≡ reason_status reason }
    ensures text { (text : List ℕ) × IsTold host.now port reason text
        × Gets (W.has_failed err.old) (W.has_failed err.new) (W.taken err.old) (W.taken err.new) text }
{
    let status = put_fault_of(reason, err);
    put_words(alloc, host, port, reason, err);
    status
}

/// Says what the system said, if there is memory for it.
fn put_words<W: Sink>(alloc: Global, host: &str, port: u16, reason: Reason, err: &mut W)
    ensures { (words : List ℕ) × ((words ≡ []) ⊎ IsSaidOf host.now port reason words)
        × Gets (W.has_failed err.old) (W.has_failed err.new) (W.taken err.old) (W.taken err.new) words }
{
    match words_of(alloc, host, port, reason) {
        Ok(words) => tell(words.as_bytes(), err),
        Err(_) => tell(b"", err),
    }
}

/// Writes a text, as far as it is taken.
fn tell<W: Sink>(text: &[u8], err: &mut W)
    ensures { Gets (W.has_failed err.old) (W.has_failed err.new) (W.taken err.old) (W.taken err.new)
        text.now }
{
    let _ = write_all(err, text);
}
