//! What is said of files and connections that aren't had. The names of files and hosts are words of the command line, so they are escaped.
ghost use Rattle.std.specs.Prelude.{◌≡◌, ◌⊎◌, ◌↔◌, IfOk, string_bytes};
ghost use Rattle.std.specs.IoError.{error_kind};
ghost use Rattle.bolt.specs.Reasons.{connected_line, place_name};

use crate::sockets::SILENCE;
use cli_output::{escape, put_fault, tell};
use std::alloc::{AllocError, Global};
use std::io;
use std::io::ErrorKind;
use streams::{Over, Sink, StreamFault};

/// Says why a file isn't had: the fault on a line, and on the next the file and the system's reason, if there is memory for it.
/// It answers the exit status.
pub(crate) fn put_unread<E: Sink>(alloc: Global, file: &str, error: &io::Error, err: &mut E) -> u8
    ensures { (result ≡ 1) ⊎ (result ≡ 3) }
{
    let status = put_fault(unread(error), err);
    if let Ok(name) = escape(alloc, file) {
        put_reason(alloc, name.as_str(), error, err);
    }
    status
}

/// Says why a host and port can't be reached, as `put_unread` does of a file.
pub(crate) fn put_unreached<E: Sink>(
    alloc: Global,
    host: &str,
    port: u16,
    error: &io::Error,
    err: &mut E,
) -> u8
    ensures { (result ≡ 1) ⊎ (result ≡ 3) }
{
    let status = put_fault(unread(error), err);
    if let Ok(name) = place_name(alloc, host, port) {
        put_reason(alloc, name.as_str(), error, err);
    }
    status
}

/// Says why a stream failed, if it did by an error of the system and there is memory for it: what it is, and the reason.
pub(crate) fn put_failed<S, E: Sink>(alloc: Global, what: &str, stream: &Over<S>, err: &mut E) {
    if let Some(error) = stream.error() {
        put_reason(alloc, what, error, err);
    }
}

/// Says why the server's stream failed, as `put_failed` does. If a read or a write timed out, the reason is what the server didn't do for that long.
pub(crate) fn put_lost<S, E: Sink>(alloc: Global, silence: &str, stream: &Over<S>, err: &mut E) {
    let Some(error) = stream.error() else {
        return;
    };
    if error.kind() != ErrorKind::WouldBlock {
        put_reason(alloc, "the server", error, err);
        return;
    }
    if let Ok(text) = format!(in alloc; "the server: {silence} for {SILENCE} seconds\n") {
        tell(text.as_bytes(), err);
    }
}

/// Says which host and port a shell is connected to, if there is memory for it.
pub(crate) fn put_connected<E: Sink>(alloc: Global, host: &str, port: u16, err: &mut E) {
    if let Ok(text) = connected_line(alloc, host, port) {
        tell(text.as_bytes(), err);
    }
}

fn connected_line(alloc: Global, host: &str, port: u16) -> Result<String, AllocError>
    ensures { IfOk result (λ t. string_bytes t ≡ connected_line host.now port) }
{
    let place = place_name(alloc, host, port)?;
    let text = format!(in alloc; "connected to {place}\n")?;
    Ok(text)
}

/// A host and a port as they are told.
fn place_name(alloc: Global, host: &str, port: u16) -> Result<String, AllocError>
    ensures { IfOk result (λ t. string_bytes t ≡ place_name host.now port) }
{
    let host = escape(alloc, host)?;
    let text = format!(in alloc; "{host} port {port}")?;
    Ok(text)
}

/// A name and the system's reason on a line, if there is memory for it.
fn put_reason<E: Sink>(alloc: Global, name: &str, error: &io::Error, err: &mut E) {
    if let Ok(text) = format!(in alloc; "{name}: {error}\n") {
        tell(text.as_bytes(), err);
    }
}

/// The fault of a file that isn't read, and of a connection that isn't had: want of memory, or I1.
pub(crate) fn unread(error: &io::Error) -> StreamFault
    ensures memory { (result ≡ StreamFault.Memory)
        ↔ (error_kind error.now ≡ ErrorKind.OutOfMemory) }
    ensures read { (result ≡ StreamFault.Memory) ⊎ (result ≡ StreamFault.ReadFailed) }
{
    if error.kind() == ErrorKind::OutOfMemory {
        return StreamFault::Memory;
    }
    StreamFault::ReadFailed
}
