//! Lines that are printed, and texts that are told.
ghost use Rattle.std.specs.Prelude.{◌≡◌, ◌⊎◌, true, IfErr, IfOk, OnOk, OnErr, string_bytes, IsErrOf};
ghost use Rattle.structures_cells.specs.Shape.{shapes};
ghost use Rattle.std.specs.Io.KnownBytes.{Appends};
ghost use Rattle.messages.specs.View.{response_view};
ghost use Rattle.client.specs.Notes.{note};
ghost use Rattle.client.specs.Rest.{Summary};
ghost use Rattle.engine.specs.Views.{entries_view, entry_view};
ghost use Rattle.streams.specs.Failing.{StaysSound, UnlessTold};
ghost use Rattle.streams.specs.Fronts.{AppendsFront};
ghost use Rattle.cli_output.specs.Telling.{entries_text, entry_line, conn_line, PutsLine, failure_line, heard_line as heard_text, note_text, refused_line, row_text};
ghost use Rattle.cli_output.specs.Names.{outcome_name, phase_name};
ghost use Rattle.cli_output.specs.Stopping.{Gets};

use crate::names::cause_code;
use crate::summaries::{failure, heard_line, row};
use client::{Heard, Outcome};
use engine::Entry;
use machine::Phase;
use messages::Response;
use server_session::Cause;
use std::alloc::{AllocError, Global};
use streams::{Sink, StreamFault, write_all};
use structures::Cell;
use wire::Version;

/// Writes a text: I2 if it isn't taken whole.
pub fn put<O: Sink>(text: &[u8], out: &mut O) -> Result<(), StreamFault>
    ensures puts { PutsLine text.now (O.taken out.old) (O.taken out.new) result }
    ensures text { OnOk result (Appends (O.taken out.old) (O.taken out.new) text.now) }
    ensures front { OnErr result (AppendsFront (O.taken out.old) (O.taken out.new) text.now) }
    ensures fault { IfErr result (λ e. e ≡ StreamFault.WriteFailed) }
    ensures read { IsErrOf result StreamFault.ReadFailed → ⊥ }
    ensures written { IsErrOf result StreamFault.WriteFailed → O.has_failed out.new ≡ true }
    ensures sound { UnlessTold result StreamFault.WriteFailed
        (StaysSound (O.has_failed out.old) (O.has_failed out.new)) }
{
    match write_all(out, text) {
        Ok(()) => Ok(()),
        Err(_) => Err(StreamFault::WriteFailed),
    }
}

/// Writes a text, as far as it is taken.
pub fn tell<E: Sink>(text: &[u8], err: &mut E)
    ensures { Gets (E.has_failed err.old) (E.has_failed err.new) (E.taken err.old) (E.taken err.new)
        text.now }
{
    let _ = write_all(err, text);
}

/// Prints what was heard: `row HEX`, `heard ORDINAL OUTCOME PHASE`, or nothing. Only a row takes memory.
pub fn put_heard<O: Sink>(
    alloc: Global,
    version: Version,
    heard: Heard,
    out: &mut O,
) -> Result<(), StreamFault>
    ensures puts { PutsLine (note_text version (note heard)) (O.taken out.old) (O.taken out.new) result }
    ensures read { IsErrOf result StreamFault.ReadFailed → ⊥ }
    ensures written { IsErrOf result StreamFault.WriteFailed → O.has_failed out.new ≡ true }
    ensures sound { UnlessTold result StreamFault.WriteFailed
        (StaysSound (O.has_failed out.old) (O.has_failed out.new)) }
{
    match heard {
        Heard::Nothing => Ok(()),
        Heard::Version(_) => Ok(()),
        Heard::Row(cells) => put_row(alloc, version, cells, out),
        Heard::Summary {
            ordinal,
            phase,
            outcome,
            ..
        } => put_line(ordinal, outcome, phase, out),
    }
}

fn put_line<O: Sink>(
    ordinal: u64,
    outcome: Outcome,
    phase: Phase,
    out: &mut O,
) -> Result<(), StreamFault>
    ensures puts { PutsLine (heard_text ordinal (outcome_name outcome) (phase_name phase))
        (O.taken out.old) (O.taken out.new) result }
    ensures read { IsErrOf result StreamFault.ReadFailed → ⊥ }
    ensures written { IsErrOf result StreamFault.WriteFailed → O.has_failed out.new ≡ true }
    ensures sound { UnlessTold result StreamFault.WriteFailed
        (StaysSound (O.has_failed out.old) (O.has_failed out.new)) }
{
    let line = heard_line(ordinal, outcome, phase);
    put(line.as_str().as_bytes(), out)
}

/// Prints `row HEX`.
pub fn put_row<O: Sink>(
    alloc: Global,
    version: Version,
    cells: Vec<Cell>,
    out: &mut O,
) -> Result<(), StreamFault>
    ensures puts { PutsLine (row_text version (shapes cells.items)) (O.taken out.old)
        (O.taken out.new) result }
    ensures read { IsErrOf result StreamFault.ReadFailed → ⊥ }
    ensures written { IsErrOf result StreamFault.WriteFailed → O.has_failed out.new ≡ true }
    ensures sound { UnlessTold result StreamFault.WriteFailed
        (StaysSound (O.has_failed out.old) (O.has_failed out.new)) }
{
    let Ok(line) = row(alloc, version, cells) else {
        return Err(StreamFault::Memory);
    };
    put(line.as_bytes(), out)
}

/// Prints `fault CODE MESSAGE` of a FAILURE, and nothing else.
pub fn put_failure<O: Sink>(
    alloc: Global,
    response: &Response,
    out: &mut O,
) -> Result<(), StreamFault>
    ensures puts { PutsLine (failure_line (response_view response.now)) (O.taken out.old)
        (O.taken out.new) result }
    ensures read { IsErrOf result StreamFault.ReadFailed → ⊥ }
    ensures written { IsErrOf result StreamFault.WriteFailed → O.has_failed out.new ≡ true }
    ensures sound { UnlessTold result StreamFault.WriteFailed
        (StaysSound (O.has_failed out.old) (O.has_failed out.new)) }
{
    let Ok(text) = failure(alloc, response) else {
        return Err(StreamFault::Memory);
    };
    put(text.as_slice(), out)
}

/// Prints `line I C1`: the number of a line whose request is refused, and the code.
pub fn put_refused<O: Sink>(
    alloc: Global,
    number: usize,
    code: &str,
    out: &mut O,
) -> Result<(), StreamFault>
    ensures told { OnOk result
        (Appends (O.taken out.old) (O.taken out.new) (refused_line number code.now)) }
    ensures part { OnErr result
        ((O.taken out.new ≡ O.taken out.old)
        ⊎ AppendsFront (O.taken out.old) (O.taken out.new) (refused_line number code.now)) }
    ensures read { IsErrOf result StreamFault.ReadFailed → ⊥ }
    ensures written { IsErrOf result StreamFault.WriteFailed → O.has_failed out.new ≡ true }
    ensures sound { UnlessTold result StreamFault.WriteFailed
        (StaysSound (O.has_failed out.old) (O.has_failed out.new)) }
{
    let Ok(text) = refused_text(alloc, number, code) else {
        return Err(StreamFault::Memory);
    };
    put(text.as_bytes(), out)
}

fn refused_text(alloc: Global, number: usize, code: &str) -> Result<String, AllocError>
    ensures { IfOk result (λ t. string_bytes t ≡ refused_line number code.now) }
{
    let text = format!(in alloc; "line {number} {code}\n")?;
    Ok(text)
}

/// Prints `conn K En`: a connection that has ended, and why.
pub fn put_end<O: Sink>(
    alloc: Global,
    conn: u64,
    cause: Cause,
    out: &mut O,
) -> Result<(), StreamFault>
    ensures told { OnOk result
        (Appends (O.taken out.old) (O.taken out.new) (conn_line conn cause)) }
    ensures front { OnErr result
        (AppendsFront (O.taken out.old) (O.taken out.new) (conn_line conn cause)) }
    ensures read { IsErrOf result StreamFault.ReadFailed → ⊥ }
    ensures written { IsErrOf result StreamFault.WriteFailed → O.has_failed out.new ≡ true }
{
    let Ok(text) = end_text(alloc, conn, cause) else {
        return Err(StreamFault::Memory);
    };
    put(text.as_bytes(), out)
}

fn end_text(alloc: Global, conn: u64, cause: Cause) -> Result<String, AllocError>
    ensures { IfOk result (λ t. string_bytes t ≡ conn_line conn cause) }
{
    let code = cause_code(cause);
    let text = format!(in alloc; "conn {conn} {code}\n")?;
    Ok(text)
}

/// Prints the line of each entry of the ledger.
pub fn put_entries<O: Sink>(
    alloc: Global,
    entries: &[Entry],
    out: &mut O,
) -> Result<(), StreamFault>
    ensures told { OnOk result (Appends (O.taken out.old) (O.taken out.new)
        (entries_text (entries_view entries.now))) }
    ensures front { OnErr result (AppendsFront (O.taken out.old) (O.taken out.new)
        (entries_text (entries_view entries.now))) }
    ensures read { IsErrOf result StreamFault.ReadFailed → ⊥ }
    ensures written { IsErrOf result StreamFault.WriteFailed → O.has_failed out.new ≡ true }
{
    for entry in entries {
        match put_entry(alloc, entry, out) {
            Ok(()) => {}
            Err(fault) => return Err(fault),
        }
    }
    Ok(())
}

fn put_entry<O: Sink>(alloc: Global, entry: &Entry, out: &mut O) -> Result<(), StreamFault>
    ensures told { OnOk result
        (Appends (O.taken out.old) (O.taken out.new) (entry_line (entry_view entry.now))) }
    ensures front { OnErr result
        (AppendsFront (O.taken out.old) (O.taken out.new) (entry_line (entry_view entry.now))) }
    ensures read { IsErrOf result StreamFault.ReadFailed → ⊥ }
    ensures written { IsErrOf result StreamFault.WriteFailed → O.has_failed out.new ≡ true }
{
    let Ok(text) = entry_text(alloc, entry) else {
        return Err(StreamFault::Memory);
    };
    put(text.as_bytes(), out)
}

/// The line `entry CONN ORDINAL COUNT` of an entry of a ledger, with the count of its writes; of one with a token it ends with
/// ` token HEX`, the token's bytes.
pub fn entry_text(alloc: Global, entry: &Entry) -> Result<String, AllocError>
    ensures { IfOk result (λ t. string_bytes t ≡ entry_line (entry_view entry.now)) }
{
    let conn = entry.id.conn;
    let ordinal = entry.id.ordinal;
    let count = entry.writes.len();
    let Some(token) = &entry.token else {
        let text = format!(in alloc; "entry {conn} {ordinal} {count}\n")?;
        return Ok(text);
    };
    let token = hex::encode(alloc, token.as_bytes())?;
    let text = format!(in alloc; "entry {conn} {ordinal} {count} token {token}\n")?;
    Ok(text)
}
