//! What is printed of what a client heard.
ghost use Rattle.std.specs.Prelude.{◌≡◌, IfOk, string_bytes};
ghost use Rattle.structures_cells.specs.Shape.{shape, shapes};
ghost use Rattle.messages.specs.View.{response_view};
ghost use Rattle.cli_output.specs.Telling.{spelled, row_text, heard_line, failure_line};
ghost use Rattle.cli_output.specs.Names.{outcome_name, phase_name};

use crate::escapes::escape;
use crate::names::{outcome_name, phase_name};
use arrayvec::ArrayString;
use bytes::BytesMut;
use client::Outcome;
use itoa::Buffer;
use machine::Phase;
use messages::Response;
use packstream::encode;
use std::alloc::{AllocError, Global};
use structures::{Cell, write};
use wire::Version;

/// How many bytes the line of a summary has at most: it has 49 at the longest number and names.
pub const LONGEST_SUMMARY: usize = 64;

/// `heard ORDINAL OUTCOME PHASE` on a line. Takes no memory.
pub fn heard_line(ordinal: u64, outcome: Outcome, phase: Phase) -> ArrayString<LONGEST_SUMMARY>
    ensures { result.bytes ≡ heard_line ordinal (outcome_name outcome) (phase_name phase) }
{
    let mut digits = Buffer::new();
    let mut line = ArrayString::new();
    line.push_str("heard ");
    line.push_str(digits.format(ordinal));
    line.push_str(" ");
    line.push_str(outcome_name(outcome));
    line.push_str(" ");
    line.push_str(phase_name(phase));
    line.push_str("\n");
    line
}

/// `row HEX` on a line. A row that was heard at the version can be written.
#[tactic(auto, using(crate::proofs::Spelled::row_cells))]
pub(crate) fn row(alloc: Global, version: Version, cells: Vec<Cell>) -> Result<String, AllocError>
    ensures { IfOk result (λ t. string_bytes t ≡ row_text version (shapes cells.items)) }
{
    let list = Cell::List(cells);
    let hex = spelled(alloc, version, &list)?;
    let text = format!(in alloc; "row {hex}\n")?;
    Ok(text)
}

/// The shortest spelling of a cell, in lower case hex.
#[tactic(auto, using(crate::proofs::Spelled::spelled_form))]
fn spelled(alloc: Global, version: Version, cell: &Cell) -> Result<String, AllocError>
    ensures { IfOk result (λ t. string_bytes t ≡ spelled version (shape cell.now)) }
{
    let Ok(packed) = write(alloc, version, cell) else {
        return Err(AllocError);
    };
    let mut spelling = BytesMut::new(alloc);
    let Ok(()) = encode(&packed, &mut spelling) else {
        return Err(AllocError);
    };
    let hex = hex::encode(alloc, spelling.as_slice())?;
    Ok(hex)
}

/// `heard ORDINAL OUTCOME PHASE` on a line.
pub fn summary(
    alloc: Global,
    ordinal: u64,
    outcome: Outcome,
    phase: Phase,
) -> Result<String, AllocError>
    ensures { IfOk result (λ t. string_bytes t
        ≡ heard_line ordinal (outcome_name outcome) (phase_name phase)) }
{
    let outcome = outcome_name(outcome);
    let phase = phase_name(phase);
    let text = format!(in alloc; "heard {ordinal} {outcome} {phase}\n")?;
    Ok(text)
}

/// `fault CODE MESSAGE` on a line, of a FAILURE alone.
pub(crate) fn failure(alloc: Global, response: &Response) -> Result<Vec<u8>, AllocError>
    ensures { IfOk result (λ t. t.items ≡ failure_line (response_view response.now)) }
{
    match response {
        // The code and the message are a stranger's.
        Response::Failure { code, message } => {
            let code = escape(alloc, code.as_str())?;
            let message = escape(alloc, message.as_str())?;
            let mut line = Vec::new(alloc);
            line.extend_from_slice(b"fault ")?;
            line.extend_from_slice(code.as_bytes())?;
            line.extend_from_slice(b" ")?;
            line.extend_from_slice(message.as_bytes())?;
            line.extend_from_slice(b"\n")?;
            Ok(line)
        }
        _ => Ok(Vec::new(alloc)),
    }
}
