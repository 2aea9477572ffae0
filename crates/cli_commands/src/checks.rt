//! Whether bytes are a value, and whether it is a cell.
ghost use Rattle.std.specs.Prelude.{◌≡◌, ◌↔◌, ℕ, List, IsErr, IfOk};
ghost use Rattle.hex.specs.Hex.{decode_of};
ghost use Rattle.structures_cells.specs.Shape.{shape};
ghost use Rattle.wire.specs.declared.Version.{Version as AnyVersion};
ghost use Rattle.cli_commands.specs.Checks.{ChecksHex, Checks, ChecksFault, IsSpelled, IsWrittenBack, IsUnfit};
ghost use Rattle.cli_commands.specs.declared.answers.AnswerFault.TheVariants as fault;

use crate::answers::{AnswerFault, is_hex};
use bytes::BytesMut;
use packstream::{PackFault, Packed, Reason, decode, encode};
use std::alloc::{AllocError, Global};
use structures::{Cell, CellFault, Reason as CellReason, read, write};
use wire::Version;

/// What bytes are.
#[derive(Debug, Drop)]
pub enum Checked {
    /// A value that is a cell; its shortest spelling in lower case hex.
    Fine(String),
    /// No value, for this reason at this offset; or a cell that takes more than 65,536 bytes, at 0.
    Refused(Reason, usize),
    /// No cell of the version, for this reason at the structure of this number in preorder, from 0.
    Unfit(CellReason, usize),
}

/// Reads the bytes that the text spells in hex as one value and as a cell of the version, and spells the cell again.
pub fn check_text(alloc: Global, version: Version, text: &str) -> Result<Checked, AnswerFault>
    // The text is refused exactly if it isn't hex of whole bytes.
    ensures hex { (result ≡ Err fault.BadHex) ↔ IsErr (decode_of text.now) }
    ensures checked { IfOk result (λ c. ChecksHex version text.now c) }
{
    if !is_hex(text) {
        return Err(AnswerFault::BadHex);
    }
    let Ok(bytes) = hex::decode(alloc, text) else {
        return Err(AnswerFault::Memory);
    };
    let Ok(checked) = check(alloc, version, &bytes) else {
        return Err(AnswerFault::Memory);
    };
    Ok(checked)
}

/// Reads the bytes as one value and as a cell, and spells the cell.
fn check(alloc: Global, version: Version, bytes: &[u8]) -> Result<Checked, AllocError>
    ensures { IfOk result (λ c. Checks version bytes.now c) }
{
    let packed = match decode(alloc, bytes) {
        Ok(packed) => packed,
        Err(fault) => return refused(fault),
    };
    let cell = match read(alloc, version, &packed) {
        Ok(cell) => cell,
        Err(fault) => return unfit(fault),
    };
    written_back(alloc, version, &cell)
}

fn refused(fault: PackFault) -> Result<Checked, AllocError>
    ensures { (v : AnyVersion) (b : List ℕ) → ChecksFault b fault
        → IfOk result (λ c. Checks v b c) }
{
    match fault {
        PackFault::Refused(reason, place) => Ok(Checked::Refused(reason, place)),
        PackFault::Memory => Err(AllocError),
    }
}

fn unfit(fault: CellFault) -> Result<Checked, AllocError>
    ensures { IfOk result (λ c. IsUnfit fault c) }
{
    match fault {
        CellFault::Refused(reason, number) => Ok(Checked::Unfit(reason, number)),
        CellFault::Pack(reason, place) => Ok(Checked::Refused(reason, place)),
        CellFault::Memory => Err(AllocError),
    }
}

/// Spells the value of the cell.
fn written_back(alloc: Global, version: Version, cell: &Cell) -> Result<Checked, AllocError>
    ensures { IfOk result (λ c. IsWrittenBack version (shape cell.now) c) }
{
    match write(alloc, version, cell) {
        Ok(packed) => spelled(alloc, &packed),
        Err(fault) => unfit(fault),
    }
}

/// Spells the value.
fn spelled(alloc: Global, packed: &Packed) -> Result<Checked, AllocError>
    ensures { IfOk result (λ c. IsSpelled packed.now c) }
{
    let mut spelling = BytesMut::new(alloc);
    match encode(packed, &mut spelling) {
        Ok(()) => {}
        Err(PackFault::Refused(reason, place)) => return Ok(Checked::Refused(reason, place)),
        Err(PackFault::Memory) => return Err(AllocError),
    }
    let text = hex::encode(alloc, spelling.as_slice())?;
    Ok(Checked::Fine(text))
}
