//! Parameters out of bytes.
ghost use Rattle.std.specs.Result.{result_ok};
ghost use Rattle.packstream.specs.Answers.{whole_of};
ghost use Rattle.structures_cells.specs.Shape.{shape, entries};
ghost use Rattle.cli_scripts.specs.Answers.{Gives};
ghost use Rattle.cli_scripts.specs.Params.{cell_at, cell_of, entries_in, params_of};

use crate::fault::LineFault;
use packstream::{PackFault, Packed, decode};
use std::alloc::Global;
use structures::{Cell, CellFault, read};
use wire::{VERSIONS, Version};

/// The parameters that bytes spell: a dictionary that is a cell at some version.
pub(crate) fn params_of(alloc: Global, bytes: &[u8]) -> Result<Vec<(String, Cell)>, LineFault>
    ensures { Gives (λ v. entries v.items) result (params_of bytes.now) }
{
    let packed = value_of(alloc, bytes)?;
    let cell = cell_of(alloc, &packed)?;
    entries_in(cell)
}

/// The value that bytes spell.
fn value_of(alloc: Global, bytes: &[u8]) -> Result<Packed, LineFault>
    ensures { Gives (λ p. p) result (result_ok (whole_of bytes.now)) }
{
    match decode(alloc, bytes) {
        Ok(packed) => Ok(packed),
        Err(PackFault::Refused(_, _)) => Err(LineFault::Unreadable),
        Err(PackFault::Memory) => Err(LineFault::Memory),
    }
}

fn entries_in(cell: Cell) -> Result<Vec<(String, Cell)>, LineFault>
    ensures { Gives (λ v. entries v.items) result (entries_in (shape cell)) }
{
    match cell {
        Cell::Dict(pairs) => Ok(pairs),
        _ => Err(LineFault::Unreadable),
    }
}

/// The cell of a value at a version that reads it.
fn cell_of(alloc: Global, packed: &Packed) -> Result<Cell, LineFault>
    ensures { Gives shape result (cell_of packed.now) }
{
    for version in VERSIONS {
        match cell_at(alloc, version, packed) {
            Err(LineFault::Unreadable) => {}
            answer => return answer,
        }
    }
    Err(LineFault::Unreadable)
}

fn cell_at(alloc: Global, version: Version, packed: &Packed) -> Result<Cell, LineFault>
    ensures { Gives shape result (cell_at version packed.now) }
{
    match read(alloc, version, packed) {
        Ok(cell) => Ok(cell),
        Err(CellFault::Refused(_, _)) => Err(LineFault::Unreadable),
        Err(_) => Err(LineFault::Memory),
    }
}
