//! Cells of values, and values of cells.
#![tactic(auto, using(structures_cells::proofs::Fine::fine_scan, crate::proofs::Clauses::written))]

ghost use Rattle.std.specs.Prelude.{◌≡◌, Err};
ghost use Rattle.packstream.specs.Prelude.{dict, list, tree, trees_of, entries_of};
ghost use Rattle.structures_cells.specs.Prelude.{IsFine, shape, shapes, entries, IsWritable};
ghost use Rattle.structures.specs.declared.fault.CellFault.TheVariants as fault;
ghost use Rattle.structures.specs.Prelude.{ReadsForm, ReadsFault, WritesForm, WritesFault, WritesPackFault, Packs};

use crate::fault::CellFault;
use crate::reader::cell_of;
use crate::scope::Scope;
use crate::writer::{pair_values, value_of, values_of};
use packstream::{PackFault, Packed, Value};
use std::alloc::Global;
use structures_cells::{Cell, check_cell, check_cells, check_entries, check_value};
use wire::Version;

/// The cell of a value that stands inside another, as `read` reads it.
pub fn read_value(alloc: Global, version: Version, value: &Value) -> Result<Cell, CellFault>
    ensures cell { ReadsForm version (tree value.now) result }
    ensures fault { ReadsFault version (tree value.now) result }
    ensures memory { result ≡ Err fault.Memory → IsFine version (tree value.now) }
{
    match check_value(version, value, 0) {
        Err((reason, number)) => Err(CellFault::Refused(reason, number)),
        Ok(_) => Ok(cell_of(alloc, value)?),
    }
}

/// The cell of a value in the form of a version.
///
/// Refuses the first structure in preorder with a fault, by its number from 0 and its first fault in this order:
/// unknown tag (S1) or tag of another version (S6), number of fields (S2), kind of a field (S3), number out of its
/// range (S4), path without a node or that doesn't walk (S5); and for want of memory (S7).
pub fn read(alloc: Global, version: Version, packed: &Packed) -> Result<Cell, CellFault>
    // Apart from memory, it is the cell whose form the value is, if it is one's, and else the value's first fault.
    ensures cell { ReadsForm version packed.now result }
    ensures fault { ReadsFault version packed.now result }
    ensures memory { result ≡ Err fault.Memory → IsFine version packed.now }
{
    read_value(alloc, version, packed.value())
}

fn pack(alloc: Global, value: Value) -> Result<Packed, CellFault>
    ensures { Packs (tree value) result }
{
    match Packed::new_in(alloc, value) {
        Ok(packed) => Ok(packed),
        Err(PackFault::Refused(reason, place)) => Err(CellFault::Pack(reason, place)),
        Err(PackFault::Memory) => unreachable!(),
    }
}

/// The value of a cell in the form of a version.
///
/// Refuses the first typed cell in preorder with a fault, by its number from 0 and its first fault in this order: cell
/// or element ids of another version (S6), number out of its range (S4), path without a node or that doesn't walk (S5).
/// If there is none, refuses a value that is too deep or has a key twice (S8), and for want of memory (S7).
pub fn write(alloc: Global, version: Version, cell: &Cell) -> Result<Packed, CellFault>
    // Apart from memory, it is the cell's form, if the cell has one and that is good; else the first fault of a cell, or
    // that of the form.
    ensures value { WritesForm version (shape cell.now) result }
    ensures fault { WritesFault version (shape cell.now) result }
    ensures pack { WritesPackFault version (shape cell.now) result }
    ensures memory { result ≡ Err fault.Memory → IsWritable version (shape cell.now) }
{
    match check_cell(version, cell, 0) {
        Err((reason, number)) => Err(CellFault::Refused(reason, number)),
        Ok(_) => pack(alloc, value_of(Scope { alloc, version }, cell)?),
    }
}

/// The value of a list of these cells, as `write` writes it.
pub fn write_members(
    alloc: Global,
    version: Version,
    members: &Vec<Cell>,
) -> Result<Packed, CellFault>
    ensures value { WritesForm version (list (trees_of (shapes members.now.items))) result }
    ensures fault { WritesFault version (list (trees_of (shapes members.now.items))) result }
    ensures pack { WritesPackFault version (list (trees_of (shapes members.now.items))) result }
    ensures memory { result ≡ Err fault.Memory → IsWritable version (list (trees_of (shapes members.now.items))) }
{
    match check_cells(version, members, 0) {
        Err((reason, number)) => Err(CellFault::Refused(reason, number)),
        Ok(_) => pack(
            alloc,
            Value::List(values_of(Scope { alloc, version }, members)?),
        ),
    }
}

/// The value of a dictionary of these entries, as `write` writes it.
pub fn write_entries(
    alloc: Global,
    version: Version,
    pairs: &Vec<(String, Cell)>,
) -> Result<Packed, CellFault>
    ensures value { WritesForm version (dict (entries_of (entries pairs.now.items))) result }
    ensures fault { WritesFault version (dict (entries_of (entries pairs.now.items))) result }
    ensures pack { WritesPackFault version (dict (entries_of (entries pairs.now.items))) result }
    ensures memory { result ≡ Err fault.Memory → IsWritable version (dict (entries_of (entries pairs.now.items))) }
{
    match check_entries(version, pairs, 0) {
        Err((reason, number)) => Err(CellFault::Refused(reason, number)),
        Ok(_) => pack(
            alloc,
            Value::Dict(pair_values(Scope { alloc, version }, pairs)?),
        ),
    }
}
