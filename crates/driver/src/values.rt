//! Cells from Rust's own values, and back.
ghost use Rattle.std.specs.Prelude.{◌≡◌, IfOk, option_map};
ghost use Rattle.structures_cells.specs.Shape.{shape};
ghost use Rattle.packstream.specs.Tree.{text};
ghost use Rattle.driver.specs.Values.{bool_in, int_in, float_in, text_in, bytes_in, HasMembers, is_text, column};

use std::alloc::{AllocError, Global};
use structures::Cell;

/// A text as a cell.
pub fn text_cell(alloc: Global, value: &str) -> Result<Cell, AllocError>
    ensures { IfOk result (λ c. shape c ≡ text value.now) }
{
    Ok(Cell::Text(String::from_str(alloc, value)?))
}

/// The boolean, of a boolean alone.
pub fn as_bool(cell: &Cell) -> Option<bool>
    ensures { result ≡ bool_in cell.now }
{
    match cell {
        Cell::Bool(value) => Some(*value),
        _ => None,
    }
}

/// The integer, of an integer alone.
pub fn as_int(cell: &Cell) -> Option<i64>
    ensures { result ≡ int_in cell.now }
{
    match cell {
        Cell::Int(value) => Some(*value),
        _ => None,
    }
}

/// The 64 bits of a float, of a float alone.
pub fn as_float(cell: &Cell) -> Option<u64>
    ensures { result ≡ float_in cell.now }
{
    match cell {
        Cell::Float(bits) => Some(*bits),
        _ => None,
    }
}

/// The text, of a text alone.
pub fn as_text(cell: &Cell) -> Option<&str>
    ensures { option_map (λ s. s.now) result ≡ text_in cell.now }
{
    match cell {
        Cell::Text(text) => Some(text.as_str()),
        _ => None,
    }
}

/// The bytes, of a byte string alone.
pub fn as_bytes(cell: &Cell) -> Option<&[u8]>
    ensures { option_map (λ s. s.now) result ≡ bytes_in cell.now }
{
    match cell {
        Cell::Bytes(bytes) => Some(bytes.as_slice()),
        _ => None,
    }
}

/// The members, of a list alone.
pub fn as_list(cell: &Cell) -> Option<&[Cell]>
    ensures { HasMembers cell.now (option_map (λ s. s.now) result) }
{
    match cell {
        Cell::List(cells) => Some(cells.as_slice()),
        _ => None,
    }
}

/// Whether it is this text.
fn is_text(cell: &Cell, text: &str) -> bool
    ensures { result ≡ is_text text.now cell.now }
{
    match as_text(cell) {
        Some(own) => own == text,
        None => false,
    }
}

/// The member of a row that stands under a name, by the names of `fields` in the same order; none if no field has it, or the row ends before.
pub fn column<'a>(fields: &[Cell], row: &'a [Cell], name: &str) -> Option<&'a Cell>
    ensures { option_map (λ c. c.now) result ≡ column name.now fields.now row.now }
{
    for i in 0..fields.len() {
        if i >= row.len() {
            return None;
        }
        if is_text(&fields[i], name) {
            return Some(&row[i]);
        }
    }
    None
}
