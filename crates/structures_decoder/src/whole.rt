//! Cells, lists, dictionaries, integers and texts at the front of a message's bytes, or of what is left of them. `cell_from` and those
//! beside it read any source, `scan_cell` and those beside it a slice.
ghost use Rattle.std.specs.Prelude.{◌≤◌, IfOk};
ghost use Rattle.structures_decoder.specs.Prelude.{IsGood, depth, int, text, shape, IsWritable, form, SpellsFront, list_shape, dict_shape};

use crate::dictionaries::{Pairs, dict_in};
use crate::fault::{Decoded, Scanned};
use crate::plain::{int_in, text_in, text_in_slice};
use crate::scan::{cell_in, list_in};
use crate::scope::Scope;
use packstream::source::Source;
use std::alloc::Global;
use structures_cells::Cell;
use wire::Version;

/// Reads the cell whose form at the version comes next, in any of its encodings, and returns it with the source after it. That form is
/// good and nests at most `room` deep, and none of its structures has a fault.
///
/// # Errors
/// `Unscanned` if what comes next is no such value, or if there is no memory.
pub fn cell_from<S: Source>(
    alloc: Global,
    version: Version,
    source: S,
    room: u8,
) -> Decoded<Cell, S>
    requires { room ≤ 32 }
    ensures spelled { IfOk result (λ x. SpellsFront (form version (shape x.0)) (S.left x.1) (S.left source)) }
    ensures good { IfOk result (λ x. IsGood (form version (shape x.0))) }
    ensures deep { IfOk result (λ x. depth (form version (shape x.0)) ≤ room) }
    ensures writable { IfOk result (λ x. IsWritable version (shape x.0)) }
{
    source.has_bytes();
    cell_in(Scope { alloc, version }, room, source)
}

/// Reads the members of a list, as `cell_from` a cell.
///
/// # Errors
/// As `cell_from`.
pub fn list_from<S: Source>(
    alloc: Global,
    version: Version,
    source: S,
    room: u8,
) -> Decoded<Vec<Cell>, S>
    requires { room ≤ 32 }
    ensures spelled { IfOk result
        (λ x. SpellsFront (form version (list_shape x.0.items)) (S.left x.1) (S.left source)) }
    ensures good { IfOk result (λ x. IsGood (form version (list_shape x.0.items))) }
    ensures deep { IfOk result (λ x. depth (form version (list_shape x.0.items)) ≤ room) }
    ensures writable { IfOk result (λ x. IsWritable version (list_shape x.0.items)) }
{
    source.has_bytes();
    list_in(Scope { alloc, version }, room, source)
}

/// Reads the entries of a dictionary, as `cell_from` a cell.
///
/// # Errors
/// As `cell_from`.
pub fn dict_from<S: Source>(
    alloc: Global,
    version: Version,
    source: S,
    room: u8,
) -> Decoded<Pairs, S>
    requires { room ≤ 32 }
    ensures spelled { IfOk result
        (λ x. SpellsFront (form version (dict_shape x.0.items)) (S.left x.1) (S.left source)) }
    ensures good { IfOk result (λ x. IsGood (form version (dict_shape x.0.items))) }
    ensures deep { IfOk result (λ x. depth (form version (dict_shape x.0.items)) ≤ room) }
    ensures writable { IfOk result (λ x. IsWritable version (dict_shape x.0.items)) }
{
    source.has_bytes();
    dict_in(Scope { alloc, version }, room, source)
}

/// Reads an integer, in any of its encodings, and returns it with the source after it.
///
/// # Errors
/// `Unscanned` if what comes next isn't an integer.
pub fn int_from<S: Source>(source: S) -> Decoded<i64, S>
    ensures spelled { IfOk result (λ x. SpellsFront (int x.0) (S.left x.1) (S.left source)) }
    ensures good { IfOk result (λ x. IsGood (int x.0)) }
{
    source.has_bytes();
    int_in(source)
}

/// Reads a text, in any of its encodings, and returns it with the source after it.
///
/// # Errors
/// `Unscanned` if what comes next isn't a text in UTF-8.
#[inline(always)]
pub fn text_from<S: Source>(source: &S) -> Decoded<&str, S>
    ensures spelled { IfOk result (λ x. SpellsFront (text x.0.now) (S.left x.1) (S.left source.now)) }
    ensures good { IfOk result (λ x. IsGood (text x.0.now)) }
{
    source.has_bytes();
    text_in(source)
}

/// The cell whose form at the version the front of the bytes spells, in any of its spellings, and what follows it. That form is good and
/// nests at most `room` deep, and none of its structures has a fault.
pub fn scan_cell(alloc: Global, version: Version, bytes: &[u8], room: u8) -> Scanned<'_, Cell>
    requires { room ≤ 32 }
    ensures spelled { IfOk result (λ x. SpellsFront (form version (shape x.0)) x.1.now bytes.now) }
    ensures good { IfOk result (λ x. IsGood (form version (shape x.0))) }
    ensures deep { IfOk result (λ x. depth (form version (shape x.0)) ≤ room) }
    ensures writable { IfOk result (λ x. IsWritable version (shape x.0)) }
{
    cell_from(alloc, version, bytes, room)
}

/// The members of the list whose form at the version the front of the bytes spells, as `scan_cell` a cell.
pub fn scan_list(alloc: Global, version: Version, bytes: &[u8], room: u8) -> Scanned<'_, Vec<Cell>>
    requires { room ≤ 32 }
    ensures spelled { IfOk result (λ x. SpellsFront (form version (list_shape x.0.items)) x.1.now bytes.now) }
    ensures good { IfOk result (λ x. IsGood (form version (list_shape x.0.items))) }
    ensures deep { IfOk result (λ x. depth (form version (list_shape x.0.items)) ≤ room) }
    ensures writable { IfOk result (λ x. IsWritable version (list_shape x.0.items)) }
{
    list_from(alloc, version, bytes, room)
}

/// The entries of the dictionary whose form at the version the front of the bytes spells, as `scan_cell` a cell.
pub fn scan_dict(alloc: Global, version: Version, bytes: &[u8], room: u8) -> Scanned<'_, Pairs>
    requires { room ≤ 32 }
    ensures spelled { IfOk result (λ x. SpellsFront (form version (dict_shape x.0.items)) x.1.now bytes.now) }
    ensures good { IfOk result (λ x. IsGood (form version (dict_shape x.0.items))) }
    ensures deep { IfOk result (λ x. depth (form version (dict_shape x.0.items)) ≤ room) }
    ensures writable { IfOk result (λ x. IsWritable version (dict_shape x.0.items)) }
{
    dict_from(alloc, version, bytes, room)
}

/// The integer that the front of the bytes spells, in any of its forms, and what follows it.
pub fn scan_int(bytes: &[u8]) -> Scanned<'_, i64>
    ensures spelled { IfOk result (λ x. SpellsFront (int x.0) x.1.now bytes.now) }
    ensures good { IfOk result (λ x. IsGood (int x.0)) }
{
    int_from(bytes)
}

/// The text that the front of the bytes spells, lent, and what follows it.
#[inline(always)]
pub fn scan_text(bytes: &[u8]) -> Scanned<'_, &str>
    ensures spelled { IfOk result (λ x. SpellsFront (text x.0.now) x.1.now bytes.now) }
    ensures good { IfOk result (λ x. IsGood (text x.0.now)) }
{
    text_in_slice(bytes)
}
