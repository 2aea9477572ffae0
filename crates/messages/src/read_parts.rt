//! Parts of a message that are read of requests and of responses.
ghost use Rattle.std.specs.Prelude.{◌≡◌, [], ◌++◌, IfOk, OnOk};
ghost use Rattle.messages.specs.Prelude.{tree, shape, Answers, SpellsDict, fields_seen, entries_seen, cells_tree, row_tree, cell_of_field, entries_of_dict, only_dict, no_field, one_field, three_fields, dict_of_cells, list_of_cells};

use crate::fault::{Answer, MsgFault};
use packstream::Value;
use packstream::source::Source;
use std::alloc::Global;
use structures::{Cell, read_value};
use structures_decoder::{Unscanned, dict_from};
use wire::Version;

/// The entries of a dictionary of cells.
pub(crate) type Cells = Vec<(String, Cell)>;

/// What is read straight from the bytes, or nothing.
pub(crate) type Scanned<T> = Result<T, Unscanned>;

/// No field.
#[tactic(auto, using(crate::proofs::Fields::some_field))]
pub(crate) fn none(fields: &[Value]) -> Result<(), MsgFault>
    ensures { Answers (λ _. tt) result (no_field (fields_seen fields.now)) }
{
    if fields.is_empty() {
        Ok(())
    } else {
        Err(MsgFault::Fields)
    }
}

/// One field.
#[tactic(auto, using(crate::proofs::Fields::not_one))]
pub(crate) fn one(fields: &[Value]) -> Result<&Value, MsgFault>
    ensures { Answers (λ x. tree x.now) result (one_field (fields_seen fields.now)) }
{
    if fields.len() != 1 {
        return Err(MsgFault::Fields);
    }
    Ok(&fields[0])
}

/// Three fields.
#[tactic(auto, using(crate::proofs::Fields::not_three))]
pub(crate) fn three(fields: &[Value]) -> Result<(&Value, &Value, &Value), MsgFault>
    ensures { Answers (λ x. (tree x.0.now, tree x.1.now, tree x.2.now)) result (three_fields (fields_seen fields.now)) }
{
    if fields.len() != 3 {
        return Err(MsgFault::Fields);
    }
    Ok((&fields[0], &fields[1], &fields[2]))
}

/// A dictionary.
#[tactic(auto, using(packstream::proofs::Putting::tree_of_dict))]
pub(crate) fn entries_in(field: &Value) -> Result<&[(String, Value)], MsgFault>
    ensures { Answers (λ x. entries_seen tree x.now) result (entries_of_dict (tree field.now)) }
{
    match field {
        Value::Dict(pairs) => Ok(pairs),
        _ => Err(MsgFault::Fields),
    }
}

/// One field, a dictionary.
pub(crate) fn extra_in(fields: &[Value]) -> Result<&[(String, Value)], MsgFault>
    ensures { Answers (λ x. entries_seen tree x.now) result (only_dict (fields_seen fields.now)) }
{
    entries_in(one(fields)?)
}

/// The cell in a field.
fn cell_in(alloc: Global, version: Version, field: &Value) -> Result<Cell, MsgFault>
    ensures { Answers shape result (cell_of_field version (tree field.now)) }
{
    Ok(read_value(alloc, version, field)?)
}

/// A dictionary of cells.
#[tactic(auto, using(structures_encoder::proofs::Flat::shape_of_dict))]
pub(crate) fn cells_in(alloc: Global, version: Version, field: &Value) -> Answer<Cells>
    ensures { Answers (λ v. cells_tree v.items) result (dict_of_cells version (tree field.now)) }
{
    let _ = entries_in(field)?;
    match cell_in(alloc, version, field)? {
        Cell::Dict(pairs) => Ok(pairs),
        _ => Err(MsgFault::Fields),
    }
}

/// A list of cells.
pub(crate) fn row_in(alloc: Global, version: Version, field: &Value) -> Result<Vec<Cell>, MsgFault>
    ensures { Answers (λ v. row_tree v.items) result (list_of_cells version (tree field.now)) }
{
    match field {
        Value::List(_) => match cell_in(alloc, version, field)? {
            Cell::List(members) => Ok(members),
            _ => Err(MsgFault::Fields),
        },
        _ => Err(MsgFault::Fields),
    }
}

/// How deep a field may nest: the message itself is one level of the 32.
pub(crate) const FIELD_DEPTH: u8 = 31;

/// That nothing is left.
pub(crate) fn end<S: Source>(rest: S) -> Result<(), Unscanned>
    ensures { OnOk result (S.left rest ≡ []) }
{
    if rest.is_empty() {
        Ok(())
    } else {
        Err(Unscanned)
    }
}

/// A dictionary of cells straight from the source, and the source after it. Many have no entries.
#[tactic(auto, using(crate::proofs::Scanned::dict_scanned, crate::proofs::Scanned::empty_scanned))]
pub(crate) fn cells_from<S: Source>(
    alloc: Global,
    version: Version,
    source: S,
) -> Scanned<(Cells, S)>
    ensures { IfOk result (λ x. SpellsDict version (cells_tree x.0.items) (S.left x.1) (S.left source)) }
{
    if let Ok(rest) = after_prefix(source, b"\xA0") {
        return Ok((Vec::new(alloc), rest));
    }
    dict_from(alloc, version, source, FIELD_DEPTH)
}

/// The source after these bytes.
#[inline(always)]
pub(crate) fn after_prefix<S: Source>(source: S, prefix: &[u8]) -> Result<S, Unscanned>
    ensures { IfOk result (λ x. S.left source ≡ prefix.now ++ S.left x) }
{
    match source.strip_prefix(prefix) {
        Some(rest) => Ok(rest),
        None => Err(Unscanned),
    }
}
