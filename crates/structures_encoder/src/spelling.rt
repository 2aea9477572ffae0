//! Cells, lists and dictionaries.
ghost use Rattle.std.specs.Prelude.{OnOk};
ghost use Rattle.structures_encoder.specs.Prelude.{shape, Spells, Puts, IsPassed, list_of, dict_of};

use crate::fault::{Spelled, Unspelled};
use crate::graphs::put_structure;
use crate::scope::Scope;
use crate::texts::{put_bits, put_bytes, put_list_head, put_number, put_string};
use packstream::MAX_SIZE;
use packstream::twins::{Lookup, first_twin};
use packstream::writing::{Output, put_head};
use structures_cells::Cell;

/// Spells a cell that nests within the room.
#[cycle(speller)]
#[tactic(auto, using(crate::proofs::Flat::shape_of_dict))]
fn put_cell(out: &mut Output, scope: Scope, cell: &Cell) -> Spelled<()>
    ensures spelled { Puts (Spells scope (shape cell.now)) out.old out.new result }
    ensures fine { OnOk result (IsPassed scope (shape cell.now)) }
{
    match cell {
        Cell::Null => Ok(out.push(0xC0)?),
        Cell::Bool(b) => Ok(out.push(if *b { 0xC3 } else { 0xC2 })?),
        Cell::Int(n) => put_number(out, *n),
        Cell::Float(bits) => put_bits(out, *bits),
        Cell::Bytes(bytes) => put_bytes(out, bytes),
        Cell::Text(text) => put_string(out, text),
        Cell::List(members) => put_cells(out, scope, members),
        Cell::Dict(pairs) => put_entries(out, scope, pairs),
        _ => put_structure(out, scope, cell),
    }
}

/// Spells a member of a list. It stands in the loop over members, so that an integer is no call.
#[cycle(speller)]
#[inline(always)]
fn put_member(out: &mut Output, scope: Scope, member: &Cell) -> Spelled<()>
    ensures spelled { Puts (Spells scope (shape member.now)) out.old out.new result }
    ensures fine { OnOk result (IsPassed scope (shape member.now)) }
{
    match member {
        Cell::Int(n) => put_number(out, *n),
        _ => put_cell(out, scope, member),
    }
}

/// Spells a list. It stands in `put_list`, so that a row that is flat is one loop.
#[cycle(speller)]
#[inline(always)]
pub(crate) fn put_cells(out: &mut Output, scope: Scope, members: &[Cell]) -> Spelled<()>
    ensures spelled { Puts (Spells scope (list_of shape members.now)) out.old out.new result }
    ensures fine { OnOk result (IsPassed scope (list_of shape members.now)) }
{
    let inner = put_list_head(out, scope, members.len())?;
    for member in members {
        put_member(out, inner, member)?;
    }
    Ok(())
}

/// Spells a dictionary.
#[cycle(speller)]
pub(crate) fn put_entries(out: &mut Output, scope: Scope, pairs: &[(String, Cell)]) -> Spelled<()>
    ensures spelled { Puts (Spells scope (dict_of pairs.now)) out.old out.new result }
    ensures fine { OnOk result (IsPassed scope (dict_of pairs.now)) }
{
    let inner = scope.inner()?;
    if pairs.len() > MAX_SIZE || first_twin(Lookup::InSet(out.allocator()), pairs) < pairs.len() {
        return Err(Unspelled);
    }
    put_head(out, 0xA0, 0xD8, pairs.len() as u32)?;
    for pair in pairs {
        put_string(out, &pair.0)?;
        put_cell(out, inner, &pair.1)?;
    }
    Ok(())
}
