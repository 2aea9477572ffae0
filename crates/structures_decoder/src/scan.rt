//! Cells, and lists of them.
ghost use Rattle.std.specs.Prelude.{◌∷◌, ℕ, IfOk};
ghost use Rattle.structures_decoder.specs.Prelude.{list_at, Here, struct_at, inner, shape, shapes, Takes, IsTaken, CellJoins, list_shape};

use crate::dictionaries::dict_of;
use crate::fault::{Decoded, Left, Unscanned};
use crate::graphs::made_of;
use crate::plain::{int_in, item_in};
use crate::scope::Scope;
use packstream::reading::first_room;
use packstream::source::{Item, Source};
use structures_cells::{Cell, check_cell};

/// A cell that nests within the room, and of whose structures none has a fault at the version.
#[cycle(scanner)]
#[tactic(auto, using(structures_cells::proofs::Views::dicts))]
pub(crate) fn cell_in<S: Source>(scope: Scope, room: u8, source: S) -> Decoded<Cell, S>
    ensures { IfOk result (λ x. IsTaken scope room (shape x.0) (S.left source) (S.left x.1)) }
{
    let (item, rest) = item_in(&source)?;
    match item {
        Item::Null => Ok((Cell::Null, rest)),
        Item::Bool(b) => Ok((Cell::Bool(b), rest)),
        Item::Int(n) => Ok((Cell::Int(n), rest)),
        Item::Float(bits) => Ok((Cell::Float(bits), rest)),
        Item::Bytes(bytes) => Ok((Cell::Bytes(Vec::from_slice(scope.alloc, bytes)?), rest)),
        Item::Text(text) => Ok((Cell::Text(String::from_str(scope.alloc, text)?), rest)),
        Item::List(count) => {
            let (members, rest) = list_of(scope, room, count, rest)?;
            Ok((Cell::List(members), rest))
        }
        Item::Dict(count) => {
            let (pairs, rest) = dict_of(scope, room, count, rest)?;
            Ok((Cell::Dict(pairs), rest))
        }
        Item::Struct(count, tag) => structure_of(scope, room, count, tag, rest),
    }
}

/// The members of a list of this count, which come next. Its head was read.
#[cycle(scanner)]
#[tactic(auto, using(packstream::proofs::Steps::inner_more, structures::proofs::Fitted::form_list), unfolding(packstream::specs::Reading::list_at, packstream::specs::Reading::size_at))]
fn list_of<S: Source>(scope: Scope, room: u8, count: u64, source: S) -> Decoded<Vec<Cell>, S>
    ensures { (left : ℕ) → IfOk result (λ x. Takes scope (list_shape x.0.items) (S.left x.1)
        (list_at (inner room) left (Here count) (S.left source))) }
{
    if room == 0 {
        return Err(Unscanned);
    }
    let mut rest = source;
    let mut members = Vec::with_capacity(scope.alloc, first_room(count, rest.heads()))?;
    for _ in 0..count {
        rest = push_member(&mut members, scope, room - 1, rest)?;
    }
    Ok((members, rest))
}

/// A member joins those before it. Integers are put there by this function itself, if there is room: a cell that a call answers is
/// moved from if it was answered.
#[cycle(scanner)]
fn push_member<S: Source>(members: &mut Vec<Cell>, scope: Scope, room: u8, source: S) -> Left<S>
    ensures { IfOk result (λ x. CellJoins scope room
        (shapes members.old.items) (shapes members.new.items) (S.left source) (S.left x)) }
{
    if members.len() < members.capacity() {
        if let Ok((n, rest)) = int_in(source) {
            members.push_reserved(Cell::Int(n));
            return Ok(rest);
        }
    }
    push_other(members, scope, room, source)
}

/// A member of any kind joins those before it. If this stands in its caller, each member pays for its locals.
#[cycle(scanner)]
#[inline(never)]
fn push_other<S: Source>(members: &mut Vec<Cell>, scope: Scope, room: u8, source: S) -> Left<S>
    ensures { IfOk result (λ x. CellJoins scope room
        (shapes members.old.items) (shapes members.new.items) (S.left source) (S.left x)) }
{
    let (member, rest) = cell_in(scope, room, source)?;
    members.push(member)?;
    Ok(rest)
}

/// The members of a list.
pub(crate) fn list_in<S: Source>(scope: Scope, room: u8, source: S) -> Decoded<Vec<Cell>, S>
    ensures { IfOk result (λ x. IsTaken scope room (list_shape x.0.items) (S.left source) (S.left x.1)) }
{
    match source.list() {
        Some((count, rest)) => {
            let (members, rest) = list_of(scope, room, count, rest)?;
            Ok((members, rest))
        }
        None => Err(Unscanned),
    }
}

/// A structure without a fault at the version, of this count of fields and this tag. Its head was read. It is checked as
/// a whole once all of it is read. One in the properties of another is checked with that one too: once more for each
/// other that it is in, and no more than 16 times, since each is two levels of the 32.
#[cycle(scanner)]
#[tactic(auto, using(packstream::proofs::Steps::inner_more, structures_cells::proofs::Fine::fine_scan))]
#[inline(never)]
fn structure_of<S: Source>(
    scope: Scope,
    room: u8,
    count: u64,
    tag: u8,
    source: S,
) -> Decoded<Cell, S>
    ensures { (left : ℕ) → IfOk result
        (λ x. Takes scope (shape x.0) (S.left x.1) (struct_at (inner room) left count (tag ∷ S.left source))) }
{
    if room == 0 {
        return Err(Unscanned);
    }
    let (cell, rest) = made_of(scope, room - 1, tag, count, source)?;
    match check_cell(scope.version, &cell, 0) {
        Ok(_) => Ok((cell, rest)),
        Err(_) => Err(Unscanned),
    }
}
