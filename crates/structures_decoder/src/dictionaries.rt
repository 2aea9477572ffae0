//! Dictionaries.
ghost use Rattle.std.specs.Prelude.{◌≡◌, ℕ, IfOk, OnOk, [], ◌∷◌, ◌++◌, string_bytes};
ghost use Rattle.structures_decoder.specs.Prelude.{dict_at, inner, Here, int, text, entries, Takes, IsTaken, PairsTaken, PairJoins, dict_shape};

use crate::fault::{Decoded, Left, Unscanned};
use crate::plain::{int_in, item_in, key_in, text_in};
use crate::scan::cell_in;
use crate::scope::Scope;
use packstream::reading::first_room;
use packstream::source::{Item, Source};
use packstream::twins::{FEW, twin_in_set};
use std::alloc::Global;
use structures_cells::Cell;

/// The entries of a dictionary in their order.
pub(crate) type Pairs = Vec<(String, Cell)>;

/// The entries of a dictionary of this count, which come next. Its head was read.
#[cycle(scanner)]
#[tactic(auto, using(packstream::proofs::Steps::inner_more, structures::proofs::Fitted::form_pairs), unfolding(packstream::specs::Reading::dict_at, packstream::specs::Reading::size_at))]
pub(crate) fn dict_of<S: Source>(scope: Scope, room: u8, count: u64, source: S) -> Decoded<Pairs, S>
    ensures { (left : ℕ) → IfOk result (λ x. Takes scope (dict_shape x.0.items) (S.left x.1)
        (dict_at (inner room) left (Here count) (S.left source))) }
{
    if room == 0 {
        return Err(Unscanned);
    }
    match count {
        0 => Ok((Vec::new(scope.alloc), source)),
        1..=FEW => pairs_of(scope, room - 1, count, source),
        _ => many_pairs_of(scope, room - 1, count, source),
    }
}

/// A text joins the entries before it; room was made for each entry. If this stands in its caller, each entry pays for the locals
/// of every kind.
#[inline(never)]
fn push_text(pairs: &mut Pairs, alloc: Global, name: String, told: &str) -> Result<(), Unscanned>
    ensures { OnOk result (entries pairs.new.items
        ≡ entries pairs.old.items ++ (string_bytes name, text told.now) ∷ []) }
{
    let copy = String::from_str(alloc, told)?;
    if pairs.len() >= pairs.capacity() {
        return Err(Unscanned);
    }
    pairs.push_reserved((name, Cell::Text(copy)));
    Ok(())
}

/// An integer joins the entries before it.
#[inline(never)]
fn push_int(pairs: &mut Pairs, name: String, n: i64) -> Result<(), Unscanned>
    ensures { OnOk result (entries pairs.new.items
        ≡ entries pairs.old.items ++ (string_bytes name, int n) ∷ []) }
{
    if pairs.len() >= pairs.capacity() {
        return Err(Unscanned);
    }
    pairs.push_reserved((name, Cell::Int(n)));
    Ok(())
}

/// An entry of any kind, after its key, joins those before it.
#[cycle(scanner)]
#[inline(never)]
fn push_named<S: Source>(
    pairs: &mut Pairs,
    scope: Scope,
    room: u8,
    name: String,
    source: S,
) -> Left<S>
    ensures { IfOk result (λ x. PairJoins scope room (string_bytes name)
        (entries pairs.old.items) (entries pairs.new.items) (S.left source) (S.left x)) }
{
    let (cell, rest) = cell_in(scope, room, source)?;
    pairs.push((name, cell))?;
    Ok(rest)
}

/// An entry after its key, which was read before, joins those before it.
#[cycle(scanner)]
fn push_value<S: Source>(pairs: &mut Pairs, scope: Scope, room: u8, key: &str, source: S) -> Left<S>
    ensures { IfOk result (λ x. PairJoins scope room key.now
        (entries pairs.old.items) (entries pairs.new.items) (S.left source) (S.left x)) }
{
    let name = String::from_str(scope.alloc, key)?;
    if let Ok((told, rest)) = text_in(&source) {
        push_text(pairs, scope.alloc, name, told)?;
        return Ok(rest);
    }
    if let Ok((n, rest)) = int_in(source) {
        push_int(pairs, name, n)?;
        return Ok(rest);
    }
    push_named(pairs, scope, room, name, source)
}

/// So many entries, few enough that each key is compared with those before it.
#[cycle(scanner)]
#[inline(never)]
fn pairs_of<S: Source>(scope: Scope, room: u8, count: u64, source: S) -> Decoded<Pairs, S>
    ensures { IfOk result (λ x. PairsTaken scope room count (entries x.0.items) (S.left source) (S.left x.1)) }
{
    let mut pairs = Vec::with_capacity(scope.alloc, first_room(count, source.heads()))?;
    let mut rest = source;
    for _ in 0..count {
        let (key, value) = key_in(&pairs, &rest)?;
        rest = push_value(&mut pairs, scope, room, key, value)?;
    }
    Ok((pairs, rest))
}

/// So many entries, whose keys are compared by a set once all are read.
#[cycle(scanner)]
#[inline(never)]
fn many_pairs_of<S: Source>(scope: Scope, room: u8, count: u64, source: S) -> Decoded<Pairs, S>
    ensures { IfOk result (λ x. PairsTaken scope room count (entries x.0.items) (S.left source) (S.left x.1)) }
{
    let mut pairs = Vec::with_capacity(scope.alloc, first_room(count, source.heads()))?;
    let mut rest = source;
    for _ in 0..count {
        let (key, value) = text_in(&rest)?;
        rest = push_value(&mut pairs, scope, room, key, value)?;
    }
    if twin_in_set(scope.alloc, &pairs)? < pairs.len() {
        return Err(Unscanned);
    }
    Ok((pairs, rest))
}

/// The entries of a dictionary.
#[cycle(scanner)]
pub(crate) fn dict_in<S: Source>(scope: Scope, room: u8, source: S) -> Decoded<Pairs, S>
    ensures { IfOk result (λ x. IsTaken scope room (dict_shape x.0.items) (S.left source) (S.left x.1)) }
{
    let (item, rest) = item_in(&source)?;
    match item {
        Item::Dict(count) => {
            let (pairs, rest) = dict_of(scope, room, count, rest)?;
            Ok((pairs, rest))
        }
        _ => Err(Unscanned),
    }
}
