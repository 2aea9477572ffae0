//! Fields of structures that hold no cells: heads, labels, indices and element ids.
ghost use Rattle.std.specs.Prelude.{ℕ, IfOk};
ghost use Rattle.structures_decoder.specs.Prelude.{text_of, texts_of, numbers_of, element_of, elements_of, form, IsRead, AreLeft, OpensList, OpensStructure};

use crate::fault::{Decoded, Unscanned};
use crate::plain::{int_in, item_in, text_in};
use crate::scope::Scope;
use packstream::reading::first_room;
use packstream::source::{Item, Source};
use std::alloc::Global;
use structures_cells::ElementIds;

/// How many members a list has, and the source after its head.
#[tactic(auto, using(packstream::proofs::Steps::inner_more), unfolding(packstream::specs::Reading::list_at, packstream::specs::Reading::size_at))]
pub(crate) fn list_head<S: Source>(room: u8, source: S) -> Decoded<u64, S>
    ensures { IfOk result (λ x. OpensList room x.0 (S.left source) (S.left x.1)) }
{
    match source.list() {
        Some((count, rest)) if room != 0 => Ok((count, rest)),
        _ => Err(Unscanned),
    }
}

/// How many fields a structure of this tag has, and the source after its head.
#[tactic(auto, using(packstream::proofs::Steps::inner_more))]
pub(crate) fn structure_head<S: Source>(room: u8, tag: u8, source: S) -> Decoded<u64, S>
    ensures { IfOk result (λ x. OpensStructure room x.0 tag (S.left source) (S.left x.1)) }
{
    match item_in(&source)? {
        (Item::Struct(count, found), rest) if room != 0 && found == tag => Ok((count, rest)),
        _ => Err(Unscanned),
    }
}

/// A text of memory's own.
#[inline(never)]
pub(crate) fn string_in<S: Source>(alloc: Global, source: S) -> Decoded<String, S>
    ensures { (room : ℕ) → IfOk result (λ x. IsRead room (text_of x.0) (S.left source) (S.left x.1)) }
{
    let (told, rest) = text_in(&source)?;
    Ok((String::from_str(alloc, told)?, rest))
}

/// A list of texts.
#[tactic(auto, using(crate::proofs::Laid::members), unfolding(packstream::specs::Reading::items_at))]
pub(crate) fn labels_in<S: Source>(scope: Scope, room: u8, source: S) -> Decoded<Vec<String>, S>
    ensures { IfOk result
        (λ x. IsRead room (form scope.version (texts_of x.0.items)) (S.left source) (S.left x.1)) }
{
    let (count, mut rest) = list_head(room, source)?;
    let mut texts = Vec::with_capacity(scope.alloc, first_room(count, rest.heads()))?;
    for _ in 0..count {
        let (text, after) = string_in(scope.alloc, rest)?;
        texts.push(text)?;
        rest = after;
    }
    Ok((texts, rest))
}

/// A list of integers.
#[tactic(auto, using(crate::proofs::Laid::members), unfolding(packstream::specs::Reading::items_at))]
pub(crate) fn indices_in<S: Source>(scope: Scope, room: u8, source: S) -> Decoded<Vec<i64>, S>
    ensures { IfOk result
        (λ x. IsRead room (form scope.version (numbers_of x.0.items)) (S.left source) (S.left x.1)) }
{
    let (count, mut rest) = list_head(room, source)?;
    let mut indices = Vec::with_capacity(scope.alloc, first_room(count, rest.heads()))?;
    for _ in 0..count {
        let (index, after) = int_in(rest)?;
        indices.push(index)?;
        rest = after;
    }
    Ok((indices, rest))
}

/// The element id, if there are four fields in place of three.
pub(crate) fn element_in<S: Source>(
    scope: Scope,
    count: u64,
    source: S,
) -> Decoded<Option<String>, S>
    ensures { (room : ℕ)
        → IfOk result (λ x. AreLeft scope room 3 count (element_of x.0) (S.left source) (S.left x.1)) }
{
    match count {
        3 => Ok((None, source)),
        4 => {
            let (id, rest) = string_in(scope.alloc, source)?;
            Ok((Some(id), rest))
        }
        _ => Err(Unscanned),
    }
}

/// The element ids of a relationship and its ends, if there are eight fields in place of five.
pub(crate) fn elements_in<S: Source>(
    scope: Scope,
    count: u64,
    source: S,
) -> Decoded<Option<ElementIds>, S>
    ensures { (room : ℕ)
        → IfOk result (λ x. AreLeft scope room 5 count (elements_of x.0) (S.left source) (S.left x.1)) }
{
    match count {
        5 => Ok((None, source)),
        8 => {
            let (own, rest) = string_in(scope.alloc, source)?;
            let (start, rest) = string_in(scope.alloc, rest)?;
            let (end, rest) = string_in(scope.alloc, rest)?;
            Ok((Some(ElementIds { own, start, end }), rest))
        }
        _ => Err(Unscanned),
    }
}
