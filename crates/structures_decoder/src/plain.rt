//! Items, integers, floats and texts.
ghost use Rattle.std.specs.Prelude.{◌≡◌, ℕ, length, IfOk, Ok};
ghost use Rattle.structures_decoder.specs.Prelude.{layer, inner, after, int, float, text, key_at, names, IsRead};

use crate::fault::{Decoded, Scanned, Unscanned};
use packstream::source::{Item, Source, next_key, text_first};
use structures_cells::Cell;

/// The next item.
#[inline(always)]
pub(crate) fn item_in<S: Source>(source: &S) -> Decoded<Item<'_>, S>
    ensures { (room : ℕ) → IfOk result (λ x. layer (inner room) (S.left source.now)
        ≡ after (inner room) (length (S.left source.now)) x.0 (S.left x.1)) }
{
    match source.item() {
        Some(found) => Ok(found),
        None => Err(Unscanned),
    }
}

/// An integer.
#[inline(always)]
pub(crate) fn int_in<S: Source>(source: S) -> Decoded<i64, S>
    ensures { (room : ℕ) → IfOk result (λ x. IsRead room (int x.0) (S.left source) (S.left x.1)) }
{
    match source.int() {
        Some(found) => Ok(found),
        None => Err(Unscanned),
    }
}

/// The 64 bits of a float.
pub(crate) fn float_in<S: Source>(source: S) -> Decoded<u64, S>
    ensures { (room : ℕ) → IfOk result (λ x. IsRead room (float x.0) (S.left source) (S.left x.1)) }
{
    match item_in(&source)? {
        (Item::Float(bits), rest) => Ok((bits, rest)),
        _ => Err(Unscanned),
    }
}

/// A text.
#[inline(always)]
pub(crate) fn text_in<S: Source>(source: &S) -> Decoded<&str, S>
    ensures { (room : ℕ) → IfOk result (λ x. IsRead room (text x.0.now) (S.left source.now) (S.left x.1)) }
{
    match source.text() {
        Some(found) => Ok(found),
        None => Err(Unscanned),
    }
}

/// A text of a slice, which is lent for as long as the slice.
#[inline(always)]
pub(crate) fn text_in_slice(bytes: &[u8]) -> Scanned<'_, &str>
    ensures { (room : ℕ) → IfOk result (λ x. IsRead room (text x.0.now) bytes.now x.1.now) }
{
    match text_first(bytes) {
        Some(found) => Ok(found),
        None => Err(Unscanned),
    }
}

/// A key that none of these pairs has.
#[inline(always)]
pub(crate) fn key_in<'s, S: Source>(pairs: &[(String, Cell)], source: &'s S) -> Decoded<&'s str, S>
    ensures { IfOk result (λ x. key_at (names pairs.now) (S.left source.now) ≡ Ok (x.0.now, S.left x.1)) }
{
    match next_key(pairs, source) {
        Some(found) => Ok(found),
        None => Err(Unscanned),
    }
}
