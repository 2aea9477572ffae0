//! Sources: values are read from them item by item.
#![tactic(auto, using(crate::proofs::Heads::heads), unfolding(crate::specs::Reading::layer, crate::specs::Reading::form_at, crate::specs::Reading::list_at, crate::specs::Reading::dict_at, crate::specs::Reading::struct_at))]

ghost use Rattle.std.specs.Prelude.{◌≡◌, ◌≤◌, ◌∷◌, ◌++◌, [], ℕ, List, Option, Ok, IfSome, length, true};
ghost use Rattle.packstream.specs.Prelude.{Read, Tree, layer, after, int, text, list_at, Here, AreBytes, names, key_at};

use crate::marker::{Marker, Width, marker_of};
use crate::reading::{bytes_of, number_of, signed_of, size_of, text_of};
use crate::seen::Pairs;
use crate::twins::has_key;

/// The head of a value: its kind and its number, and the bytes of a byte string or a text (PackStream 1).
#[derive(Clone, Copy)]
pub enum Item<'a> {
    Null,
    Bool(bool),
    Int(i64),
    /// The 64 bits of a float.
    Float(u64),
    Bytes(&'a [u8]),
    Text(&'a str),
    /// The number of members, which are the next values.
    List(u64),
    /// The number of entries: of each, its key and its value come next.
    Dict(u64),
    /// The number of fields, which are the next values, and the tag.
    Struct(u64, u8),
}

/// A position in the items of values.
///
/// A source is between two items. It is copied, so a caller can read the same item in two ways. The calls of one
/// kind return what `item` returns for an item of that kind. The compiler makes faster code of them than of a match
/// on `item`.
pub trait Source: Copy {
    /// The bytes that are left, as PackStream 1 encodes them.
    ghost left: { Self → List ℕ };

    /// Returns the next item and the source after it, or `None` if the bytes that are left don't begin with a whole
    /// item. A text that isn't UTF-8 is no item.
    fn item(&self) -> Option<(Item<'_>, Self)>
        ensures { (inner : Option (List ℕ → Read Tree)) → IfSome result
            (λ x. layer inner (left self.now) ≡ after inner (length (left self.now)) x.0 (left x.1)) };

    /// Returns the next item if it is an integer, of any width, and the source after it.
    fn int(self) -> Option<(i64, Self)>
        ensures { (inner : Option (List ℕ → Read Tree)) → IfSome result
            (λ x. layer inner (left self) ≡ Ok (int x.0, left x.1)) };

    /// Returns the next item if it is a text, and the source after it.
    fn text(&self) -> Option<(&str, Self)>
        ensures { (inner : Option (List ℕ → Read Tree)) → IfSome result
            (λ x. layer inner (left self.now) ≡ Ok (text x.0.now, left x.1)) };

    /// Returns the number of members if the next item is a list, and the source after its head.
    fn list(self) -> Option<(u64, Self)>
        ensures { (inner : Option (List ℕ → Read Tree)) → IfSome result
            (λ x. layer inner (left self) ≡ list_at inner (length (left self)) (Here x.0) (left x.1)) };

    /// Returns the tag if the next item is a structure with this marker, and the source after the tag.
    fn structure(self, marker: u8) -> Option<(u8, Self)>
        ensures { IfSome result (λ x. left self ≡ marker ∷ x.0 ∷ left x.1) };

    /// Returns the source after the prefix if the bytes that are left begin with it.
    fn strip_prefix(self, prefix: &[u8]) -> Option<Self>
        ensures { IfSome result (λ x. left self ≡ prefix.now ++ left x) };

    /// Returns true if nothing is left.
    fn is_empty(self) -> bool
        ensures { result ≡ true → left self ≡ [] };

    /// Returns a part of the bytes that are left, in which each item that is left has at least one byte.
    fn heads(&self) -> &[u8]
        ensures { length result.now ≤ length (left self.now) };

    /// Does nothing. Its contract says that the list of what is left is a list of bytes.
    fn has_bytes(self)
        ensures { AreBytes (left self) };
}

impl Source for &[u8] {
    ghost left = { λ s. s.now };

    #[inline(always)]
    fn item(&self) -> Option<(Item<'_>, Self)> {
        let left = self.len();
        let (&first, rest) = self.split_first()?;
        match marker_of(first)? {
            Marker::Null => Some((Item::Null, rest)),
            Marker::Bool(b) => Some((Item::Bool(b), rest)),
            Marker::Tiny(n) => Some((Item::Int(n), rest)),
            Marker::Int(wide) => {
                let (n, rest) = signed_of(left, wide, rest).ok()?;
                Some((Item::Int(n), rest))
            }
            Marker::Float => {
                let (bits, rest) = number_of(left, Width::Eight, rest).ok()?;
                Some((Item::Float(bits), rest))
            }
            Marker::Bytes(size) => {
                let (bytes, rest) = bytes_of(left, size, rest).ok()?;
                Some((Item::Bytes(bytes), rest))
            }
            Marker::Text(size) => {
                let (text, rest) = text_of(left, size, rest).ok()?;
                Some((Item::Text(text), rest))
            }
            Marker::List(size) => {
                let (count, rest) = size_of(left, size, rest).ok()?;
                Some((Item::List(count), rest))
            }
            Marker::Dict(size) => {
                let (count, rest) = size_of(left, size, rest).ok()?;
                Some((Item::Dict(count), rest))
            }
            Marker::Struct(count) => {
                let (&tag, rest) = rest.split_first()?;
                Some((Item::Struct(count, tag), rest))
            }
        }
    }

    #[inline(always)]
    fn int(self) -> Option<(i64, Self)> {
        let (&first, rest) = self.split_first()?;
        match marker_of(first)? {
            Marker::Tiny(n) => Some((n, rest)),
            Marker::Int(wide) => signed_of(self.len(), wide, rest).ok(),
            _ => None,
        }
    }

    #[inline(always)]
    fn text(&self) -> Option<(&str, Self)> {
        text_first(self)
    }

    #[inline(always)]
    fn list(self) -> Option<(u64, Self)> {
        let (&first, rest) = self.split_first()?;
        match marker_of(first)? {
            Marker::List(size) => size_of(self.len(), size, rest).ok(),
            _ => None,
        }
    }

    #[inline(always)]
    fn structure(self, marker: u8) -> Option<(u8, Self)> {
        match self {
            [first, tag, rest @ ..] if *first == marker => Some((*tag, rest)),
            _ => None,
        }
    }

    #[inline(always)]
    fn strip_prefix(self, prefix: &[u8]) -> Option<Self> {
        match self.strip_prefix(prefix) {
            Some(rest) => Some(rest),
            None => None,
        }
    }

    #[inline(always)]
    fn is_empty(self) -> bool {
        self.len() == 0
    }

    #[inline(always)]
    fn heads(&self) -> &[u8] {
        self
    }

    #[inline(always)]
    fn has_bytes(self) {}
}

/// Returns the text at the beginning of the bytes, and the bytes after it.
#[inline(always)]
pub fn text_first(bytes: &[u8]) -> Option<(&str, &[u8])>
    ensures { (inner : Option (List ℕ → Read Tree)) → IfSome result
        (λ x. layer inner bytes.now ≡ Ok (text x.0.now, x.1.now)) }
{
    let (&first, rest) = bytes.split_first()?;
    match marker_of(first)? {
        Marker::Text(size) => text_of(bytes.len(), size, rest).ok(),
        _ => None,
    }
}

/// Returns a key that none of these pairs has, and the source after it.
#[inline(always)]
pub fn next_key<'s, T, S: Source>(pairs: Pairs<T>, source: &'s S) -> Option<(&'s str, S)>
    ensures { IfSome result (λ x. key_at (names pairs.now) (S.left source.now) ≡ Ok (x.0.now, S.left x.1)) }
{
    let (key, rest) = source.text()?;
    if has_key(pairs, key) {
        return None;
    }
    Some((key, rest))
}
