//! The bytes of texts and byte strings, and which of them are keys of which dictionary.
ghost use Rattle.std.specs.Prelude.{◌≡◌, ◌≤◌, ◌<◌, ◌+◌, ◌-◌, ◌++◌, ◌↔◌, IsTrue, ℕ, [], ◌∷◌, length, take, drop, Option, Some, Ok, OnErr, OnOk, true, false};
ghost use Rattle.packstream_incremental.specs.Naming.{name, names_of, text_of, IsNamed, ArePlaced, IsTree, IsRoot, HangsOn, IsFree, HasLink, hung, digest_of, side_of};
ghost use Rattle.packstream_incremental.specs.declared.texts.Found.TheVariants as found;
ghost use Rattle.packstream_incremental.specs.declared.texts.Link.{Link as OfKey};

use std::alloc::{AllocError, Global};
use std::marker::Model;

/// A key, and its place in the tree of its dictionary's keys. Each key hangs below one that came before it, on the side
/// that its own bits choose. So cutting the list takes keys off the tree, and changes nothing of those that stay.
#[derive(Clone, Copy)]
pub(crate) struct Key {
    /// Where its bytes are.
    start: usize,
    len: usize,
    digest: u64,
    /// Where the keys of its dictionary begin.
    first: usize,
    /// The link that it hangs on; the first key of a dictionary hangs on none.
    above: Option<Link>,
    /// The keys last hung below it on either side: they are below it only if they hang on its link.
    left: usize,
    right: usize,
}

/// A side of a key.
#[derive(Clone, Copy)]
pub(crate) struct Link {
    key: usize,
    is_right: bool,
}

/// Bytes and keys, both in the order in which they came.
#[derive(Drop)]
pub(crate) struct Texts {
    bytes: Vec<u8>,
    keys: Vec<Key>,
}

impl Model for Texts {
    ghost use Rattle.packstream_incremental.specs.Naming.{Kept, names_of, IsTree};

    ghost Value = { Kept };

    ghost view = { λ t. record { bytes = t.bytes.items; names = names_of t.keys.items } };

    ghost invariant = { λ t. IsTree t.keys.items t.bytes.items };
}

impl Texts {
    pub(crate) fn new(alloc: Global) -> Texts
        ensures bytes { result.bytes ≡ [] }
        ensures keys { result.names ≡ [] }
    {
        Texts {
            bytes: Vec::new(alloc),
            keys: Vec::new(alloc),
        }
    }

    pub(crate) fn bytes(&self) -> &[u8]
        ensures { result.now ≡ self.now.bytes }
    {
        &self.bytes
    }

    /// How many bytes there are.
    pub(crate) fn len(&self) -> usize
        ensures { result ≡ length self.now.bytes }
    {
        self.bytes.len()
    }

    /// How many keys there are.
    pub(crate) fn count(&self) -> usize
        ensures { result ≡ length self.now.names }
    {
        self.keys.len()
    }

    /// Appends bytes.
    #[tactic(auto, using(crate::proofs::Hanging::tree_extends_if))]
    pub(crate) fn extend(&mut self, bytes: &[u8]) -> Result<(), AllocError>
        ensures ok { OnOk result (self.new.bytes ≡ self.old.bytes ++ bytes.now) }
        ensures err { OnErr result (self.new.bytes ≡ self.old.bytes) }
        ensures keys { self.new.names ≡ self.old.names }
    {
        self.bytes.extend_from_slice(bytes)
    }

    /// Goes back to so many bytes and keys.
    pub(crate) fn cut(&mut self, bytes: usize, keys: usize)
        requires { ArePlaced (take keys self.old.names) (length (take bytes self.old.bytes)) }
        ensures bytes { self.new.bytes ≡ take bytes self.old.bytes }
        ensures keys { self.new.names ≡ take keys self.old.names }
    {
        self.bytes.truncate(bytes);
        self.keys.truncate(keys);
    }

    /// Adds the bytes from `start` on as a key of the dictionary whose keys begin at `first`. Answers false if the dictionary has
    /// that key.
    pub(crate) fn join(&mut self, first: usize, start: usize) -> Result<bool, AllocError>
        requires start { start ≤ length self.old.bytes }
        requires root { IsRoot self.old.names first }
        ensures fresh { result ≡ Ok true
            → (IsNamed self.old.names self.old.bytes first (drop start self.old.bytes) → ⊥)
            × (self.new.names ≡ self.old.names ++ (record {
              start = start;
              len = length self.old.bytes - start;
              first = first;
            }) ∷ []) }
        ensures again { result ≡ Ok false
            → IsNamed self.old.names self.old.bytes first (drop start self.old.bytes)
            × (self.new.names ≡ self.old.names) }
        ensures err { OnErr result (self.new.names ≡ self.old.names) }
        ensures bytes { self.new.bytes ≡ self.old.bytes }
    {
        let text = &self.bytes[start..];
        let digest = digest(text);
        let len = text.len();
        match find(&self.keys, &self.bytes, first, digest, text) {
            Found::Again => Ok(false),
            Found::Free(above) => {
                let key = Key {
                    start,
                    len,
                    digest,
                    first,
                    above,
                    left: 0,
                    right: 0,
                };
                hang(&mut self.keys, key)?;
                Ok(true)
            }
        }
    }
}

/// A number made of the bytes of a key, so that few steps tell most keys apart.
#[tactic(auto, unfolding(crate::specs::Naming::digest_of, crate::specs::Naming::digest_from))]
fn digest(text: &[u8]) -> u64
    ensures { result ≡ digest_of text.now }
{
    let mut digest: u64 = 0;
    for byte in text {
        digest = digest
            .wrapping_add(u64::from(*byte) + 1)
            .wrapping_mul(0x9E37_79B9_7F4A_7C15);
    }
    digest
}

/// The side of a key that has so many keys above it: a bit of its digest, and then of its bytes. So keys that are made
/// to have one digest are told apart by their own bits, and a search takes no more steps than these.
#[inline]
#[tactic(auto, unfolding(crate::specs::Naming::side_of), using(std::proofs::lemmas::Nat::Bits::shr_and_one))]
fn is_right(digest: u64, text: &[u8], above: usize) -> bool
    ensures { result ≡ side_of digest text.now above }
{
    if above < 64 {
        return (digest >> (63 - above)) & 1 == 1;
    }
    let bit = above - 64;
    match text.get(bit / 8) {
        Some(byte) => (*byte >> (bit % 8)) & 1 == 1,
        None => false,
    }
}

/// If a key is to hang, or that it stands there already.
pub(crate) enum Found {
    Again,
    Free(Option<Link>),
}

/// Looks a text up among the keys of the dictionary whose keys begin at `first`.
fn find(keys: &[Key], bytes: &[u8], first: usize, digest: u64, text: &[u8]) -> Found
    requires tree { IsTree keys.now bytes.now }
    requires root { IsRoot (names_of keys.now) first }
    requires digest { digest ≡ digest_of text.now }
    ensures again { result ≡ found.Again → IsNamed (names_of keys.now) bytes.now first text.now }
    ensures free { (l : Option OfKey) → result ≡ found.Free l
        → (IsNamed (names_of keys.now) bytes.now first text.now → ⊥)
        × IsFree keys.now first text.now l }
{
    if first >= keys.len() {
        return Found::Free(None);
    }
    let mut at = first;
    let mut above = 0;
    while at < keys.len() {
        if is_same(&keys[at], bytes, digest, text) {
            return Found::Again;
        }
        let side = is_right(digest, text, above);
        let Some(next) = below(keys, first, at, side) else {
            return Found::Free(Some(Link {
                key: at,
                is_right: side,
            }));
        };
        at = next;
        above += 1;
    }
    Found::Again
}

/// Whether this is the key's text.
#[inline]
fn is_same(key: &Key, bytes: &[u8], digest: u64, text: &[u8]) -> bool
    requires within { key.now.start + key.now.len ≤ length bytes.now }
    requires digest { key.now.digest ≡ digest_of (text_of bytes.now (name key.now)) }
    requires of_text { digest ≡ digest_of text.now }
    ensures { IsTrue result ↔ (text_of bytes.now (name key.now) ≡ text.now) }
{
    if key.digest != digest {
        return false;
    }
    &bytes[key.start..key.start + key.len] == text
}

/// The key that hangs on this side of a key.
#[inline]
fn below(keys: &[Key], first: usize, at: usize, is_right: bool) -> Option<usize>
    requires { at < length keys.now }
    ensures { (next : ℕ) → (result ≡ Some next) ↔ HangsOn keys.now first at is_right next }
{
    let here = &keys[at];
    let next = if is_right { here.right } else { here.left };
    if next <= at || next >= keys.len() {
        return None;
    }
    let Some(above) = keys[next].above else {
        return None;
    };
    if above.key == at
        && above.is_right == is_right
        && here.first == first
        && keys[next].first == first
    {
        Some(next)
    } else {
        None
    }
}

/// Hangs a key on its link.
fn hang(keys: &mut Vec<Key>, key: Key) -> Result<(), AllocError>
    requires { HasLink keys.old.items key.above }
    ensures ok { OnOk result
        (keys.new.items ≡ hung key.above (length keys.old.items) keys.old.items ++ key ∷ []) }
    ensures err { OnErr result (keys.new.items ≡ keys.old.items) }
{
    let number = keys.len();
    let Ok(()) = keys.push(key) else {
        return Err(AllocError);
    };
    if let Some(link) = key.above {
        let parent = &mut keys[link.key];
        if link.is_right {
            parent.right = number;
        } else {
            parent.left = number;
        }
    }
    Ok(())
}
