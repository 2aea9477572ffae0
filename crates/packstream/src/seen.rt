//! Keys that were seen.
ghost use Rattle.std.specs.Prelude.{◌≡◌, ◌<◌, ◌%◌, ◌++◌, ◌∷◌, [], not, true, length, slice_index_or, IfOk};
ghost use Rattle.packstream.specs.Prelude.{is_among, hash, numbered, is_key, Knows, names};

pub use crate::places::Seen;
use std::alloc::{AllocError, Global};
use std::collections::BTreeSet;

/// The most keys for which places are made.
const MANY: usize = 4_096;

/// Pairs, each of a key and what it names.
pub type Pairs<'p, T> = &'p [(String, T)];

impl<'a> Seen<'a> {
    /// None yet, with two places a key, of at most 4,096; or want of memory.
    #[tactic(auto, using(crate::proofs::Keys::knows_none))]
    pub fn new(alloc: Global, count: usize) -> Result<Seen<'a>, AllocError>
        ensures { IfOk result (λ seen. Knows seen []) }
    {
        let places = vec![in alloc; 0; 2 * count.min(MANY) + 1]?;
        Ok(Seen {
            places,
            others: BTreeSet::new(alloc),
        })
    }
}

#[tactic(auto, unfolding(crate::specs::Hashing::hash_more))]
fn hash_of(key: &str) -> u64
    ensures { result ≡ hash key.now }
{
    let mut hash = 0u64;
    for byte in key.as_bytes() {
        hash = hash
            .wrapping_mul(0x100_0000_01B3)
            .wrapping_add(u64::from(*byte));
    }
    hash
}

/// Whether the pair with this number, from 1, has the key.
#[tactic(auto, using(crate::proofs::Keys::numbers))]
#[inline]
fn is_numbered<T>(pairs: Pairs<T>, number: usize, key: &str) -> bool
    requires { 0 < number }
    ensures { result ≡ is_key (numbered (names pairs.now) number) key.now }
{
    match pairs.get(number - 1) {
        Some(pair) => key == pair.0.as_str(),
        None => false,
    }
}

/// Whether the key is none of those of the pairs, which were seen, and joins them; or want of memory.
#[tactic(auto, using(crate::proofs::Keys::looks))]
pub fn is_new<'a, T>(seen: &mut Seen<'a>, pairs: Pairs<T>, key: &'a str) -> Result<bool, AllocError>
    ensures answer { Knows seen.old (names pairs.now)
        → IfOk result (λ b. b ≡ not (is_among key.now (names pairs.now))) }
    ensures seen { Knows seen.old (names pairs.now)
        → IfOk result (λ b. b ≡ true → Knows seen.new (names pairs.now ++ key.now ∷ [])) }
{
    let hash = hash_of(key);
    let place = (hash % seen.places.len() as u64) as usize;
    let number = seen.places[place];
    if number == 0 {
        seen.places[place] = pairs.len() + 1;
        return Ok(true);
    }
    if is_numbered(pairs, number, key) {
        return Ok(false);
    }
    Ok(seen.others.insert((hash, key))?)
}
