//! The first key of a dictionary that stands before it too.
ghost use Rattle.std.specs.Prelude.{◌≡◌, IfOk, map, string_bytes};
ghost use Rattle.packstream.specs.Prelude.{is_among, IsFirstTwin};

use crate::seen::{Pairs, Seen, is_new};
use std::alloc::{AllocError, Global};

/// Dictionaries of up to so many entries look for equal keys by comparing all; larger ones use an ordered set, so that no input costs a square.
pub const FEW: u64 = 16;

/// How keys are told from those before them.
#[derive(Clone, Copy)]
pub enum Lookup {
    /// Each is compared with each before it, which takes no memory.
    Compared,
    /// Among many, each is looked up in a set, for which memory is taken; if there is none, it does without.
    InSet(Global),
}

/// The index of the first pair whose key stands before it too, or the number of pairs.
pub fn first_twin<T>(lookup: Lookup, pairs: Pairs<T>) -> usize
    ensures { IsFirstTwin pairs.now result }
{
    match lookup {
        Lookup::InSet(alloc) if pairs.len() as u64 > FEW => match twin_in_set(alloc, pairs) {
            Ok(at) => at,
            Err(_) => twin_compared(pairs),
        },
        _ => twin_compared(pairs),
    }
}

/// Returns what `first_twin` does, by a set of the keys before each.
///
/// # Errors
/// `AllocError` if there is no memory for the set.
#[tactic(auto, using(crate::proofs::Checking::twins))]
pub fn twin_in_set<T>(alloc: Global, pairs: Pairs<T>) -> Result<usize, AllocError>
    ensures { IfOk result (IsFirstTwin pairs.now) }
{
    let mut seen = Seen::new(alloc, pairs.len())?;
    for (i, pair) in pairs.iter().enumerate() {
        if !is_new(&mut seen, &pairs[..i], pair.0.as_str())? {
            return Ok(i);
        }
    }
    Ok(pairs.len())
}

fn twin_compared<T>(pairs: Pairs<T>) -> usize
    ensures { IsFirstTwin pairs.now result }
{
    for (i, pair) in pairs.iter().enumerate() {
        if has_key(&pairs[..i], pair.0.as_str()) {
            return i;
        }
    }
    pairs.len()
}

/// Whether one of the pairs has the key.
#[inline]
pub fn has_key<T>(pairs: Pairs<T>, key: &str) -> bool
    ensures { result ≡ is_among key.now (map (λ e. string_bytes e.0) pairs.now) }
{
    for pair in pairs {
        if key == pair.0.as_str() {
            return true;
        }
    }
    false
}
