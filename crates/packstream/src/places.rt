//! What is kept of keys that were seen.
ghost use Rattle.std.specs.Prelude.{◌<◌, length};

use std::collections::BTreeSet;

/// The keys of a dictionary so far. In the place that a key's hash chooses stands its number among them, from 1, if that was free, and it needs
/// no other look; a key whose place another has joins a set, by hashes and then by bytes. So keys that were chosen to collide cost no more
/// than such a set.
#[derive(Drop)]
pub struct Seen<'a> {
    pub(crate) places: Vec<usize>,
    pub(crate) others: BTreeSet<(u64, &'a str)>,
    ghost some: { 0 < length places.items },
}
