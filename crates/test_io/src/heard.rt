//! What a client heard, without its cells.

use client::{Heard, Outcome};
use machine::Phase;
use wire::Version;

#[derive(Clone, Copy, PartialEq, Eq)]
pub enum Said {
    Nothing,
    Version(Option<Version>),
    Row,
    Summary(u64, Outcome, Phase),
}

pub fn shown(heard: &Heard) -> Said {
    match heard {
        Heard::Nothing => Said::Nothing,
        Heard::Version(version) => Said::Version(*version),
        Heard::Row(_) => Said::Row,
        Heard::Summary {
            ordinal,
            phase,
            outcome,
            ..
        } => Said::Summary(*ordinal, *outcome, *phase),
    }
}

/// Whether this was heard, and nothing else.
pub fn are_heard(heard: &[Heard], wanted: &[Said]) -> bool {
    for (one, other) in heard.iter().zip(wanted) {
        if shown(one) != *other {
            return false;
        }
    }
    heard.len() == wanted.len()
}
