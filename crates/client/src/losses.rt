//! What became of the requests that waited when a client was lost.
ghost use Rattle.std.specs.Prelude.{◌≡◌, ◌<◌, ◌++◌, ◌∷◌, [], length};
ghost use Rattle.machine.specs.Limits.{max_waiting};

use crate::heard::Outcome;
use machine::MAX_WAITING;
use std::marker::Model;

/// At most 32 requests by their ordinals, each with its outcome, in order.
#[derive(Drop)]
pub struct Losses {
    pairs: [(u64, Outcome); MAX_WAITING],
    len: usize,
}

impl Model for Losses {
    ghost use Rattle.std.specs.Prelude.{◌≤◌, ℕ, List, take};
    ghost use Rattle.client.specs.declared.heard.Outcome.{Outcome};
    ghost use Rattle.machine.specs.Limits.{max_waiting};

    ghost Value = { List (ℕ × Outcome) };

    ghost view = { λ l. take l.len l.pairs };

    ghost invariant = { λ l. l.len ≤ max_waiting };
}

impl Losses {
    /// Of no request. Takes no memory.
    pub fn new() -> Losses
        ensures { result ≡ [] }
    {
        Losses {
            pairs: [(0, Outcome::Lost); MAX_WAITING],
            len: 0,
        }
    }

    /// Adds one behind them.
    pub(crate) fn push(&mut self, ordinal: u64, outcome: Outcome)
        requires { length self.old < max_waiting }
        ensures { self.new ≡ self.old ++ (ordinal, outcome) ∷ [] }
    {
        self.pairs[self.len] = (ordinal, outcome);
        self.len += 1;
    }

    /// The ordinals with their outcomes, in order.
    pub fn as_slice(&self) -> &[(u64, Outcome)]
        ensures { result.now ≡ self.now }
    {
        &self.pairs[..self.len]
    }
}
