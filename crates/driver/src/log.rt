//! A record of how connections ended, for proofs only.
ghost use Rattle.std.specs.Prelude.{◌≡◌, []};
ghost use Rattle.std.specs.Borrow.{ftrue};
ghost use Rattle.driver.specs.Logged.{Past, past_code};

use crate::breaks::Break;
use std::marker::Model;
use streams::History;

/// A record of how the connections so far ended, and how many are open, for a caller that opens them. It takes no memory, and its methods do
/// nothing at run time.
#[derive(Drop)]
pub struct Log {
    pub ghost past: { Past } by { past_code },
}

impl Model for Log {
    ghost also_owns = { λ _. ftrue };
}

/// An event of a connection.
#[derive(Clone, Copy, Drop)]
pub enum Step<'a> {
    /// No connection was available.
    Missed,
    /// It was opened.
    Opened,
    /// Its streams were given back: all bytes that they moved, whether the source reached its end or failed, whether the sink failed, and why the
    /// last exchange was broken off.
    Closed {
        given: &'a History,
        put: &'a History,
        ended: bool,
        read_failed: bool,
        write_failed: bool,
        broken: Result<(), Break>,
    },
}

impl Log {
    ghost use Rattle.driver.specs.Stepping.{stepped};

    /// Makes the record of no connection.
    pub fn new() -> Log
        ensures { result.past ≡ ([], 0) }
    {
        Log {}
    }

    /// Returns the record with one more event.
    #[inline(always)]
    pub fn then(&self, _step: &Step<'_>) -> Log
        ensures { result.past ≡ stepped self.now.past _step.now }
    {
        Log {}
    }
}
