//! What a query leaves open.
ghost use Rattle.std.specs.Prelude.{◌+◌, ◌≤◌, length};
ghost use Rattle.engine.specs.Limits.{max_rows};

use crate::remaining::Remaining;
use engine::Write;
use messages::Mode;
use std::alloc::Global;

/// The open result: its rows left, its mode, the write that its last summary commits, or none, the token of its RUN, and how many
/// rows were written for the PULL that waits. In a transaction the write is among the transaction's, and the token is the
/// transaction's.
#[derive(Drop)]
pub(crate) struct OpenResult {
    pub rows: Remaining,
    pub mode: Mode,
    pub writes: Vec<Write>,
    pub token: Option<String>,
    pub written: usize,
    ghost few: { written + rows.count ≤ max_rows },
    ghost one: { length writes.items ≤ 1 },
}

/// The open transaction: the mode and the token of its BEGIN, and its writes.
#[derive(Drop)]
pub(crate) struct Transaction {
    pub mode: Mode,
    pub token: Option<String>,
    pub writes: Vec<Write>,
}

impl OpenResult {
    ghost use Rattle.std.specs.Prelude.{◌≡◌, ◌<◌};
    ghost use Rattle.server_session.specs.Acts.{one_less};
    ghost use Rattle.server_session.specs.Session.{no_result};
    ghost use Rattle.server_session.specs.Views.{open_of};

    /// None is open.
    pub(crate) fn closed(alloc: Global) -> OpenResult
        ensures { open_of result ≡ no_result }
    {
        OpenResult {
            rows: Remaining::none(alloc),
            mode: Mode::Read,
            writes: Vec::new(alloc),
            token: None,
            written: 0,
        }
    }

    /// None is open any more.
    #[inline(always)]
    pub(crate) fn close(&mut self, alloc: Global)
        ensures { open_of self.new ≡ no_result }
    {
        *self = OpenResult::closed(alloc);
    }

    /// The first row has been written.
    pub(crate) fn pass(&mut self)
        requires { 0 < self.old.rows.count }
        ensures { open_of self.new ≡ one_less (open_of self.old) }
    {
        self.rows.pass();
        self.written += 1;
    }
}

impl Transaction {
    ghost use Rattle.std.specs.Prelude.{◌≡◌, [], None, true};
    ghost use Rattle.server_session.specs.Session.{no_tx};
    ghost use Rattle.server_session.specs.Views.{tx_of};

    /// None is open.
    pub(crate) fn none(alloc: Global) -> Transaction
        ensures { tx_of result ≡ no_tx }
    {
        Transaction {
            mode: Mode::Write,
            token: None,
            writes: Vec::new(alloc),
        }
    }

    /// None is open any more. One that is none stays as it is.
    pub(crate) fn close(&mut self, alloc: Global)
        ensures { tx_of self.new ≡ no_tx }
    {
        if !self.is_none() {
            self.drop_all(alloc);
        }
    }

    /// Drops all that it holds. It is a call, so that a step in which none is open doesn't pay for its locals.
    #[inline(never)]
    fn drop_all(&mut self, alloc: Global)
        ensures { tx_of self.new ≡ no_tx }
    {
        *self = Transaction::none(alloc);
    }

    /// Whether none is open.
    fn is_none(&self) -> bool
        ensures { result ≡ true → tx_of self.now ≡ no_tx }
    {
        match self.mode {
            Mode::Read => false,
            Mode::Write => self.token.is_none() && self.writes.is_empty(),
        }
    }

    /// One of a mode is open, without a token and without writes.
    #[inline(always)]
    pub(crate) fn begin(&mut self, alloc: Global, mode: Mode)
        ensures { tx_of self.new ≡ record { mode = mode; writes = []; token = None } }
    {
        *self = Transaction {
            mode,
            token: None,
            writes: Vec::new(alloc),
        };
    }
}
