//! What waits for its turn, and a queue of it.
ghost use Rattle.std.specs.Prelude.{◌≡◌, ◌≤◌};
ghost use Rattle.std.specs.VecDeque.{deque_len, deque_capacity};
ghost use Rattle.machine.specs.Limits.{max_waiting};
ghost use Rattle.server_session.specs.Waits.{is_reset_in, is_unread, count_of};

use crate::acts::Turn;
use crate::kinds::Cause;
use machine::is_reset;
use messages::{MsgFault, Request};
use std::collections::VecDeque;

/// What waits for its turn.
#[derive(Drop)]
pub(crate) enum Waiting {
    Asked(Request),
    /// Bytes that stand for no request. Nothing comes after them.
    Unread(MsgFault),
    /// A message past its limit. Nothing comes after it.
    TooLong,
}

/// What waits, in its order. How many RESETs are among it, and what stands for no request, is counted, since each step asks for one and each
/// piece for the other.
#[derive(Drop)]
pub(crate) struct Queue {
    pub waiting: VecDeque<Waiting>,
    pub resets: usize,
    pub unread: usize,
    ghost places: { deque_len waiting ≤ max_waiting },
    ghost room: { max_waiting ≤ deque_capacity waiting },
    ghost resets_counted: { resets ≡ count_of is_reset_in waiting.items },
    ghost unread_counted: { unread ≡ count_of is_unread waiting.items },
}

impl Waiting {
    ghost use Rattle.std.specs.Prelude.{◌≡◌};
    ghost use Rattle.server_session.specs.Waits.{is_reset_in, is_unread, one_of};
    ghost use Rattle.server_session.specs.Acts.{turn_of_one};

    /// What it is for a step, if it is the first.
    pub(crate) fn turn(&self) -> Turn
        ensures { result ≡ turn_of_one self.now }
    {
        match self {
            Waiting::Asked(_) => Turn::Serves,
            Waiting::Unread(_) => Turn::Ends(Cause::Malformed),
            Waiting::TooLong => Turn::Ends(Cause::TooBig),
        }
    }

    /// How many RESETs it is: one, or none.
    pub(crate) fn resets(&self) -> usize
        ensures { result ≡ one_of is_reset_in self.now }
    {
        match self {
            Waiting::Asked(request) => usize::from(is_reset(request)),
            Waiting::Unread(_) | Waiting::TooLong => 0,
        }
    }

    /// How many it is that stand for no request: one, or none.
    pub(crate) fn unread(&self) -> usize
        ensures { result ≡ one_of is_unread self.now }
    {
        match self {
            Waiting::Asked(_) => 0,
            Waiting::Unread(_) | Waiting::TooLong => 1,
        }
    }
}
