//! The queue of what waits.
ghost use Rattle.std.specs.Prelude.{◌≡◌, ◌<◌, ◌∷◌, [], ◌++◌, drop, length, option_copied, IfOk};
ghost use Rattle.messages.specs.View.{request_view};
ghost use Rattle.messages.specs.Arrivals.{Asked};
ghost use Rattle.machine.specs.Limits.{max_waiting};
ghost use Rattle.engine.specs.Views.{token_view};
ghost use Rattle.server_session.specs.Rest.{unread_among, reset_among};
ghost use Rattle.server_session.specs.Views.{waiting_in, first_of};
ghost use Rattle.server_session.specs.Acts.{first_token, token_of, turn_in, turn_by};

use crate::acts::Turn;
use crate::waiting::{Queue, Waiting};
use machine::{MAX_WAITING, is_reset};
use messages::Request;
use std::alloc::{AllocError, Global};
use std::collections::VecDeque;

impl Queue {
    /// Nothing waits. Room is made for the 32 slots; `Err` is want of memory.
    pub(crate) fn new(alloc: Global) -> Result<Queue, AllocError>
        ensures { IfOk result (λ q. q.waiting.items ≡ []) }
    {
        Ok(Queue {
            waiting: VecDeque::with_capacity(alloc, MAX_WAITING)?,
            resets: 0,
            unread: 0,
        })
    }

    pub(crate) fn len(&self) -> usize
        ensures { result ≡ length self.now.waiting.items }
    {
        self.waiting.len()
    }

    /// Takes a slot, of which one is left. Takes no memory.
    #[tactic(auto, using(crate::proofs::Queues::count_pushed, crate::proofs::Queues::count_few))]
    #[inline(always)]
    pub(crate) fn push(&mut self, waiting: Waiting)
        requires { length self.old.waiting.items < max_waiting }
        ensures { self.new.waiting.items ≡ self.old.waiting.items ++ waiting ∷ [] }
    {
        self.resets += waiting.resets();
        self.unread += waiting.unread();
        self.waiting.push_back_reserved(waiting);
    }

    /// The first leaves, where something waits, and hands out its token.
    #[tactic(auto, using(crate::proofs::Queues::first_gone))]
    pub(crate) fn pop(&mut self) -> Option<String>
        ensures items { self.new.waiting.items ≡ drop 1 self.old.waiting.items }
        ensures waiting { waiting_in self.new.waiting.items
            ≡ drop 1 (waiting_in self.old.waiting.items) }
        ensures token { token_view result ≡ first_token (waiting_in self.old.waiting.items) }
    {
        match self.waiting.pop_front() {
            Some(Waiting::Asked(request)) => {
                if is_reset(&request) {
                    self.resets -= 1;
                }
                token_of(request)
            }
            Some(Waiting::Unread(_) | Waiting::TooLong) => {
                self.unread -= 1;
                None
            }
            None => None,
        }
    }

    /// Whether something stands for no request.
    #[tactic(auto, using(crate::proofs::Queues::some_unread))]
    pub(crate) fn has_unread(&self) -> bool
        ensures { result ≡ unread_among (waiting_in self.now.waiting.items) }
    {
        self.unread > 0
    }

    /// Whether a RESET waits.
    #[tactic(auto, using(crate::proofs::Queues::some_reset))]
    pub(crate) fn has_reset(&self) -> bool
        ensures { result ≡ reset_among (waiting_in self.now.waiting.items) }
    {
        self.resets > 0
    }

    /// What the first that waits is for a step.
    #[tactic(auto, using(crate::proofs::Queues::first_turn))]
    pub(crate) fn turn(&self) -> Turn
        ensures { result ≡ turn_in (waiting_in self.now.waiting.items) }
    {
        first_turn(&self.waiting)
    }

    /// The first request that waits.
    pub(crate) fn request(&self) -> &Request
        requires { turn_in (waiting_in self.now.waiting.items) ≡ Turn.Serves }
        ensures { waiting_in self.now.waiting.items
            ≡ Asked (request_view result.now) ∷ drop 1 (waiting_in self.now.waiting.items) }
    {
        match first_in(&self.waiting) {
            Some(Waiting::Asked(request)) => request,
            _ => unreachable!(),
        }
    }
}

/// The token of a RUN or of a BEGIN.
fn token_of(request: Request) -> Option<String>
    ensures { token_view result ≡ token_of (request_view request) }
{
    match request {
        Request::Run {
            text: _text,
            params: _params,
            mode: _mode,
            token,
        } => token,
        Request::Begin { mode: _mode, token } => token,
        Request::Hello {
            agent: _agent,
            auth: _auth,
        } => None,
        Request::Logon(_auth) => None,
        Request::Logoff
        | Request::Goodbye
        | Request::Reset
        | Request::Commit
        | Request::Rollback
        | Request::Discard(_)
        | Request::Pull(_) => None,
    }
}

fn first_turn(queue: &VecDeque<Waiting>) -> Turn
    ensures { result ≡ turn_by (first_of queue.now.items) }
{
    match first_in(queue) {
        None => Turn::Nothing,
        Some(waiting) => waiting.turn(),
    }
}

fn first_in(queue: &VecDeque<Waiting>) -> Option<&Waiting>
    ensures { option_copied result ≡ first_of queue.now.items }
{
    queue.front()
}
