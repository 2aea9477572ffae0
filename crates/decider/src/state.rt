//! The state of a decider: what is known by all results, the next step, and the fate.
ghost use Rattle.std.specs.Prelude.{◌≡◌};
ghost use Rattle.decider.specs.Rules.{is_left, next_with_marker, next_without_marker};

use crate::fate::{EndReason, Fate};
use crate::policy::{Policy, Retry};
use crate::rules::{
    either, first_commit, greeted, has_tombstone, is_attempt, is_commit, is_conflict, is_doubt,
    is_end, is_invalid, is_refusal, is_stop, is_tombstone_write, is_unprotected, last_fault,
    may_send, needs_greeting, needs_read, one_fewer, sends, starts_in_doubt, unless, uses_marker,
};
use crate::steps::{Next, StepResult, TokenSupport};

/// Decides the next step for a transaction that is sent until its fate is known, and says what is known.
///
/// It does no I/O and allocates no memory. A caller makes the step that `begin` returns, and reports what it came to.
#[derive(Clone, Copy, Debug)]
pub struct Decider {
    policy: Policy,
    committed: bool,
    conflict: bool,
    tombstone: bool,
    doubt: bool,
    unprotected: bool,
    refused: bool,
    invalid: bool,
    stopped: bool,
    pending: bool,
    attempts_left: u32,
    tombstones_left: u32,
    last: Option<StepResult>,
    commit: Option<u64>,
    fault: Option<u64>,
}

impl Decider {
    ghost use Rattle.std.specs.Prelude.{[], ◌∷◌, ◌++◌, false, ◌&&◌, ◌||◌, not};
    ghost use Rattle.decider.specs.Rules.{
      is_attempt,
      sends,
      all_results,
      next_of,
      next_at,
      fate_of,
      end_reason,
      attempts_made,
      commit_of,
      fault_of,
      in_doubt,
    };
    ghost use Rattle.decider.specs.State.{Describes, Answers, Becomes};

    /// Makes a decider without results.
    pub fn new(policy: Policy) -> Decider
        ensures { Describes result policy [] false }
    {
        Decider {
            policy,
            committed: false,
            conflict: false,
            tombstone: false,
            doubt: starts_in_doubt(policy.before),
            unprotected: starts_in_doubt(policy.before),
            refused: false,
            invalid: false,
            stopped: false,
            pending: false,
            attempts_left: policy.tries,
            tombstones_left: policy.tries,
            last: None,
            commit: None,
            fault: None,
        }
    }

    /// Returns the next step, and marks its start.
    ///
    /// If the step is `Attempt`, the fate is `Unknown` until the result of the attempt is reported. An attempt without
    /// a reported result counts as in doubt, at a server of unknown kind. So call it once for each step.
    pub fn begin(&mut self) -> Next
        ensures next { Answers self.old result next_at }
        ensures state { Becomes self.old self.new all_results (λ p ts b. sends (next_at p ts b)) }
    {
        self.report_unfinished();
        let next = self.next_step();
        self.pending = sends(next);
        next
    }

    /// Records what a step came to.
    pub fn report(&mut self, step: StepResult)
        ensures { Becomes self.old self.new (λ ts b. ts ++ step ∷ []) (λ p ts b. b && not (is_attempt step)) }
    {
        let retry = self.policy.retry;
        self.committed = either(self.committed, is_commit(step));
        self.conflict = either(self.conflict, is_conflict(retry, step));
        self.tombstone = either(self.tombstone, has_tombstone(retry, step));
        self.doubt = either(self.doubt, is_doubt(retry, step));
        self.unprotected = either(self.unprotected, is_unprotected(step));
        self.refused = either(self.refused, is_refusal(step));
        self.invalid = either(self.invalid, is_invalid(step));
        self.stopped = either(self.stopped, is_stop(step));
        self.pending = unless(self.pending, is_attempt(step));
        self.attempts_left = one_fewer(self.attempts_left, is_attempt(step));
        self.tombstones_left = one_fewer(self.tombstones_left, is_tombstone_write(step));
        self.commit = first_commit(self.commit, step);
        self.fault = last_fault(self.fault, step);
        self.last = Some(step);
    }

    /// Records an attempt without a reported result as in doubt.
    fn report_unfinished(&mut self)
        ensures { Becomes self.old self.new all_results (λ p ts b. false) }
    {
        if self.pending {
            self.report(StepResult::InDoubt(TokenSupport::Unknown));
        }
    }

    /// Returns the next step by the results alone.
    fn next_step(&self) -> Next
        ensures { Answers self.now result (λ p ts b. next_of p ts) }
    {
        if self.committed || self.conflict || self.tombstone || self.stopped {
            return Next::End;
        }
        if uses_marker(self.policy.retry) {
            return self.next_with_marker();
        }
        self.next_without_marker()
    }

    /// Returns the next step if a marker prevents a second commit.
    fn next_with_marker(&self) -> Next
        ensures { result ≡ next_with_marker self.now.doubt self.now.refused (is_left self.now.attempts_left)
            (is_left self.now.tombstones_left) self.now.last }
    {
        if needs_read(self.doubt, self.last) {
            return Next::ReadMarker;
        }
        if self.attempts_left != 0 && !self.refused {
            return Next::Attempt;
        }
        if self.doubt && self.tombstones_left != 0 {
            return Next::WriteTombstone;
        }
        Next::End
    }

    /// Returns the next step if there is no marker.
    fn next_without_marker(&self) -> Next
        ensures { result ≡ next_without_marker self.now.policy.retry self.now.doubt self.now.unprotected self.now.refused self.now.invalid
            (is_left self.now.attempts_left) self.now.last }
    {
        let ends = if self.doubt {
            self.invalid
        } else {
            self.refused
        };
        if self.attempts_left == 0 || ends {
            return Next::End;
        }
        let support = greeted(self.last);
        if may_send(self.policy.retry, self.doubt, self.unprotected, support) {
            return Next::Attempt;
        }
        if needs_greeting(self.policy.retry, self.unprotected, support) {
            return Next::Greet;
        }
        Next::End
    }

    /// Returns what is known of the transaction. It is true at any moment, also while an attempt is under way.
    pub fn fate(&self) -> Fate
        ensures { Answers self.now result fate_of }
    {
        if self.committed {
            return Fate::Committed;
        }
        if self.conflict {
            return Fate::Conflict;
        }
        if self.is_in_doubt() && !self.tombstone {
            return Fate::Unknown;
        }
        if self.refused {
            return Fate::Refused;
        }
        Fate::NotCommitted
    }

    /// Returns true if something is or was in doubt: before the first attempt, by a result, or because an attempt is
    /// under way.
    ///
    /// An attempt that commits after a doubt may have read what an earlier one wrote, and may conflict with that one's
    /// writes.
    pub fn is_in_doubt(&self) -> bool
        ensures { Answers self.now result (λ p ts b. in_doubt p ts || b) }
    {
        self.doubt || self.pending
    }

    /// Returns the ordinal of the COMMIT that was answered SUCCESS.
    ///
    /// None if there is none. If the fate is `Committed` then, the marker was read.
    pub fn commit(&self) -> Option<u64>
        ensures { Answers self.now result (λ p ts b. commit_of ts) }
    {
        self.commit
    }

    /// Returns the ordinal of the last request that was refused for good or can't be encoded. None if there is none.
    pub fn fault(&self) -> Option<u64>
        ensures { Answers self.now result (λ p ts b. fault_of ts) }
    {
        self.fault
    }

    /// Returns how many results of attempts were reported, at most the policy's `tries`. An attempt without a
    /// connection counts.
    pub fn attempts(&self) -> u32
        ensures { Answers self.now result (λ p ts b. attempts_made p ts) }
    {
        self.policy.tries.saturating_sub(self.attempts_left)
    }

    /// Returns why no further step is made, by the reported results. None if one is.
    pub fn end_reason(&self) -> Option<EndReason>
        ensures { Answers self.now result (λ p ts b. end_reason p ts) }
    {
        if !is_end(self.next_step()) {
            return None;
        }
        if self.committed || self.conflict || self.tombstone {
            return Some(EndReason::Known);
        }
        if self.stopped {
            return Some(EndReason::Stopped);
        }
        if self.invalid {
            return Some(EndReason::InvalidRequest);
        }
        if !self.doubt && self.refused {
            return Some(EndReason::Refused);
        }
        if uses_marker(self.policy.retry) || self.attempts_left == 0 {
            return Some(EndReason::TriesUsedUp);
        }
        Some(EndReason::UnsafeToRetry)
    }
}
