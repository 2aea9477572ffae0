//! What ends a result or a transaction: the rows that are left of it, and its commit, by what the ledger has of it.
ghost use Rattle.std.specs.Prelude.{◌≡◌, ◌+◌, ◌<◌, length, drop, Some, IfOk};
ghost use Rattle.messages.specs.Summaries.{response_of_summary, Closing, Committed};
ghost use Rattle.engine.specs.Tokens.{found_in, commit_by, known_by};
ghost use Rattle.engine.specs.Views.{Token, token_view, writes_view};
ghost use Rattle.server_session.specs.Session.{Open, Tx, change_alone, change_inside, close, close_last};
ghost use Rattle.server_session.specs.Views.{kept_of};
ghost use Rattle.server_session.specs.Acts.{reply_of, commits_by};
ghost use Rattle.engine.specs.Limits.{ledger_bound};

use crate::acts::{Act, After};
use crate::fault::Fault;
use crate::session::Session;
use crate::summary::Summary;
use engine::{Commit, Engine, LEDGER_BOUND, Write};
use machine::{State, Verdict};
use messages::Mode;
use std::alloc::AllocError;

/// What the engine would answer to a commit of these writes under this token. A ledger that would be as long as it may not be is refused
/// as want of memory.
#[tactic(auto, using(crate::proofs::Commits::known_told, crate::proofs::Commits::added_told))]
pub(crate) fn commit_of<E: Engine>(
    engine: &E,
    token: &Option<String>,
    writes: &[Write],
) -> Result<Commit, AllocError>
    ensures { IfOk result (λ c. c ≡ commit_by (length (E.entries engine.now))
        (found_in (token_view token.now) (writes_view writes.now) (E.entries engine.now))) }
{
    match known_of(engine, token, writes) {
        Some(known) => Ok(known),
        None => Ok(Commit::Added(next_len(engine)?)),
    }
}

/// What the engine would answer to a commit if that adds no entry.
fn known_of<E: Engine>(engine: &E, token: &Option<String>, writes: &[Write]) -> Option<Commit>
    ensures { result
        ≡ known_by (found_in (token_view token.now) (writes_view writes.now)
        (E.entries engine.now)) }
{
    match token {
        None => None,
        Some(token) => engine.known(token.as_str(), writes),
    }
}

/// The length of the ledger after an entry is added. A ledger that would be as long as it may not be is refused as want of memory.
fn next_len<E: Engine>(engine: &E) -> Result<u64, AllocError>
    ensures { IfOk result (λ n. (n ≡ length (E.entries engine.now) + 1) × (n < ledger_bound)) }
{
    let len = engine.ledger().len() as u64 + 1;
    if len >= LEDGER_BOUND {
        return Err(AllocError);
    }
    Ok(len)
}

/// The answer to a COMMIT, by what the engine would answer to it.
pub(crate) fn committed(commit: Commit) -> Act<'static>
    ensures { (left : Open) (tx : Tx) (token : Token) → reply_of left tx token result
        ≡ commits_by (change_inside tx) (λ n. response_of_summary (Committed n)) commit }
{
    match commit {
        Commit::Added(len) => Act::success(Summary::Committed(len), After::CommitsTransaction),
        Commit::Repeat(place) => Act::success(Summary::Committed(place), After::Nothing),
        Commit::Clash => Act::failure(Fault::TokenClash),
    }
}

/// The last summary of a result of this mode outside a transaction, by what the engine would answer to its commit.
fn closed(commit: Commit, mode: Mode) -> Act<'static>
    ensures { (left : Open) (tx : Tx) (token : Token) → reply_of left tx token result
        ≡ commits_by (change_alone left) (λ n. response_of_summary (Closing (Some n) mode)) commit }
{
    match commit {
        Commit::Added(len) => Act::success(Summary::Closing(Some(len), mode), After::CommitsResult),
        Commit::Repeat(place) => Act::success(Summary::Closing(Some(place), mode), After::Nothing),
        Commit::Clash => Act::failure(Fault::TokenClash),
    }
}

impl Session {
    /// The summary of a PULL or DISCARD that drops so many rows, worked in this state.
    #[inline(always)]
    pub(crate) fn ends_rows<E: Engine>(
        &self,
        state: State,
        dropped: usize,
        engine: &E,
    ) -> Result<Act<'static>, AllocError>
        ensures { let k = kept_of self.now in IfOk result
            (λ act. (token : Token) → reply_of k.result k.tx token act
            ≡ close state (E.entries engine.now) (drop dropped k.result.rows) k.result k.tx) }
    {
        if dropped < self.result.rows.count {
            return Ok(Act {
                verdict: Verdict::More,
                summary: Summary::RowsLeft,
                after: After::Rest(dropped),
            });
        }
        self.last(state, engine)
    }

    /// The last summary of a result in this state, which commits outside a transaction.
    fn last<E: Engine>(&self, state: State, engine: &E) -> Result<Act<'static>, AllocError>
        ensures { let k = kept_of self.now in IfOk result
            (λ act. (token : Token) → reply_of k.result k.tx token act
            ≡ close_last state (E.entries engine.now) k.result k.tx) }
    {
        let mode = self.result.mode;
        match state {
            State::Streaming => {
                let commit = commit_of(engine, &self.result.token, &self.result.writes)?;
                Ok(closed(commit, mode))
            }
            _ => Ok(Act::success(Summary::Closing(None, mode), After::Transaction)),
        }
    }
}
