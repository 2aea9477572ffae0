//! A work step: what the first that waits does to a session, and to the ledger.
ghost use Rattle.std.specs.Prelude.{◌≡◌, ◌<◌, ◌++◌, ◌∷◌, ◌&&◌, if◌then◌else◌, ℕ, List, length, true, false, None, unwrap_or, IfOk, OnOk, OnErr};
ghost use Rattle.messages.specs.View.{RequestView};
ghost use Rattle.messages.specs.Arrivals.{Arrival, Asked};
ghost use Rattle.machine.specs.Asks.{kind_of, is_goodbye};
ghost use Rattle.machine.specs.Rows.{row_at};
ghost use Rattle.machine.specs.Following.{interruptible};
ghost use Rattle.engine.specs.Views.{EntryView, token_view};
ghost use Rattle.server_session.specs.Session.{fails, serve};
ghost use Rattle.server_session.specs.Rest.{version_of, cause_of, replies, reset_among, turns, stepped, commit_entries, IsCounted, MayStep};
ghost use Rattle.server_session.specs.Views.{kept_of, kept_before, snapshot_of};
ghost use Rattle.server_session.specs.Acts.{Answers, IsBelow, IsFree, IsSized, SendsRow, Steps, reply_of, owes_row, runs, row_reply, first_token, token_of, work_state, length_after, left_result, left_tx, left_entry, after_bytes, after_summary, turn_in};

use crate::MAX_UNSENT;
use crate::acts::{Act, After, Turn};
use crate::commit::leave;
use crate::fault::Fault;
use crate::kinds::{Cause, Worked};
use crate::rows::{put_first, spell_first};
use crate::session::Session;
use crate::spelling::{Unwritten, put_summary};
use crate::summary::Summary;
use crate::words::is_interruptible;
use bytes::BytesMut;
use engine::{Engine, EntryId, Gate};
use machine::{Kind, State, Verdict, is_goodbye, kind, row};
use messages::put_run;
use std::alloc::AllocError;

/// The most room in bytes that is kept of what a step writes.
const MAX_BODY_KEPT: usize = 8192;

impl Session {
    /// One step of the connection with this number: nothing, a row, a summary or an end. An `Err` is want of memory, and changes nothing,
    /// nor the ledger.
    pub fn work<E: Engine, G: Gate>(
        &mut self,
        conn: u64,
        engine: &mut E,
        gate: &G,
    ) -> Result<Worked, AllocError>
        ensures ok { IfOk result
            (λ w. stepped (record { run = E.answer; welcome = G.welcomes gate.now }) conn
            (snapshot_of E.entries self.old engine.old)
            ≡ (w, snapshot_of E.entries self.new engine.new)) }
        ensures err { OnErr result
            ((kept_of self.new ≡ kept_of self.old)
            × (E.entries engine.new ≡ E.entries engine.old)) }
        ensures memory { OnErr result (MayStep (kept_of self.old)) }
        ensures counted { IfOk result IsCounted }
    {
        if let Some(cause) = self.cause {
            return Ok(Worked::Ended(cause));
        }
        if self.out.whole_len() >= MAX_UNSENT {
            return Ok(Worked::Full);
        }
        match self.queue.turn() {
            Turn::Nothing => Ok(Worked::Idle),
            Turn::Ends(cause) => {
                self.end(cause);
                Ok(Worked::Ended(cause))
            }
            Turn::Serves => {
                let worked = self.serve(conn, engine, gate);
                if self.body.capacity() > MAX_BODY_KEPT {
                    self.free_body();
                }
                worked
            }
        }
    }

    /// Gives the room for what a step writes back.
    #[inline(never)]
    fn free_body(&mut self)
        ensures { kept_of self.new ≡ kept_of self.old }
    {
        self.body = BytesMut::new(self.alloc);
    }

    /// Serves the first request that waits.
    fn serve<E: Engine, G: Gate>(
        &mut self,
        conn: u64,
        engine: &mut E,
        gate: &G,
    ) -> Result<Worked, AllocError>
        requires { turn_in (kept_of self.old).waiting ≡ Turn.Serves }
        ensures ok { let k = kept_of self.old in IfOk result
            (λ w. Steps (turns (record { run = E.answer; welcome = G.welcomes gate.now }) conn
            (E.entries engine.old) k k.waiting) conn k.first w (kept_of self.new)
            (E.entries engine.old) (E.entries engine.new)) }
        ensures err { OnErr result
            ((kept_of self.new ≡ kept_of self.old)
            × (E.entries engine.new ≡ E.entries engine.old)) }
        ensures counted { IfOk result IsCounted }
    {
        let ordinal = self.first;
        let request = self.queue.request();
        let asked = kind(request);
        if is_goodbye(request) {
            self.end(Cause::Goodbye);
            return Ok(Worked::Ended(Cause::Goodbye));
        }
        let worked_in = self.work_state();
        if self.owes_row(worked_in, request) {
            let sent = self.send(asked)?;
            if sent {
                return Ok(Worked::Row);
            }
            return Ok(self.wrote(ordinal, asked, None));
        }
        if self.runs(worked_in, request) {
            self.answer_run(engine)?;
            return Ok(self.wrote(ordinal, asked, None));
        }
        let entry = self.answer_other(worked_in, conn, engine, gate)?;
        Ok(self.wrote(ordinal, asked, entry))
    }

    /// What a step tells that wrote the summary of a request.
    #[inline(always)]
    fn wrote(&self, ordinal: u64, kind: Kind, entry: Option<u64>) -> Worked
        ensures { result ≡ Worked.Wrote ordinal kind (kept_of self.now).state entry }
    {
        Worked::Wrote {
            ordinal,
            kind,
            state: self.state,
            entry,
        }
    }

    /// Answers the first request, worked in this state, if it is owed no row, runs no query and isn't a GOODBYE; and tells the ledger's length,
    /// if it added an entry. It is a call, so that a RUN doesn't pay for its locals.
    #[inline(never)]
    fn answer_other<E: Engine, G: Gate>(
        &mut self,
        worked_in: State,
        conn: u64,
        engine: &mut E,
        gate: &G,
    ) -> Result<Option<u64>, AllocError>
        requires turn { turn_in (kept_of self.old).waiting ≡ Turn.Serves }
        requires unowed { let k = kept_of self.old in (q : RequestView) (later : List Arrival)
            → k.waiting ≡ Asked q ∷ later → owes_row worked_in k.result q ≡ false }
        requires unrun { let k = kept_of self.old in (q : RequestView) (later : List Arrival)
            → k.waiting ≡ Asked q ∷ later → runs (version_of k) worked_in q ≡ false }
        requires stays { let k = kept_of self.old in (q : RequestView) (later : List Arrival)
            → k.waiting ≡ Asked q ∷ later → is_goodbye (kind_of q) ≡ false }
        ensures ok { let k = kept_of self.old in
            (q : RequestView) (later : List Arrival) → k.waiting ≡ Asked q ∷ later
            → IfOk result (λ entry. Answers
            (replies (E.entries engine.old) (record k { state = worked_in }) q later
            (serve (record { run = E.answer; welcome = G.welcomes gate.now }) (version_of k) conn
            (E.entries engine.old) worked_in k.result k.tx q)) conn k.first (kind_of q) entry
            (kept_of self.new) (E.entries engine.old) (E.entries engine.new)) }
        ensures err { OnErr result
            ((kept_of self.new ≡ kept_of self.old)
            × (E.entries engine.new ≡ E.entries engine.old)) }
        ensures counted { IfOk result IsBelow }
    {
        let request = self.queue.request();
        let asked = kind(request);
        let act = self.decide(worked_in, conn, request, engine, gate)?;
        self.perform(worked_in, act, conn, asked, engine)
    }

    /// Whether a RESET waits that interrupts the state.
    pub(crate) fn is_interrupted(&self) -> bool
        ensures { let k = kept_of self.now in result
            ≡ (reset_among k.waiting && interruptible k.state) }
    {
        self.queue.has_reset() && is_interruptible(self.state)
    }

    /// The state in which the first request is worked.
    fn work_state(&self) -> State
        ensures { result ≡ work_state (kept_of self.now) }
    {
        if self.is_interrupted() {
            return State::Interrupted;
        }
        self.state
    }

    /// Writes the row that is due, or the FAILURE if it can't be written, and answers whether it was the row. It is a call, so that no other
    /// step pays for its locals.
    #[inline(never)]
    fn send(&mut self, kind: Kind) -> Result<bool, AllocError>
        requires some { 0 < length self.old.queue.waiting.items }
        requires row { 0 < self.old.result.rows.count }
        ensures ok { let k = kept_of self.old in
            (q : RequestView) (later : List Arrival) → k.waiting ≡ Asked q ∷ later
            → kind ≡ kind_of q → (conn : ℕ) (ledger : List EntryView)
            → IfOk result (λ sent. Steps (replies ledger k q later
            (row_reply (version_of k) k.result.rows k.result)) conn k.first
            (if sent then Worked.Row else Worked.Wrote k.first (kind_of q) (kept_of self.new).state None)
            (kept_of self.new) ledger ledger) }
        ensures err { OnErr result (kept_of self.new ≡ kept_of self.old) }
    {
        if self.put_first() {
            return Ok(true);
        }
        self.send_spelled(kind)
    }

    /// Puts the first row of the open result, spelled where it goes out; or says no, and changes nothing. It stands in the loop over rows.
    #[inline(always)]
    pub(crate) fn put_first(&mut self) -> bool
        requires row { 0 < self.old.result.rows.count }
        ensures sent { result ≡ true → SendsRow (kept_of self.old) (kept_of self.new) }
        ensures other { result ≡ false → kept_of self.new ≡ kept_of self.old }
    {
        let version = self.version();
        let result = &self.result;
        if !put_first(version, &result.rows, &mut self.out) {
            return false;
        }
        self.result.pass();
        true
    }

    /// Writes the row that is due by way of its text, or the FAILURE if it can't be written, and answers whether it was the row.
    #[inline(never)]
    fn send_spelled(&mut self, kind: Kind) -> Result<bool, AllocError>
        requires some { 0 < length self.old.queue.waiting.items }
        requires row { 0 < self.old.result.rows.count }
        ensures ok { let k = kept_of self.old in
            (q : RequestView) (later : List Arrival) → k.waiting ≡ Asked q ∷ later
            → kind ≡ kind_of q → (conn : ℕ) (ledger : List EntryView)
            → IfOk result (λ sent. Steps (replies ledger k q later
            (row_reply (version_of k) k.result.rows k.result)) conn k.first
            (if sent then Worked.Row else Worked.Wrote k.first (kind_of q) (kept_of self.new).state None)
            (kept_of self.new) ledger ledger) }
        ensures err { OnErr result (kept_of self.new ≡ kept_of self.old) }
    {
        let version = self.version();
        let result = &self.result;
        match spell_first(version, &result.rows, &mut self.body) {
            Ok(()) => {
                self.put_row()?;
                Ok(true)
            }
            Err(Unwritten::Memory) => Err(AllocError),
            Err(Unwritten::Because(fault)) => {
                self.fail(fault, kind)?;
                Ok(false)
            }
        }
    }

    /// Answers the first request by a FAILURE, which commits nothing.
    #[inline(never)]
    pub(crate) fn fail(&mut self, fault: Fault, kind: Kind) -> Result<(), AllocError>
        requires some { 0 < length self.old.queue.waiting.items }
        ensures ok { let k = kept_of self.old in
            (q : RequestView) (later : List Arrival) → k.waiting ≡ Asked q ∷ later
            → kind ≡ kind_of q → (conn : ℕ) (ledger : List EntryView)
            → OnOk result (Answers (replies ledger k q later (fails fault)) conn k.first (kind_of q) None
            (kept_of self.new) ledger ledger) }
        ensures err { OnErr result (kept_of self.new ≡ kept_of self.old) }
    {
        put_summary(self.version(), Summary::Failure(fault), &mut self.out)?;
        self.close();
        self.finish(self.state, Verdict::Failure, kind);
        Ok(())
    }

    /// Puts the row that is spelled, the first of the open result.
    fn put_row(&mut self) -> Result<(), AllocError>
        requires fits { IsSized self.old.body.items }
        requires row { 0 < self.old.result.rows.count }
        ensures ok { OnOk result
            (kept_of self.new ≡ after_bytes self.old.body.items (kept_of self.old)) }
        ensures err { OnErr result (kept_of self.new ≡ kept_of self.old) }
    {
        put_run(&self.body, &mut self.out)?;
        self.result.pass();
        Ok(())
    }

    /// Does what the first request is answered, worked in this state, and tells the ledger's length, if it added an entry.
    fn perform<E: Engine>(
        &mut self,
        worked_in: State,
        act: Act<'_>,
        conn: u64,
        kind: Kind,
        engine: &mut E,
    ) -> Result<Option<u64>, AllocError>
        requires some { 0 < length self.old.queue.waiting.items }
        requires free { let k = kept_of self.old in
            IsFree (E.entries engine.old) (left_entry act.after k.result k.tx) }
        ensures ok { let k = kept_of self.old in
            (q : RequestView) (later : List Arrival) → k.waiting ≡ Asked q ∷ later
            → kind ≡ kind_of q
            → IfOk result (λ entry. Answers
            (replies (E.entries engine.old) (record k { state = worked_in }) q later
            (reply_of k.result k.tx (token_of q) act.entry)) conn k.first (kind_of q) entry
            (kept_of self.new) (E.entries engine.old) (E.entries engine.new)) }
        ensures err { OnErr result
            ((kept_of self.new ≡ kept_of self.old)
            × (E.entries engine.new ≡ E.entries engine.old)) }
        ensures counted { IfOk result IsBelow }
    {
        put_summary(self.version(), act.summary, &mut self.out)?;
        self.summarize(worked_in, act.verdict, act.after, conn, kind, engine)
    }

    /// What the summary that is put says of the first request, worked in this state, is done; or it is taken back. It is put before
    /// anything is committed.
    fn summarize<E: Engine>(
        &mut self,
        worked_in: State,
        verdict: Verdict,
        after: After,
        conn: u64,
        kind: Kind,
        engine: &mut E,
    ) -> Result<Option<u64>, AllocError>
        requires some { 0 < length self.old.queue.waiting.items }
        requires free { let k = kept_of self.old in
            IsFree (E.entries engine.old) (left_entry after k.result k.tx) }
        ensures told { let k = kept_of self.old in
            IfOk result (λ entry. entry
            ≡ length_after (E.entries engine.old) (left_entry after k.result k.tx)) }
        ensures kept { let k = kept_before self.old in
            let next = unwrap_or (row_at (version_of k) worked_in kind verdict) State.Defunct in
            OnOk result (kept_of self.new ≡ after_summary next (cause_of verdict next)
            (left_result after k.result) (left_tx after (first_token k.waiting) k.tx) self.old.out.more k) }
        ensures ledger { let k = kept_of self.old in OnOk result
            (E.entries engine.new ≡ E.entries engine.old
            ++ commit_entries conn k.first (left_entry after k.result k.tx)) }
        ensures err { OnErr result
            ((kept_of self.new ≡ kept_before self.old)
            × (E.entries engine.new ≡ E.entries engine.old)) }
        ensures counted { IfOk result IsBelow }
    {
        let id = EntryId {
            conn,
            ordinal: self.first,
        };
        match leave(
            self.alloc,
            &mut self.result,
            &mut self.tx,
            after,
            id,
            engine,
        ) {
            Ok(entry) => {
                let token = self.finish(worked_in, verdict, kind);
                if let After::Begun(_) = after {
                    self.tx.token = token;
                }
                Ok(entry)
            }
            Err(AllocError) => {
                self.out.take_back();
                Err(AllocError)
            }
        }
    }

    /// With the summary that is put, the first request has its answer; and its token is handed out.
    #[inline(always)]
    pub(crate) fn finish(
        &mut self,
        worked_in: State,
        verdict: Verdict,
        kind: Kind,
    ) -> Option<String>
        requires some { 0 < length self.old.queue.waiting.items }
        ensures token { token_view result ≡ first_token (kept_of self.old).waiting }
        ensures kept { let k = kept_before self.old in
            let next = unwrap_or (row_at (version_of k) worked_in kind verdict) State.Defunct in
            kept_of self.new ≡ after_summary next (cause_of verdict next) k.result k.tx
            self.old.out.more k }
    {
        let next = row(self.version(), worked_in, kind, verdict).unwrap_or(State::Defunct);
        let token = self.queue.pop();
        self.first += 1;
        self.state = next;
        self.cause = end_of(verdict, next);
        token
    }
}

/// Why a session ends with a summary.
fn end_of(verdict: Verdict, state: State) -> Option<Cause>
    ensures { result ≡ cause_of verdict state }
{
    match (verdict, state) {
        (Verdict::Invalid, _) => Some(Cause::Invalid),
        (_, State::Defunct) => Some(Cause::AuthRefused),
        _ => None,
    }
}
