//! A RUN, answered by its engine: the result that it opens, or the FAILURE.
ghost use Rattle.std.specs.Prelude.{◌≡◌, ◌<◌, ◌≤◌, ◌∷◌, [], ◌&&◌, if◌then◌else◌, ℕ, List, length, nat_le, true, None, is_some, option_map, Result, Ok, Err, unwrap_or, IfErr, OnOk, OnErr};
ghost use Rattle.packstream.specs.Writing.{whole};
ghost use Rattle.wire.specs.declared.Version.{Version as AnyVersion};
ghost use Rattle.machine.specs.declared.states.State.{State as AnyState};
ghost use Rattle.messages.specs.View.{RequestView, request_view};
ghost use Rattle.messages.specs.Arrivals.{Arrival, Asked};
ghost use Rattle.machine.specs.Asks.{kind_of};
ghost use Rattle.machine.specs.Rows.{row_at};
ghost use Rattle.engine.specs.Laws.{Runs};
ghost use Rattle.engine.specs.Limits.{max_rows};
ghost use Rattle.engine.specs.Views.{AnswerView, EntryView, ParameterView, QueryFault, Token, WriteView, names_view, parameters_view, write_view, writes_view};
ghost use Rattle.server_session.specs.Session.{Reply, Tx, fields_said, in_transaction, no_tx, opened, reply_to_run, result_of_answer, with_write};
ghost use Rattle.server_session.specs.Limits.{max_writes};
ghost use Rattle.server_session.specs.Rest.{version_of, cause_of, replies};
ghost use Rattle.server_session.specs.Views.{kept_of, kept_before, tx_of};
ghost use Rattle.server_session.specs.Acts.{Answers, FailsBy, IsRun, after_summary, answer_by, asked_by, runs, first_token, token_of, turn_in};

use crate::MAX_WRITES;
use crate::acts::Turn;
use crate::fault::Fault;
use crate::query_answer::{open_result, put_fields};
use crate::result::Transaction;
use crate::session::Session;
use crate::spelling::Unwritten;
use crate::words::{is_in_transaction, query_mode};
use bytes::BytesMut;
use engine::{Answer, Engine, EngineFault, Mode as QueryMode, Names, Rows, Write};
use machine::{Kind, State, Verdict, kind};
use messages::Request;
use std::alloc::{AllocError, Global};
use structures::Cell;
use structures_encoder::Output;
use wire::Version;

/// What a RUN asks of the engine.
#[derive(Clone, Copy)]
struct Asking<'a> {
    own: &'a [Write],
    text: &'a str,
    params: &'a [(String, Cell)],
    mode: QueryMode,
}

impl Session {
    /// Answers the first request, a RUN that has a row in the state: opens the result of its engine's answer, or tells its refusal. It is a call,
    /// so that no other step pays for its locals.
    #[inline(never)]
    pub(crate) fn answer_run<E: Engine>(&mut self, engine: &E) -> Result<(), AllocError>
        requires turn { turn_in (kept_of self.old).waiting ≡ Turn.Serves }
        requires run { let k = kept_of self.old in (q : RequestView) (later : List Arrival)
            → k.waiting ≡ Asked q ∷ later → runs (version_of k) k.state q ≡ true }
        ensures ok { let k = kept_of self.old in
            (q : RequestView) (later : List Arrival) → k.waiting ≡ Asked q ∷ later
            → (conn : ℕ) → OnOk result (Answers (replies (E.entries engine.now) k q later
            (reply_to_run (version_of k) k.state k.tx (token_of q)
            (asked_by E.answer (E.entries engine.now) k.state k.tx q))) conn k.first (kind_of q) None
            (kept_of self.new) (E.entries engine.now) (E.entries engine.now)) }
        ensures err { OnErr result (kept_of self.new ≡ kept_of self.old) }
    {
        let request = self.queue.request();
        let asked = kind(request);
        let asking = self.asking(request);
        match engine.run(asking.own, asking.text, asking.params, asking.mode) {
            Ok(
                Answer {
                    fields,
                    rows,
                    write,
                    mode,
                },
            ) => self.open_answer(fields, rows, write, mode, asked),
            Err(fault) => self.refuse_run(why_unanswered(fault), asked),
        }
    }

    /// What a RUN asks of the engine: over the transaction's own writes and in its mode, or over none in the mode of the RUN.
    fn asking<'a>(&'a self, request: &'a Request) -> Asking<'a>
        requires { let k = kept_of self.now in
            runs (version_of k) k.state (request_view request.now) ≡ true }
        ensures { let k = kept_of self.now in
            (run : List EntryView → List WriteView → List ℕ → List ParameterView → QueryMode
            → Result AnswerView QueryFault) (ledger : List EntryView)
            → run ledger (writes_view result.own.now) result.text.now (parameters_view result.params.now)
            result.mode ≡ asked_by run ledger k.state k.tx (request_view request.now) }
    {
        let Request::Run {
            text,
            params,
            mode,
            token: _,
        } = request
        else {
            unreachable!()
        };
        let (text, params) = (text.as_str(), params.as_slice());
        if is_in_transaction(self.state) {
            return Asking {
                own: self.tx.writes.as_slice(),
                text,
                params,
                mode: query_mode(self.tx.mode),
            };
        }
        Asking {
            own: &[],
            text,
            params,
            mode: query_mode(*mode),
        }
    }

    /// Answers the first request, a RUN, by what its engine answers: opens the result, or tells why it can't be opened.
    #[inline(always)]
    fn open_answer(
        &mut self,
        fields: Names,
        rows: Rows,
        write: Option<Write>,
        mode: QueryMode,
        kind: Kind,
    ) -> Result<(), AllocError>
        requires some { 0 < length self.old.queue.waiting.items }
        requires few { rows.count ≤ max_rows }
        ensures ok { let k = kept_of self.old in
            (q : RequestView) (later : List Arrival) → k.waiting ≡ Asked q ∷ later
            → kind ≡ kind_of q → (conn : ℕ) (ledger : List EntryView)
            → OnOk result (Answers (replies ledger k q later
            (reply_to_run (version_of k) k.state k.tx (token_of q)
            (Ok (answer_by (names_view fields) rows write mode)))) conn k.first (kind_of q) None
            (kept_of self.new) ledger ledger) }
        ensures err { OnErr result (kept_of self.new ≡ kept_of self.old) }
    {
        match put_opening(
            self.alloc,
            self.version(),
            self.state,
            &self.tx,
            &fields,
            &write,
            &mut self.body,
            &mut self.out,
        ) {
            Ok(()) => self.take(rows, write, mode, kind),
            Err(why) => self.refuse_answer(fields, rows, write, why, kind),
        }
    }

    /// Answers the first request, a RUN whose answer is dropped, by a FAILURE, unless it is memory that is wanted.
    #[inline(always)]
    fn refuse_answer(
        &mut self,
        fields: Names,
        rows: Rows,
        write: Option<Write>,
        why: Unwritten,
        kind: Kind,
    ) -> Result<(), AllocError>
        requires some { 0 < length self.old.queue.waiting.items }
        ensures ok { let k = kept_of self.old in
            (reply : Reply) → FailsBy why reply
            → (q : RequestView) (later : List Arrival) → k.waiting ≡ Asked q ∷ later
            → kind ≡ kind_of q → (conn : ℕ) (ledger : List EntryView)
            → OnOk result (Answers (replies ledger k q later reply) conn k.first (kind_of q) None
            (kept_of self.new) ledger ledger) }
        ensures err { OnErr result (kept_of self.new ≡ kept_of self.old) }
    {
        drop_answer(fields, rows, write);
        self.refuse_run(why, kind)
    }

    /// Answers the first request by a FAILURE, unless it is memory that is wanted.
    fn refuse_run(&mut self, why: Unwritten, kind: Kind) -> Result<(), AllocError>
        requires some { 0 < length self.old.queue.waiting.items }
        ensures ok { let k = kept_of self.old in
            (reply : Reply) → FailsBy why reply
            → (q : RequestView) (later : List Arrival) → k.waiting ≡ Asked q ∷ later
            → kind ≡ kind_of q → (conn : ℕ) (ledger : List EntryView)
            → OnOk result (Answers (replies ledger k q later reply) conn k.first (kind_of q) None
            (kept_of self.new) ledger ledger) }
        ensures err { OnErr result (kept_of self.new ≡ kept_of self.old) }
    {
        match why {
            Unwritten::Memory => Err(AllocError),
            Unwritten::Because(fault) => self.fail(fault, kind),
        }
    }

    /// Opens a result, of which the SUCCESS is put; or takes that back.
    fn take(
        &mut self,
        rows: Rows,
        write: Option<Write>,
        mode: QueryMode,
        kind: Kind,
    ) -> Result<(), AllocError>
        requires some { 0 < length self.old.queue.waiting.items }
        requires few { rows.count ≤ max_rows }
        ensures kept { let k = kept_before self.old in
            let next = unwrap_or (row_at (version_of k) k.state kind Verdict.Success) State.Defunct in
            let a = answer_by [] rows write mode in
            OnOk result (kept_of self.new ≡ after_summary next (cause_of Verdict.Success next)
            (result_of_answer (version_of k) k.state (first_token k.waiting) a)
            (if in_transaction k.state then with_write k.tx a.write else no_tx)
            self.old.out.more k) }
        ensures err { OnErr result (kept_of self.new ≡ kept_before self.old) }
    {
        let state = self.state;
        match open_result(
            self.alloc,
            self.version(),
            state,
            rows,
            write,
            mode,
            &mut self.result,
            &mut self.tx,
        ) {
            Ok(()) => {
                let token = self.finish(state, Verdict::Success, kind);
                if !is_in_transaction(state) && token.is_some() {
                    self.result.token = token;
                }
                Ok(())
            }
            Err(AllocError) => {
                self.out.take_back();
                Err(AllocError)
            }
        }
    }
}

/// Puts the SUCCESS of a RUN that its engine answers so, in this state and beside this transaction; or nothing, and why it isn't opened.
fn put_opening(
    alloc: Global,
    version: Version,
    state: State,
    tx: &Transaction,
    fields: &Names,
    write: &Option<Write>,
    body: &mut BytesMut,
    out: &mut Output,
) -> Result<(), Unwritten>
    ensures before { OnOk result (out.new.before ≡ whole out.old) }
    ensures run { OnOk result (IsRun version (fields_said (names_view fields.now)) out.new.more) }
    ensures opens { OnOk result ((rows : Rows) (mode : QueryMode) (token : Token)
        → let a = answer_by (names_view fields.now) rows write.now mode in
        opened version state (tx_of tx.now) token a ≡ reply_to_run version state (tx_of tx.now) token (Ok a)) }
    ensures refused { IfErr result (λ why. (rows : Rows) (mode : QueryMode) (token : Token)
        → FailsBy why (reply_to_run version state (tx_of tx.now) token
        (Ok (answer_by (names_view fields.now) rows write.now mode)))) }
    ensures kept { OnErr result (whole out.new ≡ whole out.old) }
{
    if has_too_many(state, tx, write) {
        return Err(Unwritten::Because(Fault::TooManyWrites));
    }
    put_fields(alloc, version, fields, body, out)
}

/// Why a RUN that its engine refuses is answered a FAILURE, unless it is memory that is wanted.
fn why_unanswered(fault: EngineFault) -> Unwritten
    ensures { (version : AnyVersion) (state : AnyState) (tx : Tx) (token : Token) (defined : Result AnswerView QueryFault)
        → Runs (Err fault) defined → FailsBy result (reply_to_run version state tx token defined) }
{
    match fault {
        EngineFault::UnknownText => Unwritten::Because(Fault::UnknownText),
        EngineFault::Parameter => Unwritten::Because(Fault::Parameter),
        EngineFault::ReadOnly => Unwritten::Because(Fault::ReadOnly),
        EngineFault::TooManyRows => Unwritten::Because(Fault::TooManyRows),
        EngineFault::Memory => Unwritten::Memory,
    }
}

/// Whether a transaction would have too many writes with this one.
#[tactic(auto, using(crate::proofs::Writes::length_view))]
fn has_too_many(state: State, tx: &Transaction, write: &Option<Write>) -> bool
    ensures { result ≡ (in_transaction state
        && (is_some (option_map write_view write.now)
        && nat_le max_writes (length (tx_of tx.now).writes))) }
{
    is_in_transaction(state) && write.is_some() && tx.writes.len() >= MAX_WRITES
}

/// Drops what an engine answered. It is a call, so that a RUN that is opened doesn't pay for the locals of a drop.
#[inline(never)]
fn drop_answer(_fields: Names, _rows: Rows, _write: Option<Write>) {}
