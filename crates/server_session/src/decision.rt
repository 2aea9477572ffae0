//! What the first request is answered, decided before anything is changed.
ghost use Rattle.std.specs.Prelude.{◌≡◌, ℕ, ◌&&◌, not, true, false, is_some, ◌==◌, List, length, Ok, Result, IfOk};
ghost use Rattle.messages.specs.View.{request_view, auth_view, auth_in};
ghost use Rattle.messages.specs.Summaries.{response_of_summary};
ghost use Rattle.machine.specs.Asks.{kind_of, is_goodbye};
ghost use Rattle.machine.specs.Rows.{row_at};
ghost use Rattle.engine.specs.declared.answer.Mode.{Mode as QueryMode};
ghost use Rattle.engine.specs.Views.{Token, WriteView, ParameterView, EntryView, AnswerView, QueryFault};
ghost use Rattle.server_session.specs.Session.{Open, Tx, serve, perform, greets, reply_to_login, passed_over, used_up};
ghost use Rattle.server_session.specs.Rest.{version_of};
ghost use Rattle.server_session.specs.Views.{kept_of};
ghost use Rattle.server_session.specs.Acts.{reply_of, streams, owes_row, runs, token_of, summary_of};

use crate::acts::{Act, After};
use crate::agent::Agent;
use crate::fault::Fault;
use crate::result_end::{commit_of, committed};
use crate::session::Session;
use crate::summary::Summary;
use crate::words::{count_of, is_halted, is_streaming, is_used_up};
use engine::{Engine, Gate};
use machine::{Kind, State, Verdict, is_reset, kind, row};
use messages::{Auth, Count, Request};
use std::alloc::AllocError;
use wire::Version;

impl Session {
    /// Whether a row is owed to the request in this state.
    pub(crate) fn owes_row(&self, state: State, request: &Request) -> bool
        ensures { result ≡ owes_row state (kept_of self.now).result (request_view request.now) }
    {
        match request {
            Request::Pull(count) => self.has_row_for(state, *count),
            Request::Hello { .. }
            | Request::Logon(_)
            | Request::Logoff
            | Request::Goodbye
            | Request::Reset
            | Request::Run { .. }
            | Request::Begin { .. }
            | Request::Commit
            | Request::Rollback
            | Request::Discard(_) => false,
        }
    }

    /// Whether the request is a RUN that has a row in this state.
    pub(crate) fn runs(&self, state: State, request: &Request) -> bool
        ensures { result ≡ runs (version_of (kept_of self.now)) state (request_view request.now) }
    {
        match request {
            Request::Run { .. } => row(
                self.version(),
                state,
                Kind::Run,
                Verdict::Success,
            ).is_some(),
            Request::Hello { .. }
            | Request::Logon(_)
            | Request::Logoff
            | Request::Goodbye
            | Request::Reset
            | Request::Begin { .. }
            | Request::Commit
            | Request::Rollback
            | Request::Discard(_)
            | Request::Pull(_) => false,
        }
    }

    fn has_row_for(&self, state: State, count: Count) -> bool
        ensures { let k = kept_of self.now in result
            ≡ (streams state
            && (not (used_up count k.result.written) && not (length k.result.rows == 0))) }
    {
        is_streaming(state)
            && (!is_used_up(count, self.result.written) && self.result.rows.count != 0)
    }

    /// What a request is answered in this state, if it is owed no row, runs no query and isn't a GOODBYE.
    pub(crate) fn decide<'a, E: Engine, G: Gate>(
        &self,
        state: State,
        conn: u64,
        request: &Request,
        engine: &E,
        gate: &'a G,
    ) -> Result<Act<'a>, AllocError>
        requires stays { is_goodbye (kind_of (request_view request.now)) ≡ false }
        requires unowed { owes_row state (kept_of self.now).result (request_view request.now) ≡ false }
        requires unrun { runs (version_of (kept_of self.now)) state (request_view request.now) ≡ false }
        ensures { let k = kept_of self.now in let q = request_view request.now in IfOk result
            (λ act. reply_of k.result k.tx (token_of q) act
            ≡ serve (record { run = E.answer; welcome = G.welcomes gate.entry.now }) (version_of k) conn
            (E.entries engine.now) state k.result k.tx q) }
    {
        if is_halted(state) {
            return Ok(pass_over(is_reset(request)));
        }
        if row(self.version(), state, kind(request), Verdict::Success).is_none() {
            return Ok(Act {
                verdict: Verdict::Invalid,
                summary: Summary::Failure(Fault::Invalid),
                after: After::Nothing,
            });
        }
        self.answer(state, conn, request, engine, gate)
    }

    /// What a request is answered that has a row in this state.
    fn answer<'a, E: Engine, G: Gate>(
        &self,
        state: State,
        conn: u64,
        request: &Request,
        engine: &E,
        gate: &'a G,
    ) -> Result<Act<'a>, AllocError>
        requires row { is_some (row_at (version_of (kept_of self.now)) state
            (kind_of (request_view request.now)) Verdict.Success) ≡ true }
        requires unowed { owes_row state (kept_of self.now).result (request_view request.now) ≡ false }
        requires unrun { runs (version_of (kept_of self.now)) state (request_view request.now) ≡ false }
        ensures { let k = kept_of self.now in let q = request_view request.now in IfOk result
            (λ act. reply_of k.result k.tx (token_of q) act
            ≡ perform (record { run = E.answer; welcome = G.welcomes gate.entry.now }) (version_of k) conn
            (E.entries engine.now) state k.result k.tx q) }
    {
        match request {
            Request::Hello { auth, .. } => Ok(greet(self.version(), conn, auth, gate)),
            Request::Logon(auth) => Ok(admit(auth, Summary::Plain, gate)),
            Request::Run { .. } => unreachable!(),
            Request::Begin { mode, token: _ } => {
                Ok(Act::success(Summary::Plain, After::Begun(*mode)))
            }
            Request::Commit => {
                let commit = commit_of(engine, &self.tx.token, &self.tx.writes)?;
                Ok(committed(commit))
            }
            Request::Pull(_) => self.ends_rows(state, 0, engine),
            Request::Discard(count) => {
                self.ends_rows(state, count_of(*count, self.result.rows.count), engine)
            }
            Request::Logoff | Request::Goodbye | Request::Reset | Request::Rollback => {
                Ok(Act::success(Summary::Plain, After::Nothing))
            }
        }
    }
}

/// What a RESET is answered in Interrupted, or another request in Failed or Interrupted.
fn pass_over(is_reset: bool) -> Act<'static>
    ensures { (left : Open) (tx : Tx) (token : Token) → reply_of left tx token result
        ≡ passed_over is_reset }
{
    if is_reset {
        return Act::success(Summary::Plain, After::Nothing);
    }
    Act {
        verdict: Verdict::Ignored,
        summary: Summary::Passed,
        after: After::Nothing,
    }
}

fn greet<'a, G: Gate>(version: Version, conn: u64, auth: &Option<Auth>, gate: &'a G) -> Act<'a>
    ensures { (left : Open) (tx : Tx) (token : Token)
        (run : List EntryView → List WriteView → List ℕ → List ParameterView → QueryMode
        → Result AnswerView QueryFault)
        → reply_of left tx token result
        ≡ greets (record { run = run; welcome = G.welcomes gate.entry.now }) version conn
        (auth_in auth.now) }
{
    let greeting = Summary::Greeting(Agent::of(gate), conn);
    if !version.hello_has_login() {
        return Act::success(greeting, After::Nothing);
    }
    match auth {
        None => Act::failure(Fault::Unauthorized),
        Some(auth) => admit(auth, greeting, gate),
    }
}

/// Lets a client in, or not.
fn admit<'a, G: Gate>(auth: &Auth, summary: Summary<'a>, gate: &G) -> Act<'a>
    ensures { (left : Open) (tx : Tx) (token : Token)
        (run : List EntryView → List WriteView → List ℕ → List ParameterView → QueryMode
        → Result AnswerView QueryFault)
        → reply_of left tx token result
        ≡ reply_to_login (record { run = run; welcome = G.welcomes gate.now }) (auth_view auth.now)
        (response_of_summary (summary_of summary.entry)) }
{
    if auth.scheme.as_str() == "basic"
        && gate.check(auth.principal.as_str(), auth.credentials.as_str())
    {
        return Act::success(summary, After::Nothing);
    }
    Act::failure(Fault::Unauthorized)
}
