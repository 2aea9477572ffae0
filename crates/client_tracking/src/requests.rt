//! The requests of a caller, by what they ask.
ghost use Rattle.std.specs.Prelude.{◌≡◌, string_bytes};
ghost use Rattle.structures_cells.specs.Shape.{entries};
ghost use Rattle.messages.specs.View.{RequestView, request_view, auth_view, token_view};
ghost use Rattle.client_tracking.specs.Holding.{rest_in, account_of};
ghost use Rattle.client_tracking.specs.Asking.{Asks, AsksBoth, AsksLogin, is_login_in_hello, rows_view};

use crate::tracking::TrackingClient;
use client::SubmitFault;
use messages::{Auth, Count, Mode, Request};
use structures::Cell;

/// What is asked of a query's rows.
#[derive(Clone, Copy, Debug, PartialEq, Eq)]
pub enum Rows {
    /// To be told, so many (PULL).
    Pull(Count),
    /// To be dropped, so many (DISCARD).
    Discard(Count),
}

/// The request for them.
fn rows_request(rows: Rows) -> Request
    ensures { request_view result ≡ rows_view rows }
{
    match rows {
        Rows::Pull(count) => Request::Pull(count),
        Rows::Discard(count) => Request::Discard(count),
    }
}

impl TrackingClient {
    /// Whether HELLO carries the login, by the version that is known.
    fn is_login_in_hello(&self) -> bool
        ensures { result ≡ is_login_in_hello (rest_in self.now).knows.version }
    {
        match self.client.version() {
            Some(version) => version.hello_has_login(),
            None => false,
        }
    }

    /// Asks by `ask` what opens a connection: HELLO, which carries the login below 5.1, and LOGON at 5.1. Answers the ordinals of HELLO and of the
    /// request that carries the login. If LOGON is refused, HELLO waits.
    pub fn ask_hello(&mut self, agent: String, auth: Auth) -> Result<(u64, u64), SubmitFault>
        ensures asks { AsksLogin (is_login_in_hello (rest_in self.old).knows.version)
            (rest_in self.old) (rest_in self.new) (string_bytes agent) (auth_view auth) result }
        ensures account { account_of self.new ≡ account_of self.old }
    {
        if self.is_login_in_hello() {
            let hello = self.ask(Request::Hello {
                agent,
                auth: Some(auth),
            })?;
            return Ok((hello, hello));
        }
        let hello = self.ask(Request::Hello { agent, auth: None })?;
        let logon = self.ask(Request::Logon(auth))?;
        Ok((hello, logon))
    }

    /// Asks RUN by `ask`, and behind it what is asked of its rows; answers both ordinals. The token is of a query outside a transaction. Where the
    /// second is refused, RUN waits.
    pub fn ask_run(
        &mut self,
        text: String,
        params: Vec<(String, Cell)>,
        mode: Mode,
        token: Option<String>,
        rows: Rows,
    ) -> Result<(u64, u64), SubmitFault>
        ensures asks { AsksBoth (rest_in self.old) (rest_in self.new)
            (RequestView.Run (string_bytes text) (entries params.items) mode (token_view token))
            (rows_view rows) result }
        ensures account { account_of self.new ≡ account_of self.old }
    {
        let run = self.ask(Request::Run {
            text,
            params,
            mode,
            token,
        })?;
        let last = self.ask(rows_request(rows))?;
        Ok((run, last))
    }

    /// Asks BEGIN by `ask`, of a transaction under a token, if there is one.
    pub fn ask_begin(&mut self, mode: Mode, token: Option<String>) -> Result<u64, SubmitFault>
        ensures asks { Asks (rest_in self.old) (rest_in self.new)
            (RequestView.Begin mode (token_view token)) result }
        ensures account { account_of self.new ≡ account_of self.old }
    {
        self.ask(Request::Begin { mode, token })
    }

    /// Asks COMMIT by `ask`.
    pub fn ask_commit(&mut self) -> Result<u64, SubmitFault>
        ensures asks { Asks (rest_in self.old) (rest_in self.new) RequestView.Commit result }
        ensures account { account_of self.new ≡ account_of self.old }
    {
        self.ask(Request::Commit)
    }

    /// Asks ROLLBACK by `ask`.
    pub fn ask_rollback(&mut self) -> Result<u64, SubmitFault>
        ensures asks { Asks (rest_in self.old) (rest_in self.new) RequestView.Rollback result }
        ensures account { account_of self.new ≡ account_of self.old }
    {
        self.ask(Request::Rollback)
    }

    /// Asks RESET by `ask`.
    pub fn ask_reset(&mut self) -> Result<u64, SubmitFault>
        ensures asks { Asks (rest_in self.old) (rest_in self.new) RequestView.Reset result }
        ensures account { account_of self.new ≡ account_of self.old }
    {
        self.ask(Request::Reset)
    }

    /// Asks GOODBYE by `ask`. It has no answer.
    pub fn ask_goodbye(&mut self) -> Result<u64, SubmitFault>
        ensures asks { Asks (rest_in self.old) (rest_in self.new) RequestView.Goodbye result }
        ensures account { account_of self.new ≡ account_of self.old }
    {
        self.ask(Request::Goodbye)
    }
}
