//! A connection: a tracking client over a source and a sink.
ghost use Rattle.std.specs.Prelude.{◌≡◌, ◌∷◌, ◌+◌, ◌^◌, ◌<◌, [], IfOk, IfErr, map, string_bytes};
ghost use Rattle.messages.specs.View.{RequestView, request_view, auth_view, token_view};
ghost use Rattle.client.specs.Rest.{begun, next_ordinal};
ghost use Rattle.client_tracking.specs.Account.{untold};
ghost use Rattle.client_tracking.specs.Asking.{rows_view, is_login_in_hello};
ghost use Rattle.driver.specs.Stands.{stand_of, place, health};
ghost use Rattle.driver.specs.Opening.{Opens};
ghost use Rattle.driver.specs.Pipelines.{Says, WhenNotSent, Blames};
ghost use Rattle.driver.specs.Requests.{query_view, query_run, within, greeting};

use crate::exchanging::exchange;
use crate::faults::Fault;
use crate::pipelines::{say, unasked};
use crate::queries::{Query, greeting, is_login_in_hello, rows_request, running, transaction};
use client::ClientFault;
use client_tracking::{Rows, TrackingClient};
use messages::{Auth, Mode, Request};
use std::alloc::Global;
use streams::{Sink, Source};
use wire::Wish;

/// If the account has what came of a query: the ordinals of its RUN, and of the request for its rows.
#[derive(Clone, Copy, Debug, PartialEq, Eq)]
pub struct Answer {
    pub run: u64,
    pub rows: u64,
}

/// A connection to a server, over a source and a sink. Each call submits requests, writes them after each is accepted,
/// and reads until all are answered. It returns Ok if each is done. The account has the outcomes until the next call.
#[derive(Drop)]
pub struct Connection<S, T> {
    pub(crate) source: S,
    pub(crate) sink: T,
    pub(crate) tracking: TrackingClient,
    pub(crate) alloc: Global,
}

impl<S: Source + Drop, T: Sink + Drop> Connection<S, T> {
    /// Makes a connection over streams on which nothing was read or written yet. At most `limit` rows of each request
    /// are kept. C5: out of memory.
    pub fn new(
        alloc: Global,
        source: S,
        sink: T,
        wish: Wish,
        limit: usize,
    ) -> Result<Connection<S, T>, ClientFault>
        ensures begins { IfOk result (λ c. (stand_of c.tracking
            ≡ record { rest = begun wish; account = untold limit })
            × ((c.source ≡ source) × (c.sink ≡ sink))) }
        ensures fault { IfErr result (λ e. e ≡ ClientFault.Memory) }
    {
        let tracking = TrackingClient::new(alloc, wish, limit)?;
        Ok(Connection {
            source,
            sink,
            tracking,
            alloc,
        })
    }

    /// Offers the versions, reads which one the server takes, and logs in: by HELLO below 5.1, and by HELLO and LOGON
    /// at 5.1.
    pub fn open(&mut self, agent: String, auth: Auth) -> Result<(), Fault>
        ensures opens { Opens
            (place (stand_of self.old.tracking) (S.given self.old.source) (T.put self.old.sink))
            (place (stand_of self.new.tracking) (S.given self.new.source) (T.put self.new.sink))
            (string_bytes agent) (auth_view auth) result }
        ensures blames { Blames result (health (S.has_ended self.new.source)
            (S.has_failed self.new.source) (T.has_failed self.new.sink)) }
    {
        match exchange(&mut self.tracking, &mut self.source, &mut self.sink) {
            Ok(()) => self.greet(agent, auth),
            Err(why) => Err(Fault::Broken(Some(why))),
        }
    }

    /// Greets by the version that is known.
    fn greet(&mut self, agent: String, auth: Auth) -> Result<(), Fault>
        ensures says { Says
            (place (stand_of self.old.tracking) (S.given self.old.source) (T.put self.old.sink))
            (place (stand_of self.new.tracking) (S.given self.new.source) (T.put self.new.sink))
            (greeting (is_login_in_hello (stand_of self.old.tracking).rest.knows.version)
            (string_bytes agent) (auth_view auth)) result }
        ensures blames { Blames result (health (S.has_ended self.new.source)
            (S.has_failed self.new.source) (T.has_failed self.new.sink)) }
    {
        let has_login = is_login_in_hello(self.tracking.version());
        let Ok((hello, others)) = greeting(self.alloc, has_login, agent, auth) else {
            return Err(unasked(&mut self.tracking));
        };
        self.ask(hello, others)?;
        Ok(())
    }

    /// Sends requests as one pipeline. Returns the ordinal of the first; the others have the next ordinals.
    ///
    /// # Errors
    ///
    /// - `NotSent`: a request isn't accepted. Nothing was read or written.
    /// - `Refused`: the server refused the first request that isn't done.
    /// - `Broken`: the exchange was broken off. If the reason blames a stream, that stream has failed or ended.
    /// - `Memory`: memory ran out for the text of a refusal.
    pub fn ask(&mut self, first: Request, others: Vec<Request>) -> Result<u64, Fault>
        ensures says { Says
            (place (stand_of self.old.tracking) (S.given self.old.source) (T.put self.old.sink))
            (place (stand_of self.new.tracking) (S.given self.new.source) (T.put self.new.sink))
            (request_view first ∷ map request_view others.items) result }
        ensures ordinal { IfOk result (λ n. n ≡ next_ordinal (stand_of self.old.tracking).rest) }
        ensures short { IfOk result (λ n. n < 2 ^ 63) }
        ensures unsent { WhenNotSent result
            ((self.new.sink ≡ self.old.sink) × (self.new.source ≡ self.old.source)) }
        ensures blames { Blames result (health (S.has_ended self.new.source)
            (S.has_failed self.new.source) (T.has_failed self.new.sink)) }
    {
        say(
            &mut self.tracking,
            self.alloc,
            &mut self.source,
            &mut self.sink,
            first,
            others,
        )
    }

    /// Asks one request, as `ask` does. Answers its ordinal.
    fn ask_one(&mut self, request: Request) -> Result<u64, Fault>
        ensures says { Says
            (place (stand_of self.old.tracking) (S.given self.old.source) (T.put self.old.sink))
            (place (stand_of self.new.tracking) (S.given self.new.source) (T.put self.new.sink))
            (request_view request ∷ []) result }
        ensures ordinal { IfOk result (λ n. n ≡ next_ordinal (stand_of self.old.tracking).rest) }
        ensures blames { Blames result (health (S.has_ended self.new.source)
            (S.has_failed self.new.source) (T.has_failed self.new.sink)) }
    {
        self.ask(request, Vec::new(self.alloc))
    }

    /// Runs a query outside a transaction or in the one that is open, and asks for its rows, by `ask`.
    pub fn run(&mut self, query: &Query, mode: Mode, rows: Rows) -> Result<Answer, Fault>
        ensures says { Says
            (place (stand_of self.old.tracking) (S.given self.old.source) (T.put self.old.sink))
            (place (stand_of self.new.tracking) (S.given self.new.source) (T.put self.new.sink))
            (query_run mode (query_view query.now) ∷ rows_view rows ∷ []) result }
        ensures answer { IfOk result (λ a. (a.run ≡ next_ordinal (stand_of self.old.tracking).rest)
            × (a.rows ≡ next_ordinal (stand_of self.old.tracking).rest + 1)) }
        ensures blames { Blames result (health (S.has_ended self.new.source)
            (S.has_failed self.new.source) (T.has_failed self.new.sink)) }
    {
        let Ok((run, others)) = running(self.alloc, query, mode, rows) else {
            return Err(unasked(&mut self.tracking));
        };
        let run = self.ask(run, others)?;
        Ok(Answer { run, rows: run + 1 })
    }

    /// Asks for more rows of the query that is open, by `ask`. Answers the ordinal of the request for them.
    pub fn more(&mut self, rows: Rows) -> Result<u64, Fault>
        ensures says { Says
            (place (stand_of self.old.tracking) (S.given self.old.source) (T.put self.old.sink))
            (place (stand_of self.new.tracking) (S.given self.new.source) (T.put self.new.sink))
            (rows_view rows ∷ []) result }
        ensures ordinal { IfOk result (λ n. n ≡ next_ordinal (stand_of self.old.tracking).rest) }
        ensures blames { Blames result (health (S.has_ended self.new.source)
            (S.has_failed self.new.source) (T.has_failed self.new.sink)) }
    {
        self.ask_one(rows_request(rows))
    }

    /// Begins a transaction, under a token if there is one, by `ask`.
    pub fn begin(&mut self, mode: Mode, token: Option<String>) -> Result<u64, Fault>
        ensures says { Says
            (place (stand_of self.old.tracking) (S.given self.old.source) (T.put self.old.sink))
            (place (stand_of self.new.tracking) (S.given self.new.source) (T.put self.new.sink))
            (RequestView.Begin mode (token_view token) ∷ []) result }
        ensures ordinal { IfOk result (λ n. n ≡ next_ordinal (stand_of self.old.tracking).rest) }
        ensures blames { Blames result (health (S.has_ended self.new.source)
            (S.has_failed self.new.source) (T.has_failed self.new.sink)) }
    {
        self.ask_one(Request::Begin { mode, token })
    }

    /// Commits the transaction that is open, by `ask`.
    pub fn commit(&mut self) -> Result<u64, Fault>
        ensures says { Says
            (place (stand_of self.old.tracking) (S.given self.old.source) (T.put self.old.sink))
            (place (stand_of self.new.tracking) (S.given self.new.source) (T.put self.new.sink))
            (RequestView.Commit ∷ []) result }
        ensures ordinal { IfOk result (λ n. n ≡ next_ordinal (stand_of self.old.tracking).rest) }
        ensures blames { Blames result (health (S.has_ended self.new.source)
            (S.has_failed self.new.source) (T.has_failed self.new.sink)) }
    {
        self.ask_one(Request::Commit)
    }

    /// Rolls the transaction back that is open, by `ask`.
    pub fn rollback(&mut self) -> Result<u64, Fault>
        ensures says { Says
            (place (stand_of self.old.tracking) (S.given self.old.source) (T.put self.old.sink))
            (place (stand_of self.new.tracking) (S.given self.new.source) (T.put self.new.sink))
            (RequestView.Rollback ∷ []) result }
        ensures ordinal { IfOk result (λ n. n ≡ next_ordinal (stand_of self.old.tracking).rest) }
        ensures blames { Blames result (health (S.has_ended self.new.source)
            (S.has_failed self.new.source) (T.has_failed self.new.sink)) }
    {
        self.ask_one(Request::Rollback)
    }

    /// Sends RESET, as `ask` does, which ends a refusal. An open query or transaction is dropped.
    pub fn reset(&mut self) -> Result<u64, Fault>
        ensures says { Says
            (place (stand_of self.old.tracking) (S.given self.old.source) (T.put self.old.sink))
            (place (stand_of self.new.tracking) (S.given self.new.source) (T.put self.new.sink))
            (RequestView.Reset ∷ []) result }
        ensures ordinal { IfOk result (λ n. n ≡ next_ordinal (stand_of self.old.tracking).rest) }
        ensures blames { Blames result (health (S.has_ended self.new.source)
            (S.has_failed self.new.source) (T.has_failed self.new.sink)) }
    {
        self.ask_one(Request::Reset)
    }

    /// Runs queries in one transaction, under a token if there is one, as one pipeline, by `ask`: BEGIN, each query and the request for its
    /// rows, and COMMIT. More than 15 queries aren't sent (C2). Returns the ordinal of BEGIN. After it each query has
    /// two.
    pub fn transact(
        &mut self,
        mode: Mode,
        token: Option<String>,
        queries: &[Query],
        rows: Rows,
    ) -> Result<u64, Fault>
        ensures says { Says
            (place (stand_of self.old.tracking) (S.given self.old.source) (T.put self.old.sink))
            (place (stand_of self.new.tracking) (S.given self.new.source) (T.put self.new.sink))
            (RequestView.Begin mode (token_view token)
            ∷ within mode (rows_view rows) (map query_view queries.now)) result }
        ensures ordinal { IfOk result (λ n. n ≡ next_ordinal (stand_of self.old.tracking).rest) }
        ensures blames { Blames result (health (S.has_ended self.new.source)
            (S.has_failed self.new.source) (T.has_failed self.new.sink)) }
    {
        let Ok((begin, others)) = transaction(self.alloc, mode, token, queries, rows) else {
            return Err(unasked(&mut self.tracking));
        };
        self.ask(begin, others)
    }
}
