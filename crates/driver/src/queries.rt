//! The requests of queries, of a transaction and of the greeting.
ghost use Rattle.std.specs.Prelude.{◌≡◌, ◌++◌, ◌∷◌, [], IfOk, map, string_bytes};
ghost use Rattle.structures_cells.specs.Shape.{entries};
ghost use Rattle.messages.specs.View.{RequestView, request_view, auth_view, token_view};
ghost use Rattle.client_tracking.specs.Asking.{rows_view, is_login_in_hello};
ghost use Rattle.driver.specs.Requests.{query_view, query_run, within, greeting};

use client_tracking::Rows;
use messages::{Auth, Mode, Request};
use std::alloc::{AllocError, Global};
use structures::Cell;
use wire::Version;

/// A query: its text, and its parameters in their order.
#[derive(Drop)]
pub struct Query {
    pub text: String,
    pub params: Vec<(String, Cell)>,
}

fn copy_params(params: &Vec<(String, Cell)>) -> Result<Vec<(String, Cell)>, AllocError>
    ensures { IfOk result (λ v. entries v.items ≡ entries params.now.items) }
{
    let mut copies = Vec::with_capacity(*params.allocator(), params.len())?;
    for (name, cell) in params {
        let key = name.clone()?;
        copies.push((key, cell.clone()?))?;
    }
    Ok(copies)
}

/// Its RUN.
fn run_of(query: &Query, mode: Mode) -> Result<Request, AllocError>
    ensures { IfOk result (λ q. request_view q ≡ query_run mode (query_view query.now)) }
{
    Ok(Request::Run {
        text: query.text.clone()?,
        params: copy_params(&query.params)?,
        mode,
        token: None,
    })
}

/// The request for rows.
pub(crate) fn rows_request(rows: Rows) -> Request
    ensures { request_view result ≡ rows_view rows }
{
    match rows {
        Rows::Pull(count) => Request::Pull(count),
        Rows::Discard(count) => Request::Discard(count),
    }
}

/// Adds the requests of queries, and behind them COMMIT.
pub(crate) fn add_queries(
    requests: &mut Vec<Request>,
    mode: Mode,
    queries: &[Query],
    rows: Rows,
) -> Result<(), AllocError>
    ensures { IfOk result (λ _. map request_view requests.new.items
        ≡ map request_view requests.old.items ++ within mode (rows_view rows) (map query_view queries.now)) }
{
    for query in queries {
        requests.push(run_of(query, mode)?)?;
        requests.push(rows_request(rows))?;
    }
    requests.push(Request::Commit)?;
    Ok(())
}

/// What opens a connection: HELLO and what follows it.
pub(crate) fn greeting(
    alloc: Global,
    is_login_in_hello: bool,
    agent: String,
    auth: Auth,
) -> Result<(Request, Vec<Request>), AllocError>
    ensures { IfOk result (λ g. request_view g.0 ∷ map request_view g.1.items
        ≡ greeting is_login_in_hello (string_bytes agent) (auth_view auth)) }
{
    let mut others = Vec::new(alloc);
    if is_login_in_hello {
        let auth = Some(auth);
        return Ok((Request::Hello { agent, auth }, others));
    }
    others.push(Request::Logon(auth))?;
    Ok((Request::Hello { agent, auth: None }, others))
}

/// Whether HELLO carries the login, by the version if one is known.
pub(crate) fn is_login_in_hello(version: Option<Version>) -> bool
    ensures { result ≡ is_login_in_hello version }
{
    match version {
        Some(version) => version.hello_has_login(),
        None => false,
    }
}

/// A query: RUN and the request for its rows.
pub(crate) fn running(
    alloc: Global,
    query: &Query,
    mode: Mode,
    rows: Rows,
) -> Result<(Request, Vec<Request>), AllocError>
    ensures { IfOk result (λ g. request_view g.0 ∷ map request_view g.1.items
        ≡ query_run mode (query_view query.now) ∷ rows_view rows ∷ []) }
{
    let run = run_of(query, mode)?;
    let mut others = Vec::new(alloc);
    others.push(rows_request(rows))?;
    Ok((run, others))
}

/// A transaction: BEGIN, each query with the request for its rows, and COMMIT.
pub(crate) fn transaction(
    alloc: Global,
    mode: Mode,
    token: Option<String>,
    queries: &[Query],
    rows: Rows,
) -> Result<(Request, Vec<Request>), AllocError>
    ensures { IfOk result (λ g. request_view g.0 ∷ map request_view g.1.items
        ≡ RequestView.Begin mode (token_view token)
        ∷ within mode (rows_view rows) (map query_view queries.now)) }
{
    let mut others = Vec::new(alloc);
    add_queries(&mut others, mode, queries, rows)?;
    Ok((Request::Begin { mode, token }, others))
}
