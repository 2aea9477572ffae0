//! Makes one attempt of a transaction under a token.
ghost use Rattle.std.specs.Prelude.{◌≡◌, ◌<◌, IfOk, Some, map};
ghost use Rattle.messages.specs.View.{request_view};
ghost use Rattle.driver.specs.Stands.{health};
ghost use Rattle.driver.specs.Attempting.{asked_view, requests_of, streams, TellsOf};

use crate::breaks::Break;
use crate::exchanging::exchange;
use crate::parts::send_in_parts;
use crate::queries::{Query, add_queries, greeting, is_login_in_hello};
use client_tracking::{Rows, Tells, TrackingClient};
use messages::{Auth, Count, Mode, Request};
use std::alloc::{AllocError, Global};
use streams::{Sink, Source};
use wire::Wish;

/// A transaction under a token, and the versions and the login that each attempt offers.
#[derive(Drop)]
pub struct Asked {
    pub wish: Wish,
    pub agent: String,
    pub auth: Auth,
    pub mode: Mode,
    pub token: String,
    pub queries: Vec<Query>,
}

/// The result of an attempt. `broken` says why its last exchange was broken off, if it was; it is also `Memory` if memory ran out for the client
/// or for a request.
#[derive(Drop)]
pub struct Attempted {
    pub tells: Tells,
    pub broken: Result<(), Break>,
}

/// Returns the requests of an attempt.
fn requests_of(alloc: Global, asked: &Asked, has_login: bool) -> Result<Vec<Request>, AllocError>
    ensures { IfOk result (λ v. map request_view v.items ≡ requests_of has_login (asked_view asked.now)) }
{
    let agent = asked.agent.clone()?;
    let auth = asked.auth.clone()?;
    let token = Some(asked.token.clone()?);
    let (hello, mut requests) = greeting(alloc, has_login, agent, auth)?;
    requests.insert(0, hello)?;
    let mode = asked.mode;
    requests.push(Request::Begin { mode, token })?;
    add_queries(
        &mut requests,
        mode,
        &asked.queries,
        Rows::Discard(Count::All),
    )?;
    Ok(requests)
}

/// Makes an attempt over streams on which nothing was read or written yet. Returns what the attempt says of the transaction.
///
/// It negotiates the version. Then it sends the greeting, BEGIN under the token, the queries and COMMIT, in parts of at most 32 requests, each part
/// as one pipeline. The rows are discarded.
///
/// A part is sent when each of its requests is accepted. The next part is sent only if each request so far succeeded, so COMMIT goes out only
/// then. All bytes of a part are written, unless the sink fails. The client processes all bytes that are read, up to its end, unless memory runs
/// out.
///
/// `broken` is exact, by the bytes that were read and by the streams: `exchange` says when each reason is reported. It
/// is never `TooManyRows`. `Memory` is also reported if no client or no requests could be made, or if a request needs
/// memory that the client would write.
pub fn attempt_over<I: Source, O: Sink>(
    alloc: Global,
    asked: &Asked,
    source: &mut I,
    sink: &mut O,
) -> Attempted
    ensures { TellsOf (asked_view asked.now)
        (streams (I.given source.old) (O.put sink.old)
        (health (I.has_ended source.old) (I.has_failed source.old) (O.has_failed sink.old)))
        (streams (I.given source.new) (O.put sink.new)
        (health (I.has_ended source.new) (I.has_failed source.new) (O.has_failed sink.new))) result.tells result.broken }
{
    let Ok(mut tracking) = TrackingClient::new(alloc, asked.wish, 0) else {
        return Attempted {
            tells: Tells::Nothing,
            broken: Err(Break::Memory),
        };
    };
    let broken = exchange(&mut tracking, source, sink);
    if broken.is_err() {
        return Attempted {
            tells: Tells::Nothing,
            broken,
        };
    }
    if tracking.has_ended() {
        return Attempted {
            tells: Tells::Nothing,
            broken,
        };
    }
    let has_login = is_login_in_hello(tracking.version());
    let Ok(requests) = requests_of(alloc, asked, has_login) else {
        return Attempted {
            tells: Tells::Nothing,
            broken: Err(Break::Memory),
        };
    };
    let commit = requests.len() as u64 - 1;
    let sent = send_in_parts(&mut tracking, source, sink, requests);
    tracking.lost();
    let tells = tracking.tells(commit, sent.asked);
    Attempted {
        tells,
        broken: sent.broken,
    }
}
