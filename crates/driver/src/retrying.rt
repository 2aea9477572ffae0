//! Sends a transaction under its token until its fate is known.
ghost use Rattle.std.specs.Prelude.{◌≡◌, true, false, ℕ, List, Option, IfOk, OnOk, OnErr};
ghost use Rattle.messages.specs.Reading.{is_token};
ghost use Rattle.driver.specs.Attempting.{asked_view};
ghost use Rattle.driver.specs.Retrying.{Ending, Tries, IsKnown};

use crate::attempting::{Asked, attempt_over};
use crate::breaks::Break;
use crate::faults::BadToken;
use client_tracking::{Fate, Retry, Tells};
use messages::MAX_TOKEN;
use std::alloc::Global;
use streams::{Sink, Source};

/// A caller that opens connections to one server, one after the other, and gets their streams back.
pub trait Connects {
    type In: Source + Drop;

    type Out: Sink + Drop;

    // How the connections so far ended, in order: where the streams of each were when they were given back, and why it was broken off; none if no
    // connection was available.
    ghost log: { Self → List (Option Ending) };

    // How many connections were opened and not given back.
    ghost out: { Self → ℕ };

    ghost use Rattle.std.specs.Prelude.{◌≡◌, ◌<◌, ◌++◌, ◌∷◌, [], ℕ, suc, List, Option, Some, IfSome};
    ghost use Rattle.driver.specs.Stands.{health};
    ghost use Rattle.driver.specs.Attempting.{streams};
    ghost use Rattle.driver.specs.Retrying.{one_more, not_had, ending};

    /// Opens a connection. Returns its streams, on which nothing was read or written yet, or none if no connection is available. It may wait first.
    fn connect(&mut self) -> Option<(Self::In, Self::Out)>
        ensures kept { log self.new ≡ log self.old ++ not_had result }
        ensures count { out self.new ≡ one_more result (out self.old) }
        ensures fresh { IfSome result (λ s. (Self.In.given s.0 ≡ []) × (Self.Out.put s.1 ≡ [])) };

    /// Takes back the streams of a connection. `broken` says why the last exchange over them was broken off, if it was; it is also `Memory` if
    /// memory ran out for the client or for a request.
    fn closed(&mut self, source: Self::In, sink: Self::Out, broken: Result<(), Break>)
        requires { 0 < out self.old }
        ensures logs { log self.new ≡ log self.old
            ++ Some (ending (streams (Self.In.given source) (Self.Out.put sink)
            (health (Self.In.has_ended source) (Self.In.has_failed source) (Self.Out.has_failed sink))) broken) ∷ [] }
        ensures count { suc (out self.new) ≡ out self.old };
}

/// Makes one attempt over a new connection, and gives its streams back. Returns Nothing if no connection is available.
fn try_once<C: Connects>(alloc: Global, asked: &Asked, connects: &mut C) -> Tells
    ensures tries { Tries (asked_view asked.now) (C.log connects.old) (C.log connects.new) result }
    ensures given_back { C.out connects.new ≡ C.out connects.old }
{
    match connects.connect() {
        Some((mut source, mut sink)) => {
            let attempted = attempt_over(alloc, asked, &mut source, &mut sink);
            connects.closed(source, sink, attempted.broken);
            attempted.tells
        }
        None => Tells::Nothing,
    }
}

/// Returns true if a request can carry the token.
fn is_token(token: &str) -> bool
    ensures { result ≡ is_token token.now }
{
    1 <= token.len() && token.len() <= MAX_TOKEN
}

/// Sends a transaction under its token until it is known what became of it, `tries` times at most, each time over a new connection.
///
/// `retry` says what happens after a doubt, which is an attempt that may have committed. `Retry::Tokens` sends the transaction again: if a server
/// keeps no tokens, it may then commit several times. `Retry::Never` sends nothing more and returns Open.
///
/// # Fates
///
/// - Stands: the transaction is committed.
/// - Clash: other writes have the token.
/// - Refused: the server refuses the transaction, and no attempt committed.
/// - Open: an attempt may have committed, and nothing is sent again.
/// - Absent: the tries are used up, and no attempt committed.
///
/// Each connection has one attempt and is given back after it. None is opened after the fate is known. The law `sent_until_known` of
/// `world_guarantees` gives the meaning of each fate for the ledger of a server of this product.
///
/// # Errors
///
/// `BadToken` if the token is empty or has more than 64 bytes. No connection is opened then.
pub fn until_known<C: Connects>(
    alloc: Global,
    asked: &Asked,
    retry: Retry,
    connects: &mut C,
    tries: u32,
) -> Result<Fate, BadToken>
    ensures known { IfOk result
        (λ f. IsKnown (asked_view asked.now) retry (C.log connects.old) (C.log connects.new) tries f) }
    ensures given_back { C.out connects.new ≡ C.out connects.old }
    ensures token { OnOk result (is_token (asked_view asked.now).token ≡ true) }
    ensures unsent { OnErr result
        ((is_token (asked_view asked.now).token ≡ false) × (connects.new ≡ connects.old)) }
{
    if !is_token(asked.token.as_str()) {
        return Err(BadToken);
    }
    Ok(send_until_known(alloc, asked, retry, connects, tries))
}

/// Sends the transaction as `until_known` does. The token isn't checked.
fn send_until_known<C: Connects>(
    alloc: Global,
    asked: &Asked,
    retry: Retry,
    connects: &mut C,
    tries: u32,
) -> Fate
    ensures known { IsKnown (asked_view asked.now) retry (C.log connects.old) (C.log connects.new) tries result }
    ensures given_back { C.out connects.new ≡ C.out connects.old }
{
    let mut doubtful = false;
    for _ in 0..tries {
        match try_once(alloc, asked, connects) {
            Tells::Stands => return Fate::Stands,
            Tells::Clash => return Fate::Clash,
            Tells::Refused => {
                if !doubtful {
                    return Fate::Refused;
                }
            }
            Tells::Nothing => {}
            Tells::Doubt => match retry {
                Retry::Tokens => doubtful = true,
                Retry::Never => return Fate::Open,
            },
        }
    }
    if doubtful {
        return Fate::Open;
    }
    Fate::Absent
}
