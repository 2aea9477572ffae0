//! Requests that are asked as one pipeline.
ghost use Rattle.std.specs.Prelude.{◌≡◌, ◌∷◌, ◌<◌, ◌+◌, ◌^◌, IfOk, map};
ghost use Rattle.std.specs.Result.{result_err};
ghost use Rattle.messages.specs.View.{request_view};
ghost use Rattle.client.specs.Rest.{next_ordinal};
ghost use Rattle.client_tracking.specs.Account.{outcome_of};
ghost use Rattle.client_tracking.specs.Holding.{account_of};
ghost use Rattle.driver.specs.Stands.{stand_of, place, health};
ghost use Rattle.driver.specs.Pipelines.{AsksAll, is_done, or_undone, first_undone, Told, fresh, given_up, Says, WhenNotSent, Blames};

use crate::breaks::Break;
use crate::exchanging::exchange;
use crate::faults::Fault;
use client::{Outcome, SubmitFault};
use client_tracking::TrackingClient;
use messages::Request;
use std::alloc::Global;
use streams::{Sink, Source};

/// Asks each in turn, up to the first that isn't accepted.
fn ask_each(tracking: &mut TrackingClient, requests: Vec<Request>) -> Result<(), SubmitFault>
    ensures { AsksAll (stand_of tracking.old) (stand_of tracking.new)
        (map request_view requests.items) (result_err result) }
{
    for request in requests {
        tracking.ask(request)?;
    }
    Ok(())
}

/// Submits requests in order, up to the first that isn't accepted. Returns the ordinal of the first.
pub(crate) fn ask_all(
    tracking: &mut TrackingClient,
    first: Request,
    others: Vec<Request>,
) -> Result<u64, SubmitFault>
    ensures asks { AsksAll (stand_of tracking.old) (stand_of tracking.new)
        (request_view first ∷ map request_view others.items) (result_err result) }
    ensures ordinal { IfOk result (λ n. n ≡ next_ordinal (stand_of tracking.old).rest) }
    ensures short { IfOk result (λ n. n < 2 ^ 63) }
{
    let ordinal = tracking.ask(first)?;
    ask_each(tracking, others)?;
    Ok(ordinal)
}

/// Returns true if the request was answered SUCCESS.
fn is_done(outcome: Option<Outcome>) -> bool
    ensures { result ≡ is_done outcome }
{
    matches!(outcome, Some(Outcome::Done | Outcome::Committed))
}

/// The one that was found, else this one, unless it is done.
fn or_undone(found: Option<u64>, ordinal: u64, outcome: Option<Outcome>) -> Option<u64>
    ensures { result ≡ or_undone found ordinal outcome }
{
    match found {
        Some(earlier) => Some(earlier),
        None => {
            if is_done(outcome) {
                None
            } else {
                Some(ordinal)
            }
        }
    }
}

/// The first of so many from an ordinal on that isn't told to be done.
pub(crate) fn first_undone(tracking: &TrackingClient, first: u64, count: u64) -> Option<u64>
    requires { first + count < 2 ^ 64 }
    ensures { result ≡ first_undone (outcome_of (account_of tracking.now)) first count }
{
    let mut found = None;
    for i in 0..count {
        found = or_undone(found, first + i, tracking.outcome(first + i));
    }
    found
}

/// Reports on so many requests from an ordinal on. Returns the ordinal if each is done.
fn told_of(
    tracking: &TrackingClient,
    alloc: Global,
    first: u64,
    count: u64,
    broken: Result<(), Break>,
) -> Result<u64, Fault>
    requires { first + count < 2 ^ 64 }
    ensures told { Told (account_of tracking.now) first count broken result }
    ensures ordinal { IfOk result (λ n. n ≡ first) }
{
    let Some(ordinal) = first_undone(tracking, first, count) else {
        return Ok(first);
    };
    let Some((code, message)) = tracking.failure(ordinal) else {
        return Err(Fault::Broken(broken.err()));
    };
    let Ok(code) = String::from_str(alloc, code) else {
        return Err(Fault::Memory);
    };
    let Ok(message) = String::from_str(alloc, message) else {
        return Err(Fault::Memory);
    };
    Err(Fault::Refused {
        ordinal,
        code,
        message,
    })
}

/// Gives the client up if requests are pending, so that their bytes never go out.
fn give_up(tracking: &mut TrackingClient)
    ensures { stand_of tracking.new ≡ given_up (stand_of tracking.old) }
{
    if tracking.pending() > 0 {
        tracking.lost();
    }
}

/// Forgets earlier replies, if no request is pending.
fn refresh(tracking: &mut TrackingClient)
    ensures { stand_of tracking.new ≡ fresh (stand_of tracking.old) }
{
    let _settled = tracking.settle();
}

/// Returns that memory ran out for the requests: none was submitted.
pub(crate) fn unasked(tracking: &mut TrackingClient) -> Fault
    ensures stand { stand_of tracking.new ≡ given_up (fresh (stand_of tracking.old)) }
    ensures fault { result ≡ Fault.NotSent SubmitFault.Memory }
{
    refresh(tracking);
    give_up(tracking);
    Fault::NotSent(SubmitFault::Memory)
}

/// Sends requests as one pipeline: no byte goes out before each is accepted. Returns the ordinal of the first.
pub(crate) fn say<I: Source, O: Sink>(
    tracking: &mut TrackingClient,
    alloc: Global,
    source: &mut I,
    sink: &mut O,
    first: Request,
    others: Vec<Request>,
) -> Result<u64, Fault>
    ensures says { Says (place (stand_of tracking.old) (I.given source.old) (O.put sink.old))
        (place (stand_of tracking.new) (I.given source.new) (O.put sink.new))
        (request_view first ∷ map request_view others.items) result }
    ensures ordinal { IfOk result (λ n. n ≡ next_ordinal (stand_of tracking.old).rest) }
    ensures short { IfOk result (λ n. n < 2 ^ 63) }
    ensures unsent { WhenNotSent result ((sink.new ≡ sink.old) × (source.new ≡ source.old)) }
    ensures blames { Blames result
        (health (I.has_ended source.new) (I.has_failed source.new) (O.has_failed sink.new)) }
{
    refresh(tracking);
    let count = others.len() as u64 + 1;
    let ordinal = match ask_all(tracking, first, others) {
        Ok(ordinal) => ordinal,
        Err(rule) => {
            give_up(tracking);
            return Err(Fault::NotSent(rule));
        }
    };
    let broken = exchange(tracking, source, sink);
    told_of(tracking, alloc, ordinal, count, broken)
}
