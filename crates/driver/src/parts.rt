//! Sends requests in parts, each part as one pipeline.
ghost use Rattle.std.specs.Prelude.{◌≡◌, ◌<◌, ◌≤◌, ◌^◌, ◌+◌, length, map};
ghost use Rattle.messages.specs.View.{request_view};
ghost use Rattle.driver.specs.Stands.{stand_of, place, Health, health};
ghost use Rattle.driver.specs.Exchanges.{IsSeen};
ghost use Rattle.driver.specs.Parts.{IsQuiet, SendsPart, MakesRoom, short_of, SendsInParts};

use crate::breaks::Break;
use crate::exchanging::exchange;
use crate::pipelines::first_undone;
use client::SubmitFault;
use client_tracking::TrackingClient;
use machine::MAX_WAITING;
use messages::Request;
use streams::{Sink, Source};

/// The result of a part: true in `done` if each of its requests succeeded, and why its exchange was broken off, if it was.
#[derive(Drop)]
struct Part {
    done: bool,
    broken: Result<(), Break>,
}

/// How many requests were accepted, and why the last exchange was broken off. `broken` is also `Memory` if memory ran out for a request.
#[derive(Drop)]
pub(crate) struct InParts {
    pub(crate) asked: u64,
    pub(crate) broken: Result<(), Break>,
}

/// Sends the pending requests. `done` is true if each of `count` requests from the ordinal `first` on succeeded.
fn send_part<I: Source, O: Sink>(
    tracking: &mut TrackingClient,
    source: &mut I,
    sink: &mut O,
    first: u64,
    count: u64,
) -> Part
    requires { first + count < 2 ^ 64 }
    ensures { SendsPart (place (stand_of tracking.old) (I.given source.old) (O.put sink.old))
        (place (stand_of tracking.new) (I.given source.new) (O.put sink.new))
        (health (I.has_ended source.new) (I.has_failed source.new) (O.has_failed sink.new)) first count result.done result.broken }
{
    let broken = exchange(tracking, source, sink);
    if broken.is_err() {
        return Part {
            done: false,
            broken,
        };
    }
    let done = first_undone(tracking, first, count).is_none();
    Part { done, broken }
}

/// Sends the pending requests as one part if there are 32 of them. `done` is true if one more request can be submitted then, which is so unless a
/// request of the part failed.
fn makes_room<I: Source, O: Sink>(
    tracking: &mut TrackingClient,
    source: &mut I,
    sink: &mut O,
    asked: u64,
) -> Part
    requires { length (stand_of tracking.old).rest.knows.waiting ≤ asked }
    ensures { MakesRoom (place (stand_of tracking.old) (I.given source.old) (O.put sink.old))
        (place (stand_of tracking.new) (I.given source.new) (O.put sink.new))
        (health (I.has_ended source.new) (I.has_failed source.new) (O.has_failed sink.new)) asked result.done result.broken }
{
    if tracking.pending() < MAX_WAITING {
        return Part {
            done: true,
            broken: Ok(()),
        };
    }
    let part = MAX_WAITING as u64;
    send_part(tracking, source, sink, asked - part, part)
}

/// Returns `Memory` if a request was refused because memory ran out.
fn short_by(rule: SubmitFault) -> Result<(), Break>
    ensures short { result ≡ short_of rule }
    ensures blameless { (h : Health) → IsSeen result h }
{
    match rule {
        SubmitFault::Memory => Err(Break::Memory),
        _ => Ok(()),
    }
}

/// Submits requests in order and sends them in parts, each as one pipeline. A part has 32 requests, the last part what is left.
///
/// The requests after a part are submitted only if each of the part succeeded. Returns how many were accepted, and why not all were answered.
pub(crate) fn send_in_parts<I: Source, O: Sink>(
    tracking: &mut TrackingClient,
    source: &mut I,
    sink: &mut O,
    requests: Vec<Request>,
) -> InParts
    requires quiet { IsQuiet (stand_of tracking.old) }
    requires some { 0 < length requests.items }
    requires short { length requests.items < 2 ^ 63 }
    ensures { SendsInParts (place (stand_of tracking.old) (I.given source.old) (O.put sink.old))
        (place (stand_of tracking.new) (I.given source.new) (O.put sink.new))
        (health (I.has_ended source.new) (I.has_failed source.new) (O.has_failed sink.new)) (map request_view requests.items) result.asked result.broken }
{
    let mut asked: u64 = 0;
    for request in requests {
        let room = makes_room(tracking, source, sink, asked);
        let done = room.done;
        if !done {
            return InParts {
                asked,
                broken: room.broken,
            };
        }
        match tracking.ask(request) {
            Ok(_) => asked += 1,
            Err(rule) => {
                return InParts {
                    asked,
                    broken: short_by(rule),
                };
            }
        }
    }
    let last = exchange(tracking, source, sink);
    InParts {
        asked,
        broken: last,
    }
}
