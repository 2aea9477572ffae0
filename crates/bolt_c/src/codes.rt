//! What C sees: codes for what Rust names, and the structs that calls fill in.

ghost use Rattle.std.specs.Prelude.{◌≡◌};
ghost use Rattle.bolt_c.specs.Codes.{wish_of, version_code, phase_code, outcome_code, refusal_code, refused_in, stop_code, message_fault_code};

use crate::answers::{MessageFault, Refusal};
use crate::rules::{message_rule, request_rule};
use client::Outcome;
use client_tracking::FeedFault;
use machine::Phase;
use wire::{Version, Wish};

/// The call did what it is for.
pub(crate) const OK: u32 = 0;

/// A request waits.
pub(crate) const NOT_ALLOWED: u32 = 1;

/// `malloc` gave none.
pub(crate) const MEMORY: u32 = 5;

/// No version has the number.
pub(crate) const NO_VERSION: u32 = 10;

/// No value begins at the place, or it is cut off.
pub(crate) const NO_VALUE: u32 = 11;

/// The handle is null.
pub(crate) const NO_CLIENT: u32 = 100;

/// What a call of `bolt_ask` tells.
#[repr(C)]
#[derive(Drop)]
pub struct Asked {
    /// The request's ordinal, from 0.
    pub ordinal: u64,
    /// Of a message that isn't taken, the rule that it breaks: its two characters, as 'M' << 8 | '5'.
    pub rule: u64,
    /// Where it breaks the rule.
    pub place: u64,
}

/// Where a client stands.
#[repr(C)]
#[derive(Drop)]
pub struct Standing {
    /// The ordinal of the first request that waits, or else of the next.
    pub first: u64,
    /// How many requests wait, at most 32.
    pub pending: u32,
    /// The phase of the last summary, 0 before one.
    pub phase: u32,
    /// 44, 50 or 51, or 0 if none is known.
    pub version: u32,
    /// 1 if the client has ended, else 0.
    pub has_ended: u32,
    /// 1 if an answer is still to come, else 0.
    pub awaits: u32,
    /// 0.
    pub padding: u32,
}

/// The wish of a number: 0 for the newest of all, else a version.
pub(crate) fn wish(number: u32) -> Option<Wish>
    ensures { result ≡ wish_of number }
{
    match number {
        0 => Some(Wish::Newest),
        44 => Some(Wish::Only(Version::V44)),
        50 => Some(Wish::Only(Version::V50)),
        51 => Some(Wish::Only(Version::V51)),
        _ => None,
    }
}

/// The number of a version, 0 for none.
pub(crate) fn version_code(version: Option<Version>) -> u32
    ensures { result ≡ version_code version }
{
    match version {
        None => 0,
        Some(Version::V44) => 44,
        Some(Version::V50) => 50,
        Some(Version::V51) => 51,
    }
}

pub(crate) fn phase_code(phase: Phase) -> u32
    ensures { result ≡ phase_code phase }
{
    match phase {
        Phase::Fresh => 0,
        Phase::Unauth => 1,
        Phase::Ready => 2,
        Phase::Streaming => 3,
        Phase::TxReady => 4,
        Phase::TxStreaming => 5,
        Phase::Halted => 6,
        Phase::Defunct => 7,
    }
}

/// The number of an outcome, 6 if none is known.
pub(crate) fn outcome_code(outcome: Option<Outcome>) -> u32
    ensures { result ≡ outcome_code outcome }
{
    match outcome {
        Some(Outcome::Done) => 0,
        Some(Outcome::Committed) => 1,
        Some(Outcome::Refused) => 2,
        Some(Outcome::Ignored) => 3,
        Some(Outcome::Lost) => 4,
        Some(Outcome::Unknown) => 5,
        None => 6,
    }
}

/// The code of a refusal.
pub(crate) fn refusal_code(refusal: &Refusal) -> u32
    ensures { result ≡ refusal_code refusal.now }
{
    match refusal {
        Refusal::NotAllowed => 1,
        Refusal::PipelineFull => 2,
        Refusal::Size => 3,
        Refusal::Closed => 4,
        Refusal::Memory => 5,
        Refusal::Unwritable(_) => 7,
        Refusal::NoRequest(_) => 8,
    }
}

/// Tells the rule that a message breaks, and where; nothing if it is refused for another reason.
pub(crate) fn tell_rule(refusal: Refusal, asked: &mut Asked)
    ensures { asked.new ≡ refused_in refusal asked.old }
{
    let (rule, place) = match refusal {
        Refusal::Unwritable(why) => request_rule(why),
        Refusal::NoRequest(fault) => message_rule(fault),
        _ => return,
    };
    asked.rule = rule;
    asked.place = place;
}

/// The code of why no more of a piece was used. A bad answer has another if it is a message of more than 65,536 bytes.
pub(crate) fn stop_code(is_large: bool, stop: Option<FeedFault>) -> u32
    ensures { result ≡ stop_code is_large stop }
{
    match stop {
        None | Some(FeedFault::Full) => 0,
        Some(FeedFault::Closed) => 4,
        Some(FeedFault::Memory) => 5,
        Some(FeedFault::BadPeer) if is_large => 12,
        Some(FeedFault::BadPeer) => 6,
    }
}

/// The code of a message that isn't told.
pub(crate) fn message_code(fault: MessageFault) -> u32
    ensures { result ≡ message_fault_code fault }
{
    match fault {
        MessageFault::Memory => 5,
        MessageFault::Unwritable => 7,
        MessageFault::NotHeard => 9,
    }
}
