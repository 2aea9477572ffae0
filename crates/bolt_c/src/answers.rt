//! What the calls of a handle tell, as plain data.

ghost use Rattle.std.specs.Prelude.{◌≡◌};
ghost use Rattle.bolt_c.specs.Answers.{refusal_of};

use client::{SubmitFault, Unwritable};
use messages::MsgFault;

/// Why a request isn't taken.
#[derive(Drop)]
pub(crate) enum Refusal {
    /// It isn't allowed in every phase that may follow the requests that wait; nor is any before the version is known.
    NotAllowed,
    /// 32 requests wait, or no ordinal is left.
    PipelineFull,
    /// Its message takes more than 65,536 bytes.
    Size,
    /// The client has ended.
    Closed,
    /// Memory ran out.
    Memory,
    /// It can't be written, and this is why.
    Unwritable(Unwritable),
    /// The bytes are no request of the version, and this is why.
    NoRequest(MsgFault),
}

/// Why the bytes of a message aren't told.
#[derive(Clone, Copy, Drop)]
pub(crate) enum MessageFault {
    /// The account has no such row or summary.
    NotHeard,
    /// Memory ran out.
    Memory,
    /// It can't be written.
    Unwritable,
}

/// The client's refusal.
pub(crate) fn refusal_of(fault: SubmitFault) -> Refusal
    ensures { result ≡ refusal_of fault }
{
    match fault {
        SubmitFault::NotAllowed => Refusal::NotAllowed,
        SubmitFault::PipelineFull => Refusal::PipelineFull,
        SubmitFault::Size => Refusal::Size,
        SubmitFault::Closed => Refusal::Closed,
        SubmitFault::Memory => Refusal::Memory,
        SubmitFault::Unwritable(why) => Refusal::Unwritable(why),
    }
}
