//! What a message is read as.
ghost use Rattle.std.specs.Prelude.{ℕ, List, Result, Err};
ghost use Rattle.packstream.specs.declared.fault.PackFault.{PackFault};
ghost use Rattle.packstream.specs.Tree.{Tree};
ghost use Rattle.packstream.specs.Answers.{Tells, whole_of};
ghost use Rattle.wire.specs.declared.Version.{Version};
ghost use Rattle.messages.specs.declared.fault.MsgFault.{MsgFault};
ghost use Rattle.messages.specs.Faults.{of_pack};

use messages::{MsgFault, Request, Response, read_request, read_response};
use std::alloc::Global;
use wire::Version;

/// What an end reads messages as: a server as requests, a client as responses.
pub trait Readable {
    /// What may be told of a message of these bytes at a version.
    ghost reads: { Version → List ℕ → Result Self MsgFault → Type 0 };

    /// The message of these bytes; or their fault, or want of memory.
    fn of_bytes(alloc: Global, version: Version, bytes: &[u8]) -> Result<Self, MsgFault>
        ensures { reads version bytes.now result };

    /// Of bytes that spell no value their fault is told.
    ghost bad: { (v : Version) (b : List ℕ) (p : PackFault) → Tells (λ (t : Tree). t) (Err p) (whole_of b) → reads v b (Err (of_pack p)) };
}

impl Readable for Request {
    ghost use Rattle.messages.specs.View.{request_view};
    ghost use Rattle.messages.specs.Reading.{Answers};
    ghost use Rattle.messages.specs.Messages.{request_of};
    ghost use Rattle.messages_deframer.specs.NoValue.{no_request};

    ghost reads = { λ v b told. Answers request_view told (request_of v b) };

    ghost bad = { λ v b p told. no_request v b p told };

    fn of_bytes(alloc: Global, version: Version, bytes: &[u8]) -> Result<Request, MsgFault> {
        read_request(alloc, version, bytes)
    }
}

impl Readable for Response {
    ghost use Rattle.messages.specs.View.{response_view};
    ghost use Rattle.messages.specs.Reading.{Answers};
    ghost use Rattle.messages.specs.Messages.{response_of};
    ghost use Rattle.messages_deframer.specs.NoValue.{no_response};

    ghost reads = { λ v b told. Answers response_view told (response_of v b) };

    ghost bad = { λ v b p told. no_response v b p told };

    fn of_bytes(alloc: Global, version: Version, bytes: &[u8]) -> Result<Response, MsgFault> {
        read_response(alloc, version, bytes)
    }
}
