//! What is received of a piece of chunks.
ghost use Rattle.std.specs.Prelude.{◌≡◌, Option, false, IfOk, OnErr};
ghost use Rattle.wire.specs.Framing.{Item, Message};
ghost use Rattle.messages.specs.View.{request_view};
ghost use Rattle.messages.specs.Reading.{Answers};
ghost use Rattle.messages.specs.Messages.{request_of};
ghost use Rattle.messages_deframer.specs.Taking.{Brings};
ghost use Rattle.server_session.specs.Rest.{full, version_of, Receives};
ghost use Rattle.server_session.specs.Views.{kept_of};
ghost use Rattle.server.specs.Feeding.{arrival, arrives};
ghost use Rattle.server.specs.Incoming.{IsReceived};

use messages::{Request, read_request};
use messages_deframer::Brought;
use server_session::{Session, What};
use std::alloc::AllocError;

/// Hands the session a message that is whole. An `Err` is want of memory, and changes nothing.
pub(crate) fn receive_message(session: &mut Session, message: &[u8]) -> Result<What, AllocError>
    requires { full (kept_of session.old) ≡ false }
    ensures ok { IfOk result (λ what. Receives what (kept_of session.old) (kept_of session.new)
        (arrives (version_of (kept_of session.old)) (Message message.now))) }
    ensures err { OnErr result (kept_of session.new ≡ kept_of session.old) }
{
    let (alloc, version) = (session.alloc(), session.version());
    session.receive(read_request(alloc, version, message))
}

/// Hands the session what the inbox read. Takes no memory.
pub(crate) fn receive(session: &mut Session, brought: Brought<Request>) -> Result<What, AllocError>
    requires { full (kept_of session.old) ≡ false }
    ensures { (item : Option Item) → Brings
        (λ b told. Answers request_view told (request_of (version_of (kept_of session.old)) b)) item
        brought → IsReceived result (kept_of session.old) (kept_of session.new)
        (arrival (kept_of session.old) item) }
{
    match brought {
        Brought::Nothing => Ok(What::Part),
        Brought::Noop => Ok(What::Noop),
        Brought::Message(request) => session.receive(Ok(request)),
        Brought::Bad(fault) => session.receive(Err(fault)),
        Brought::TooBig => Ok(session.refuse()),
    }
}
