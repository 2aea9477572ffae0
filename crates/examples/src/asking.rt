//! A caller of a client.
ghost use Rattle.std.specs.Prelude.{◌≡◌, take, IfOk, OnOk, IfErr};
ghost use Rattle.messages.specs.View.{request_view};
ghost use Rattle.client.specs.Rest.{after_submit, taken_out};
ghost use Rattle.client.specs.Fits.{rest_of};
ghost use Rattle.examples.specs.Asks.{Leaves};

use bytes::Bytes;
use client::{Client, ClientFault, SubmitFault};
use messages::Request;

/// Why nothing is to be sent.
#[derive(Debug, Drop)]
pub enum AskFault {
    /// The request wasn't taken, and nothing has changed.
    NotTaken(SubmitFault),
    /// It was taken, and waits; its bytes can be taken out later.
    NotOut(ClientFault),
}

/// Asks a request, and gives what is to be sent then, at most `max` bytes: what waited to go out, and behind it the bytes of the request.
pub fn ask(client: &mut Client, request: Request, max: usize) -> Result<Bytes, AskFault>
    ensures bytes { IfOk result (λ bytes. bytes
        ≡ take max (after_submit (rest_of client.old) (request_view request)).unsent) }
    ensures rest { OnOk result (rest_of client.new
        ≡ taken_out (after_submit (rest_of client.old) (request_view request)) max) }
    ensures fault { IfErr result
        (Leaves (rest_of client.old) (request_view request) (rest_of client.new)) }
{
    match client.submit(request) {
        Ok(_) => {}
        Err(fault) => return Err(AskFault::NotTaken(fault)),
    }
    match client.take_out(max) {
        Ok(bytes) => Ok(bytes),
        Err(fault) => Err(AskFault::NotOut(fault)),
    }
}
