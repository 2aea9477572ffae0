//! What a client of a connection is asked, and its loss.
ghost use Rattle.std.specs.Prelude.{◌≡◌};
ghost use Rattle.client.specs.Fits.{Fits as FitsClient};
ghost use Rattle.client.specs.Rest.{Rest as Asking, after_drop, losses};
ghost use Rattle.messages.specs.View.{request_view};
ghost use Rattle.world.specs.Fits.{Link as LinkSeen};
ghost use Rattle.world.specs.Turns.{Holds, Submits, LosesClient, seen_in, refusal_seen};

use crate::kinds::{Refused, Seen};
use crate::link::{End, Link};
use client::{Client, Losses, SubmitFault};
use messages::Request;

/// The client is asked to send a request.
pub(crate) fn submit(link: &mut Link, request: Request) -> Result<Seen, Refused>
    ensures { (m : LinkSeen) → Holds link.old m
        → Submits m (request_view request) (seen_in result) (Holds link.new) }
{
    let End::Ours { client, .. } = &mut link.end else {
        return Err(Refused::WrongPeer);
    };
    match client.submit(request) {
        Ok(ordinal) => Ok(Seen::Submitted(Ok(ordinal))),
        Err(fault) => refused(fault),
    }
}

/// What is seen of a request that the client refuses.
fn refused(fault: SubmitFault) -> Result<Seen, Refused>
    ensures { seen_in result ≡ refusal_seen fault }
{
    match fault {
        SubmitFault::Memory => Err(Refused::Memory),
        fault => Ok(Seen::Submitted(Err(fault))),
    }
}

/// The client is lost; a loss that was noticed before changes nothing.
pub(crate) fn lose_client(link: &mut Link) -> Result<Seen, Refused>
    ensures { (m : LinkSeen) → Holds link.old m → LosesClient m (seen_in result) (Holds link.new) }
{
    let End::Ours { client, lost, .. } = &mut link.end else {
        return Err(Refused::WrongPeer);
    };
    if lost.is_some() {
        return Ok(Seen::Nothing);
    }
    *lost = Some(leave(client));
    Ok(Seen::Nothing)
}

/// A client hears nothing more; the outcomes that it gives then.
fn leave(client: &mut Client) -> Losses
    ensures { (y : Asking) → FitsClient client.old y
        → (result ≡ losses y.knows) × FitsClient client.new (after_drop y) }
{
    client.lost()
}
