//! What comes of the pieces of a server's bytes.

ghost use Rattle.std.specs.Prelude.{◌≡◌, Option, unwrap_or};
ghost use Rattle.wire.specs.declared.Version.TheVariants.{V51};
ghost use Rattle.wire.specs.Framing.{Item};
ghost use Rattle.messages.specs.View.{response_view};
ghost use Rattle.messages.specs.Reading.{Answers};
ghost use Rattle.messages.specs.Messages.{response_of};
ghost use Rattle.messages.specs.Arrivals.{heard_version};
ghost use Rattle.messages_deframer.specs.Taking.{Brings};
ghost use Rattle.client.specs.Answers.{held_bytes};
ghost use Rattle.client.specs.Hearings.{came_as, came_in};

use crate::version_answer::Opening;
use messages::Response;
use messages_deframer::Brought;
use wire::Version;

/// What ended with the last byte that was used.
#[derive(Drop)]
pub(crate) enum Came {
    /// Nothing but, perhaps, a no-op.
    Nothing,
    /// What stands for no answer.
    Bad,
    Version(Option<Version>),
    Response(Response),
}

/// How many bytes of a piece were used, and what ended with the last of them.
#[derive(Drop)]
pub(crate) struct Taken {
    pub used: usize,
    pub came: Came,
}

/// What a piece of chunks brought, by the version that is known.
pub(crate) fn came_of(version: Option<Version>, brought: Brought<Response>) -> Came
    ensures { (item : Option Item)
        → Brings (λ b told. Answers response_view told (response_of (unwrap_or version V51) b)) item
        brought → came_as result ≡ came_in version item }
{
    match brought {
        Brought::Nothing | Brought::Noop => Came::Nothing,
        Brought::Message(response) => match version {
            Some(_) => Came::Response(response),
            None => Came::Bad,
        },
        Brought::Bad(_) => Came::Bad,
        Brought::TooBig => Came::Bad,
    }
}

/// The version that a whole answer tells.
pub(crate) fn answer_of(opening: Opening) -> Came
    requires { opening.len ≡ 4 }
    ensures { came_as result ≡ heard_version (held_bytes opening) }
{
    match opening.version() {
        Some(version) => Came::Version(version),
        None => Came::Bad,
    }
}
