//! What kind a request is.
ghost use Rattle.std.specs.Prelude.{◌≡◌};
ghost use Rattle.messages.specs.View.{request_view};
ghost use Rattle.machine.specs.Asks.{kind_of, in_part, is_reset, is_goodbye};

use crate::kinds::Kind;
use messages::{Count, Request};

/// The kind of a request.
pub fn kind(request: &Request) -> Kind
    ensures { result ≡ kind_of (request_view request.now) }
{
    match request {
        Request::Hello { .. } => Kind::Hello,
        Request::Logon(_) => Kind::Logon,
        Request::Logoff => Kind::Logoff,
        Request::Goodbye => Kind::Goodbye,
        Request::Reset => Kind::Reset,
        Request::Run { .. } => Kind::Run,
        Request::Begin { .. } => Kind::Begin,
        Request::Commit => Kind::Commit,
        Request::Rollback => Kind::Rollback,
        Request::Discard(_) => Kind::Discard,
        Request::Pull(_) => Kind::Pull,
    }
}

/// Whether a request asks for so many rows, and not for all. Takes no memory.
pub fn is_partial(request: &Request) -> bool
    ensures { result ≡ in_part (request_view request.now) }
{
    matches!(
        request,
        Request::Discard(Count::Of(_)) | Request::Pull(Count::Of(_))
    )
}

/// Whether a request is a RESET. Takes no memory.
pub fn is_reset(request: &Request) -> bool
    ensures { result ≡ is_reset (kind_of (request_view request.now)) }
{
    matches!(request, Request::Reset)
}

/// Whether a request is a GOODBYE. Takes no memory.
pub fn is_goodbye(request: &Request) -> bool
    ensures { result ≡ is_goodbye (kind_of (request_view request.now)) }
{
    matches!(request, Request::Goodbye)
}
