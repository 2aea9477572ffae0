//! The messages that a script's requests stand for.
ghost use Rattle.std.specs.Prelude.{◌≡◌, IfOk, codes};
ghost use Rattle.messages.specs.View.{request_view, auth_view, auth_in, Hello};
ghost use Rattle.cli_scripts.specs.Meant.{meant, login, login_at};
ghost use Rattle.cli_scripts.specs.Views.{script_request_view};

use crate::request::ScriptRequest;
use messages::{Auth, Request};
use std::alloc::{AllocError, Global};
use wire::Version;

impl ScriptRequest {
    /// The request at a version: the agent is `t/1`, the scheme `basic`, the user `user` and the credentials `pass`, or
    /// `bad` for `logon bad`. A HELLO has the login if the version has one there. Or want of memory.
    pub fn into_request(self, alloc: Global, version: Version) -> Result<Request, AllocError>
        ensures { IfOk result (λ r. request_view r ≡ meant version (script_request_view self)) }
    {
        Ok(match self {
            ScriptRequest::Hello => return hello(alloc, version),
            ScriptRequest::Logon => Request::Logon(auth(alloc, "pass")?),
            ScriptRequest::LogonBad => Request::Logon(auth(alloc, "bad")?),
            ScriptRequest::Logoff => Request::Logoff,
            ScriptRequest::Goodbye => Request::Goodbye,
            ScriptRequest::Reset => Request::Reset,
            ScriptRequest::Run {
                text,
                params,
                mode,
                token,
            } => Request::Run {
                text,
                params,
                mode,
                token,
            },
            ScriptRequest::Begin { mode, token } => Request::Begin { mode, token },
            ScriptRequest::Commit => Request::Commit,
            ScriptRequest::Rollback => Request::Rollback,
            ScriptRequest::Discard(count) => Request::Discard(count),
            ScriptRequest::Pull(count) => Request::Pull(count),
        })
    }
}

fn hello(alloc: Global, version: Version) -> Result<Request, AllocError>
    ensures { IfOk result (λ r. request_view r ≡ Hello (codes "t/1") (login_at version)) }
{
    let agent = String::from_str(alloc, "t/1")?;
    let auth = login_at(alloc, version)?;
    Ok(Request::Hello { agent, auth })
}

/// The login of a HELLO, if the version has one there.
fn login_at(alloc: Global, version: Version) -> Result<Option<Auth>, AllocError>
    ensures { IfOk result (λ a. auth_in a ≡ login_at version) }
{
    if version.hello_has_login() {
        Ok(Some(auth(alloc, "pass")?))
    } else {
        Ok(None)
    }
}

fn auth(alloc: Global, credentials: &str) -> Result<Auth, AllocError>
    ensures { IfOk result (λ a. auth_view a ≡ login credentials.now) }
{
    Ok(Auth {
        scheme: String::from_str(alloc, "basic")?,
        principal: String::from_str(alloc, "user")?,
        credentials: String::from_str(alloc, credentials)?,
    })
}
