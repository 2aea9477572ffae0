//! What a client asks.
ghost use Rattle.std.specs.Prelude.{◌≡◌, IfOk};
ghost use Rattle.messages.specs.Prelude.{entries, request_view, auth_view};

use std::alloc::AllocError;
use std::fmt;
use structures::Cell;

/// Whether a query may write (Bolt message specification, the entry `mode` of BEGIN and RUN).
#[derive(Clone, Copy, Debug, PartialEq, Eq)]
pub enum Mode {
    Read,
    Write,
}

/// How many rows a PULL or a DISCARD takes (the entry `n`).
#[derive(Clone, Copy, Debug, PartialEq, Eq)]
pub enum Count {
    /// All that are left, -1 in bytes.
    All,
    /// At most so many. A number below 1 can't be written.
    Of(i64),
}

/// Who a client is, and how it proves it. Its credentials aren't printed.
#[derive(Drop)]
pub struct Auth {
    pub scheme: String,
    pub principal: String,
    pub credentials: String,
}

impl fmt::Debug for Auth {
    fn fmt<W: fmt::Write>(&self, f: &mut fmt::Formatter<W>) -> fmt::Result {
        let (scheme, principal) = (self.scheme.as_str(), self.principal.as_str());
        write!(
            f,
            "Auth {{ scheme: {scheme:?}, principal: {principal:?}, .. }}"
        )
    }
}

/// A request (Bolt message specification).
///
/// ```rust
/// Request::Hello {
///     agent: text("example/1")?,
///     auth: None
/// },
/// Request::Logon(auth),
/// ```
#[derive(Debug, Drop)]
pub enum Request {
    /// The name of the client; with `auth` where HELLO carries the login, at 4.4 and 5.0, and without at 5.1.
    Hello {
        agent: String,
        auth: Option<Auth>,
    },
    /// Stands at 5.1 alone.
    Logon(Auth),
    /// Stands at 5.1 alone.
    Logoff,
    Goodbye,
    Reset,
    Run {
        text: String,
        /// The parameters in their order.
        params: Vec<(String, Cell)>,
        mode: Mode,
        /// Of 1 to 64 bytes, or it can't be written. A server heeds it outside a transaction alone.
        token: Option<String>,
    },
    Begin {
        mode: Mode,
        /// Of 1 to 64 bytes, or it can't be written. By it a server knows a repeated transaction again.
        token: Option<String>,
    },
    Commit,
    Rollback,
    Discard(Count),
    Pull(Count),
}

// `clone` is written out, since a derived one says nothing of types that hold cells.
impl Clone for Auth {
    ghost is_clone = { λ a b. auth_view b ≡ auth_view a };

    fn clone(&self) -> Result<Auth, AllocError> {
        Ok(Auth {
            scheme: self.scheme.clone()?,
            principal: self.principal.clone()?,
            credentials: self.credentials.clone()?,
        })
    }
}

fn copy_cells(cells: &Vec<(String, Cell)>) -> Result<Vec<(String, Cell)>, AllocError>
    ensures { IfOk result (λ v. entries v.items ≡ entries cells.now.items) }
{
    let mut copies = Vec::with_capacity(*cells.allocator(), cells.len())?;
    for (name, cell) in cells {
        let key = name.clone()?;
        copies.push((key, cell.clone()?))?;
    }
    Ok(copies)
}

impl Clone for Request {
    ghost is_clone = { λ r s. request_view s ≡ request_view r };

    fn clone(&self) -> Result<Request, AllocError> {
        match self {
            Request::Hello { agent, auth } => Ok(Request::Hello {
                agent: agent.clone()?,
                auth: auth.clone()?,
            }),
            Request::Logon(auth) => Ok(Request::Logon(auth.clone()?)),
            Request::Logoff => Ok(Request::Logoff),
            Request::Goodbye => Ok(Request::Goodbye),
            Request::Reset => Ok(Request::Reset),
            Request::Run {
                text,
                params,
                mode,
                token,
            } => Ok(Request::Run {
                text: text.clone()?,
                params: copy_cells(params)?,
                mode: *mode,
                token: token.clone()?,
            }),
            Request::Begin { mode, token } => Ok(Request::Begin {
                mode: *mode,
                token: token.clone()?,
            }),
            Request::Commit => Ok(Request::Commit),
            Request::Rollback => Ok(Request::Rollback),
            Request::Discard(count) => Ok(Request::Discard(*count)),
            Request::Pull(count) => Ok(Request::Pull(*count)),
        }
    }
}
