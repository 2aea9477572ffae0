//! Why a request failed.

/// Why a request was answered FAILURE.
#[derive(Clone, Copy, Debug, PartialEq, Eq)]
pub enum Fault {
    /// The engine has no query of this text.
    UnknownText,
    /// A parameter of the query is missing, of the wrong kind or out of range.
    Parameter,
    /// A query that writes, in mode `r`.
    ReadOnly,
    /// The answer would have more than 1,024 rows.
    TooManyRows,
    /// The transaction would have more than 1,024 writes.
    TooManyWrites,
    /// Other writes were committed under the transaction's token.
    TokenClash,
    /// A row, or the SUCCESS of a RUN, that has no form at the version.
    NotInVersion,
    /// A row, or the SUCCESS of a RUN, past 65,536 bytes.
    RowTooLarge,
    /// The client wasn't let in.
    Unauthorized,
    /// The request has no row in its state.
    Invalid,
}

impl Fault {
    ghost use Rattle.std.specs.Prelude.{◌≡◌};
    ghost use Rattle.server_session.specs.Faults.{code_of, message_of};

    pub(crate) fn code(self) -> &'static str
        ensures { result.now ≡ code_of self }
    {
        match self {
            Fault::UnknownText => "Neo.ClientError.Statement.UnknownText",
            Fault::Parameter => "Neo.ClientError.Statement.Parameter",
            Fault::ReadOnly => "Neo.ClientError.Statement.ReadOnly",
            Fault::TooManyRows => "Neo.ClientError.Statement.TooManyRows",
            Fault::TooManyWrites => "Neo.ClientError.Transaction.TooManyWrites",
            Fault::TokenClash => "Neo.ClientError.Transaction.TokenClash",
            Fault::NotInVersion => "Neo.ClientError.Statement.NotInVersion",
            Fault::RowTooLarge => "Neo.ClientError.Statement.RowTooLarge",
            Fault::Unauthorized => "Neo.ClientError.Security.Unauthorized",
            Fault::Invalid => "Neo.ClientError.Request.Invalid",
        }
    }

    pub(crate) fn message(self) -> &'static str
        ensures { result.now ≡ message_of self }
    {
        match self {
            Fault::UnknownText => "unknown text",
            Fault::Parameter => "bad parameter",
            Fault::ReadOnly => "write in read mode",
            Fault::TooManyRows => "more than 1024 rows",
            Fault::TooManyWrites => "more than 1024 writes",
            Fault::TokenClash => "token used with other writes",
            Fault::NotInVersion => "value not in this version",
            Fault::RowTooLarge => "row past 65536 bytes",
            Fault::Unauthorized => "authentication refused",
            Fault::Invalid => "request not valid in this state",
        }
    }
}
