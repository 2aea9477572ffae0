//! How a transaction is sent: what prevents a second commit, what is known before, and how often it is sent.
ghost use Rattle.std.specs.Prelude.{◌≡◌};
ghost use Rattle.decider.specs.declared.policy.Retry.TheVariants as retry;

/// The way to prevent a second commit when the transaction is sent again.
#[derive(Clone, Copy, Debug, PartialEq, Eq)]
pub enum Retry {
    /// Its token, at servers that say in their greeting that they keep tokens.
    ///
    /// After a doubt, the transaction is sent again only to such a server, and only if each doubt was left by such a
    /// server. After any other doubt nothing is sent. The default.
    Detect,
    /// Its token. The caller knows that each server that it is sent to keeps tokens, and that they share one ledger.
    Tokens,
    /// A marker row that each attempt writes under a unique constraint.
    Marker,
    /// Nothing: after a doubt, the transaction is not sent again.
    Never,
}

impl Default for Retry {
    /// Returns `Detect`, which is safe at every server.
    fn default() -> Retry
        ensures { result ≡ retry.Detect }
    {
        Retry::Detect
    }
}

/// The knowledge of the transaction before the first attempt.
#[derive(Clone, Copy, Debug, PartialEq, Eq)]
pub enum Before {
    /// It was never sent.
    Nothing,
    /// It was sent, and may have committed or may yet commit. Nothing is known of the server.
    ///
    /// With `Retry::Detect` nothing is sent then. A caller that knows that every server keeps tokens chooses
    /// `Retry::Tokens`.
    InDoubt,
}

/// How a transaction is sent.
#[derive(Clone, Copy, Debug, PartialEq, Eq)]
pub struct Policy {
    /// The way to prevent a second commit.
    pub retry: Retry,
    /// The knowledge before the first attempt.
    pub before: Before,
    /// The maximum number of attempts, and of tombstones.
    pub tries: u32,
}
