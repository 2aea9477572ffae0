//! States what callers may rely on. All but one of its functions are laws. They are about a world of both ends over one ledger.
//!
//! - [`retries`] is about attempts at one transaction under one token, also if other callers use the token. The main law for one caller is
//!   [`retries::one_caller_may_rely`].
//! - [`calls`] is about lists of calls on a server and on clients at its connections, wherever they run. Such lists are runs of a world. The
//!   main law is [`calls::clients_may_rely`].
//! - [`restarts`] is about servers one after the other, over one ledger that outlives them.
//! - [`relying::until_known_of`] is a call. Its contract says what a fate of `until_known` means for a server's ledger.
#![tactic(auto)]

pub mod calls;
pub mod relying;
pub mod restarts;
pub mod retries;
