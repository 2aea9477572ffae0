//! A caller of a client that keeps the account.
ghost use Rattle.std.specs.Prelude.{◌≡◌};
ghost use Rattle.client_tracking.specs.Holding.{account_of};

use client::SubmitFault;
use client_tracking::{Rows, TrackingClient};
use messages::{Auth, Count, Mode};
use structures::Cell;

/// Asks what opens a connection and a transaction of one query under a token, in one pipeline. Answers the ordinal of its COMMIT; or why
/// the first that isn't accepted isn't, and those before it wait. What was told before stays in the account.
pub fn ask_transaction(
    tracking: &mut TrackingClient,
    agent: String,
    auth: Auth,
    token: String,
    text: String,
    params: Vec<(String, Cell)>,
) -> Result<u64, SubmitFault>
    ensures { account_of tracking.new ≡ account_of tracking.old }
{
    let (hello, login) = tracking.ask_hello(agent, auth)?;
    let begin = tracking.ask_begin(Mode::Write, Some(token))?;
    let (run, rows) = tracking.ask_run(text, params, Mode::Write, None, Rows::Discard(Count::All))?;
    let commit = tracking.ask_commit()?;
    Ok(commit)
}
