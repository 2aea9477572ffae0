//! A call of `until_known` whose contract says what the fate means for a server's ledger.
ghost use Rattle.std.specs.Prelude.{◌≡◌, true, false, IfOk, OnOk, OnErr};
ghost use Rattle.messages.specs.Reading.{is_token};
ghost use Rattle.driver.specs.Attempting.{asked_view};
ghost use Rattle.world_guarantees.specs.Fates.{IsKnownTo};

use client_tracking::{Fate, Retry};
use driver::{Asked, BadToken, Connects, until_known};
use engine::{Engine, Gate};
use std::alloc::Global;

/// Sends a transaction as `until_known` of `driver` does. The fate is true of the ledger of each server of this product that accepted the
/// connections.
///
/// - Stands: exactly one entry of the ledger has the token, with the writes of the last attempt.
/// - Clash: exactly one entry has the token, with other writes than the last attempt.
/// - Refused, Absent: no attempt added an entry.
/// - Open: at most one entry has the token.
///
/// # Errors
///
/// `BadToken` if the token is empty or has more than 64 bytes. No connection is opened then.
pub fn until_known_of<E: Engine, G: Gate, C: Connects>(
    alloc: Global,
    asked: &Asked,
    retry: Retry,
    connects: &mut C,
    tries: u32,
) -> Result<Fate, BadToken>
    ensures known { IfOk result (λ f.
        IsKnownTo E.answer G.welcomes (asked_view asked.now) retry (C.log connects.old) (C.log connects.new) tries f) }
    ensures given_back { C.out connects.new ≡ C.out connects.old }
    ensures token { OnOk result (is_token (asked_view asked.now).token ≡ true) }
    ensures unsent { OnErr result
        ((is_token (asked_view asked.now).token ≡ false) × (connects.new ≡ connects.old)) }
{
    until_known(alloc, asked, retry, connects, tries)
}
