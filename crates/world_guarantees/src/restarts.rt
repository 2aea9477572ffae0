//! What holds of worlds one after the other. The function has an empty body, and its contract is the law.
ghost use Rattle.world_guarantees.specs.Lives.{ReliesOn};

/// However often a server is ended, at whatever moments, and another is made over the ledger that it left: what holds of a client over
/// its own server goes on to hold in the ledger of the last. The entries since each server began stand together in it, in their order.
/// What a client reports committed under a token is the only entry of the whole ledger that has the token; what it reports
/// committed without one stands exactly once among the entries since its server began.
///
/// That a server is made over the ledger that the one before left is a premise: whoever keeps the ledger has to see to it.
pub fn clients_may_rely_on()
    ensures { ReliesOn }
{}
