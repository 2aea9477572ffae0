//! Laws of calls on a server, and on this library's clients at its connections. Each function has an empty body, and its contract is the law.
ghost use Rattle.std.specs.Prelude.{ℕ, Option};
ghost use Rattle.wire.specs.declared.Wish.{Wish};
ghost use Rattle.world_guarantees.specs.Calls.{AreEvents};
ghost use Rattle.world_guarantees.specs.Fates.{CallsAreKnown};
ghost use Rattle.world_guarantees.specs.Runs.{AreRuns};
ghost use Rattle.world_guarantees.specs.Standing.{ClientsMayRely};

use engine::{Engine, Gate};

/// States that each list of calls on a server is a list of events of a world with foreign peers, if the server was made over a ledger. The
/// world's server is the one after the calls: each session's state is that of its connection, and both have the same ledger.
pub fn calls_are_events<E: Engine, G: Gate>()
    ensures { (gate : G) → AreEvents E.answer G.welcomes gate }
{}

/// States that calls on a server and on this library's clients, in the order of time, are a run of a world. Each of these clients is a
/// connection of the world, with the requests that it accepted and the bytes that it took.
///
/// The premise: after each call, the session of such a connection has taken a prefix of the bytes that its client has put out, and the client
/// a prefix of the bytes that came out of its session.
pub fn calls_are_runs<E: Engine, G: Gate>()
    ensures { (gate : G) (ours : ℕ → Option Wish) → AreRuns E.answer G.welcomes gate ours }
{}

/// States what a fate that `until_known` of `driver` returns means for the ledger of a server, if the calls on its clients are among such
/// calls. The contract of `until_known` names the calls on each client, by the bytes that its streams have moved.
pub fn calls_are_known<E: Engine, G: Gate>()
    ensures { (gate : G) (ours : ℕ → Option Wish) → CallsAreKnown E.answer G.welcomes gate ours }
{}

/// States what clients may rely on after such calls.
///
/// - No two entries of the ledger have the same token.
/// - The rows and summaries that a client reports are the first that its session sent, in order.
/// - A request that is reported committed is in the ledger exactly once with its writes: by its token, if it has one.
/// - A request that is reported done, refused, ignored or lost has no entry. One that is unknown has at most one.
/// - Each request has at most one entry of its own, and no other entry is of its connection.
pub fn clients_may_rely<E: Engine, G: Gate>()
    ensures { (gate : G) (ours : ℕ → Option Wish) → ClientsMayRely E.answer G.welcomes gate ours }
{}
