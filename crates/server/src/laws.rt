//! What holds of a server over every list of calls. Each function has an empty body, and its contract is the law.
ghost use Rattle.std.specs.Prelude.{◌≡◌, ◌≢◌, ℕ, List, Some};
ghost use Rattle.messages.specs.View.{RequestView};
ghost use Rattle.engine.specs.Views.{EntryView};
ghost use Rattle.server.specs.Past.{Asks, Follows, bytes_taken, requests_answered};
ghost use Rattle.server.specs.Serving.{Live, Rest, empty, find};
ghost use Rattle.server.specs.Spoken.{IsSpoken, bytes_out, sayings};
ghost use Rattle.server.specs.Running.{Event, IsKept, conn_of, after_event, after_events, Grows};

use engine::{Engine, Gate};

/// A call on one session leaves every other as it was.
#[tactic(auto, using(crate::proofs::Runs::leaves_others))]
pub fn leaves_others<E: Engine, G: Gate>()
    ensures { (event : Event) (r : Rest G) (other : ℕ) → conn_of event r ≢ other
        → find other (after_event E.answer G.welcomes event r).sessions ≡ find other r.sessions }
{}

/// Over every list of calls, at most 16 sessions live, each number once, and what each keeps is within its limits: 32 slots, 65,537
/// bytes of an unfinished item, 131,077 bytes to go, 1,024 writes and 1,024 rows.
pub fn keeps_limits<E: Engine, G: Gate>()
    ensures { (ledger : List EntryView) (gate : G) (events : List Event)
        → IsKept (after_events E.answer G.welcomes events (empty ledger gate)) }
{}

/// The ledger grows by a work step alone, by one entry, that of the first request that waits there, by a row that commits.
pub fn grows_by_commits<E: Engine, G: Gate>()
    ensures { (event : Event) (r : Rest G)
        → Grows event r (after_event E.answer G.welcomes event r) }
{}

/// What a session has placed is what its bytes ask: over every list of calls, however the bytes were cut, what it has answered and
/// what waits is, in order, what arrives by the bytes that its feeds took; version, handshake and the unfinished item are theirs too.
/// After an offer of which a version is taken, these are the requests of the whole messages of any bytes, by the grammar of chunks.
pub fn places_follow_bytes<E: Engine, G: Gate>()
    ensures follows { (ledger : List EntryView) (gate : G) (events : List Event)
        (conn : ℕ) (s : Live)
        → find conn (after_events E.answer G.welcomes events (empty ledger gate)).sessions ≡ Some s
        → Follows (bytes_taken E.answer G.welcomes conn events (empty ledger gate))
        (requests_answered E.answer G.welcomes conn events (empty ledger gate)) s }
    ensures asks { (bytes : List ℕ) (answered : List RequestView) (s : Live)
        → Follows bytes answered s → Asks bytes answered s }
{}

/// Over every list of calls, the bytes taken out of a session and then those that wait to go are the text of what it said.
/// It says the answer to an offer, the row or the summary of a step, and a no-op.
pub fn says_by_steps<E: Engine, G: Gate>()
    ensures { (ledger : List EntryView) (gate : G) (events : List Event) (conn : ℕ) (s : Live)
        → find conn (after_events E.answer G.welcomes events (empty ledger gate)).sessions ≡ Some s
        → IsSpoken (bytes_out E.answer G.welcomes conn events (empty ledger gate))
        (sayings E.answer G.welcomes conn events (empty ledger gate)) s }
{}
