//! What holds of turns of several connections, one after the other. Each function has an empty body, and its contract is the law.
ghost use Rattle.std.specs.Prelude.{◌≡◌, ◌≢◌, ℕ, List, [], IsSome};
ghost use Rattle.server.specs.Serving.{Rest, find};
ghost use Rattle.server.specs.Running.{Event, after_events};
ghost use Rattle.server_event_loop.specs.Peers.{Wire};
ghost use Rattle.server_event_loop.specs.Moving.{Held, End, Moves};
ghost use Rattle.server_event_loop.specs.Turning.{Turns, Along};

use engine::{Engine, Gate};

/// Whatever sessions are opened, and in whatever order moves of any connections are made: they are one list of the server's calls, which it
/// stands after. Over these, what the session of each connection took is what was read of it, in order, but for what is held; what was written to it
/// is what its session gave out, in order, but for what is held. So what holds over every list of calls holds of any order of turns.
pub fn turns_are_one_run<E: Engine, G: Gate>()
    ensures reaches { (r : Rest G) (before : ℕ → Wire) (calls : List Event) (s : Rest G)
        (held : ℕ → Held) (after : ℕ → Wire)
        → Turns E.answer G.welcomes r before calls s held after
        → after_events E.answer G.welcomes calls r ≡ s }
    ensures bytes { (r : Rest G) (before : ℕ → Wire) (calls : List Event) (s : Rest G)
        (held : ℕ → Held) (after : ℕ → Wire) (conn : ℕ)
        → Turns E.answer G.welcomes r before calls s held after
        → Along E.answer G.welcomes conn calls r (held conn) (before conn) (after conn) }
{}

/// A move leaves every other session as it was, and its own lives on if it isn't given up.
pub fn moves_leave_others<E: Engine, G: Gate>()
    ensures others { (most asks : ℕ) (ends : List End) (r s : Rest G) (old new : Held)
        (before after : ℕ → Wire) (other : ℕ)
        → Moves E.answer G.welcomes most asks ends r s old new before after
        → other ≢ old.conn → find other s.sessions ≡ find other r.sessions }
    ensures lives { (most asks : ℕ) (r s : Rest G) (old new : Held) (before after : ℕ → Wire)
        → Moves E.answer G.welcomes most asks [] r s old new before after
        → IsSome (find old.conn r.sessions) → IsSome (find old.conn s.sessions) }
{}
