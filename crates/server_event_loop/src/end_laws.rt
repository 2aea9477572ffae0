//! What holds of every list of calls. The function has no work of its own, and its contract is the law.
ghost use Rattle.std.specs.Prelude.{ℕ, ◌≤◌, List};
ghost use Rattle.engine.specs.Views.{EntryView};
ghost use Rattle.server.specs.Serving.{empty};
ghost use Rattle.server.specs.Running.{Event};
ghost use Rattle.server_event_loop.specs.Running.{gone_of, times_gone};

use engine::{Engine, Gate};
use server::laws::keeps_limits;

/// Over every list of calls on a server that was made empty, each session is given up once at most. So in a run no number is told twice.
pub fn given_up_once<E: Engine, G: Gate>()
    ensures { (ledger : List EntryView) (gate : G) (calls : List Event) (conn : ℕ)
        → times_gone conn (gone_of E.answer G.welcomes calls (empty ledger gate)) ≤ 1 }
{
    keeps_limits::<E, G>();
}
