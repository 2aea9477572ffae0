//! The loss of a session.
ghost use Rattle.std.specs.Prelude.{◌≡◌};
ghost use Rattle.server.specs.Serving.{Rest as Serving, lost_at};
ghost use Rattle.server.specs.Views.{Fits as FitsServer};
ghost use Rattle.world.specs.Turns.{Turns};
ghost use Rattle.world.specs.World.{ServerLost};

use crate::kinds::{Refused, Seen};
use crate::link::Link;
use engine::{Engine, Gate};
use server::{Cause, Server};

/// The session is given up. All that it said is taken out first, since it may still be delivered; a loss that was noticed before
/// changes nothing.
pub(crate) fn lose_server<E: Engine, G: Gate>(
    link: &mut Link,
    server: &mut Server<E, G>,
    conn: u64,
) -> Result<Seen, Refused>
    ensures { Turns E.entries E.answer G.welcomes (ServerLost conn) link.old server.old result
        link.new server.new }
{
    if let Some(_) = link.gone {
        return Ok(Seen::Nothing);
    }
    if link.down.join().is_err() {
        return Err(Refused::Memory);
    }
    let Ok(said) = server.take_out(conn, usize::MAX) else {
        return Err(Refused::Memory);
    };
    link.down.put(said);
    link.gone = give_up(server, conn);
    Ok(Seen::Nothing)
}

/// The session is the server's no more; why it has ended.
fn give_up<E: Engine, G: Gate>(server: &mut Server<E, G>, conn: u64) -> Option<Cause>
    ensures { (r : Serving G) → FitsServer E.entries server.old r
        → (result ≡ (lost_at conn r).0) × FitsServer E.entries server.new (lost_at conn r).1 }
{
    server.lost(conn)
}
