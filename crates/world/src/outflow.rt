//! Bytes that are taken out of an end, to be given to the other.
ghost use Rattle.std.specs.Prelude.{◌≡◌, ◌++◌, ◌-◌, ℕ, [], length, take, OnOk, OnErr};
ghost use Rattle.client.specs.Rest.{Rest as Asking, taken_out};
ghost use Rattle.client.specs.Fits.{Fits as FitsClient};
ghost use Rattle.server.specs.Serving.{Rest as Serving};
ghost use Rattle.server.specs.Views.{Fits as FitsServer};
ghost use Rattle.world.specs.Views.{flow_of};
ghost use Rattle.world.specs.Drawing.{Draws};

use crate::flow::Flow;
use client::Client;
use engine::{Engine, Gate};
use server::{Cause, Server};
use std::alloc::AllocError;

/// Takes out of a client what is missing to so many bytes. If there is no room, the bytes that came out are held all the same.
pub(crate) fn draw_up(client: &mut Client, up: &mut Flow, max: usize) -> Result<(), AllocError>
    ensures ok { (x : Asking) → FitsClient client.old x
        → OnOk result (FitsClient client.new (taken_out x (max - length (flow_of up.old)))
        × (flow_of up.new ≡ flow_of up.old ++ take (max - length (flow_of up.old)) x.unsent)) }
    ensures err { (x : Asking) → FitsClient client.old x
        → OnErr result ((n : ℕ) × FitsClient client.new (taken_out x n)
        × (flow_of up.new ≡ flow_of up.old ++ take n x.unsent)) }
    ensures joined { OnOk result (up.new.more ≡ []) }
{
    up.join()?;
    let missing = max.saturating_sub(up.len());
    let Ok(more) = client.take_out(missing) else {
        return Err(AllocError);
    };
    up.put(more);
    up.join()
}

/// Takes out of a session what is missing to so many bytes; of one that was given up all is out.
pub(crate) fn draw_down<E: Engine, G: Gate>(
    gone: Option<Cause>,
    down: &mut Flow,
    server: &mut Server<E, G>,
    conn: u64,
    max: usize,
) -> Result<(), AllocError>
    ensures draws { (r : Serving G) → FitsServer E.entries server.old r
        → Draws gone conn (max - length (flow_of down.old)) r (flow_of down.old) result
        (flow_of down.new) (FitsServer E.entries server.new) }
    ensures joined { OnOk result (down.new.more ≡ []) }
{
    down.join()?;
    if let Some(_) = gone {
        return Ok(());
    }
    let missing = max.saturating_sub(down.len());
    let Ok(more) = server.take_out(conn, missing) else {
        return Err(AllocError);
    };
    down.put(more);
    down.join()
}
