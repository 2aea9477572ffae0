//! The loop of a server with many connections.
ghost use Rattle.std.specs.Prelude.{◌≡◌, ℕ, []};
ghost use Rattle.server.specs.Views.{rest_of};
ghost use Rattle.server_event_loop.specs.Running.{Runs};

use crate::host::Host;
use crate::journal::Journal;
use crate::{Limits, Peers};
use engine::{Engine, Gate};
use server::Server;
use std::alloc::Global;

/// Why no connection is served any more.
#[derive(Clone, Copy)]
pub enum Stopped {
    /// There was no memory to begin.
    Memory,
    /// What waits for all of them has failed.
    Failed,
}

/// Serves whoever comes, many at once, by a server of which no session lives, until the wait for something to be ready fails. Of each session
/// that is given up the journal is told.
pub fn serve<E: Engine, G: Gate, P: Peers, J: Journal>(
    alloc: Global,
    server: &mut Server<E, G>,
    peers: &mut P,
    journal: &mut J,
    limits: &Limits,
) -> Stopped
    requires { (rest_of E.entries server.old).sessions ≡ [] }
    ensures { Runs E.answer G.welcomes (rest_of E.entries server.old) (rest_of E.entries server.new)
        (P.wire peers.old) (P.wire peers.new) (J.told journal.old) (J.told journal.new) }
{
    let Ok(mut host) = Host::new(alloc) else {
        return Stopped::Memory;
    };
    for made in 0..u64::MAX {
        if !wait(&host, server, peers, limits) {
            return Stopped::Failed;
        }
        host.hear(peers);
        let now = peers.now();
        host.round(server, peers, journal, limits, now);
    }
    Stopped::Failed
}

/// Waits until something is ready, or there is something to be done without it; whether that could be waited for. No byte moves.
fn wait<E: Engine, G: Gate, P: Peers>(
    host: &Host,
    server: &Server<E, G>,
    peers: &mut P,
    limits: &Limits,
) -> bool
    ensures { (k : ℕ) → P.wire peers.new k ≡ P.wire peers.old k }
{
    let now = peers.now();
    let most = host.pause(server, limits, now);
    peers.wait(most).is_ok()
}
