//! What each event does at its connection.
ghost use Rattle.std.specs.Prelude.{◌≡◌, ◌<◌, ◌++◌, map, vec_len, vec_capacity};
ghost use Rattle.world.specs.Views.{event_of, wrote_of};
ghost use Rattle.world.specs.Reports.{wrote_by};
ghost use Rattle.world.specs.Seeing.{IsOpens};
ghost use Rattle.world.specs.Turns.{Turns};
ghost use Rattle.world.specs.World.{Work, PutsNoop};

use crate::inflow::{foreign, to_client, to_server};
use crate::kinds::{Event, Refused, Seen};
use crate::link::{Link, Wrote};
use crate::session_loss::lose_server;
use crate::submission::{lose_client, submit};
use engine::{Engine, Gate};
use machine::phase;
use server::{Server, Worked};

/// Of an event that isn't an opening.
pub(crate) fn turn<E: Engine, G: Gate>(
    link: &mut Link,
    server: &mut Server<E, G>,
    event: Event,
) -> Result<Seen, Refused>
    requires { IsOpens (event_of event) → ⊥ }
    ensures { Turns E.entries E.answer G.welcomes (event_of event) link.old server.old result
        link.new server.new }
{
    match event {
        Event::Open(_) => unreachable!(),
        Event::Submit(_, request) => submit(link, request),
        Event::ToServer(conn, max) => to_server(link, server, conn, max),
        Event::ToClient(conn, max) => to_client(link, server, conn, max),
        Event::Work(conn) => work(link, server, conn),
        Event::Noop(conn) => noop(link, server, conn),
        Event::Cut(_) => {
            link.is_cut = true;
            Ok(Seen::Nothing)
        }
        Event::ClientLost(_) => lose_client(link),
        Event::ServerLost(conn) => lose_server(link, server, conn),
        Event::Foreign(conn, bytes) => foreign(link, server, conn, &bytes),
    }
}

/// A step of the session, and its summary in the report.
fn work<E: Engine, G: Gate>(
    link: &mut Link,
    server: &mut Server<E, G>,
    conn: u64,
) -> Result<Seen, Refused>
    ensures { Turns E.entries E.answer G.welcomes (Work conn) link.old server.old result link.new
        server.new }
{
    if let Some(cause) = link.gone {
        return Ok(Seen::Worked(Worked::Ended(cause)));
    }
    if link.wrote.reserve(1).is_err() {
        return Err(Refused::Memory);
    }
    let Ok(worked) = server.work(conn) else {
        return Err(Refused::Memory);
    };
    note_work(&mut link.wrote, worked);
    Ok(Seen::Worked(worked))
}

/// A summary that was written goes into the report.
fn note_work(wrote: &mut Vec<Wrote>, worked: Worked)
    requires { vec_len wrote.old < vec_capacity wrote.old }
    ensures { map wrote_of wrote.new.items ≡ map wrote_of wrote.old.items ++ wrote_by worked }
{
    if let Worked::Wrote { ordinal, state, .. } = worked {
        wrote.push_reserved(Wrote {
            ordinal,
            phase: phase(state),
        });
    }
}

/// A no-op of the session.
fn noop<E: Engine, G: Gate>(
    link: &mut Link,
    server: &mut Server<E, G>,
    conn: u64,
) -> Result<Seen, Refused>
    ensures { Turns E.entries E.answer G.welcomes (PutsNoop conn) link.old server.old result link.new
        server.new }
{
    if let Some(_) = link.gone {
        return Ok(Seen::Noop(false));
    }
    let Ok(put) = server.noop(conn) else {
        return Err(Refused::Memory);
    };
    Ok(Seen::Noop(put))
}
