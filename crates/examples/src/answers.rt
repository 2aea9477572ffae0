//! A caller of a server.
ghost use Rattle.std.specs.Prelude.{IfOk, IfErr};
ghost use Rattle.server.specs.Serving.{RefusesCall};
ghost use Rattle.server.specs.Views.{rest_of};
ghost use Rattle.examples.specs.Answers.{Answers};

use bytes::Bytes;
use engine::{Engine, Gate};
use server::{Refused, Server};

/// Feeds a piece to a session, does one step of it, and returns the next bytes to send, at most `max`.
pub fn answer<E: Engine, G: Gate>(
    server: &mut Server<E, G>,
    conn: u64,
    piece: &[u8],
    max: usize,
) -> Result<Bytes, Refused>
    ensures answers { IfOk result (λ bytes. Answers E.answer G.welcomes conn piece.now max
        (rest_of E.entries server.old) bytes (rest_of E.entries server.new)) }
    ensures fault { IfErr result RefusesCall }
{
    server.feed(conn, piece)?;
    server.work(conn)?;
    server.take_out(conn, max)
}
