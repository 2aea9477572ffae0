//! A client and a server in one process, over the two ends of a connection.
ghost use Rattle.std.specs.Prelude.{◌≡◌, ◌⊎◌, ◌<◌, ◌++◌, ℕ, List, [], drop, None, IsSome, IfErr, OnOk, MatchResult};
ghost use Rattle.server.specs.Serving.{Rest, find, setting};
ghost use Rattle.server.specs.Views.{Fits};
ghost use Rattle.cli_sessions.specs.Passing.{FailsToRead, FailsToWrite, LetBothRead, LetsReadWaiting};
ghost use Rattle.cli_sessions.specs.Looping.{Comes, Goes, HasCause, HasLooped, IsOpened, Loops, Meets, Numbers, RunsNothing, TellsLine};
ghost use Rattle.cli_sessions.specs.Breaking.{Breaks, BreaksIn, EndsAt, Exchanges, RunsLines};
ghost use Rattle.cli_sessions.specs.Serving.{IsVacant};
ghost use Rattle.cli_sessions.specs.Turns.{Turns, no_turns, with_line};
ghost use Rattle.server_blocking.specs.Settling.{IsLive};
ghost use Rattle.cli_sessions.specs.Ways.{Ways};
ghost use Rattle.cli_scripts.specs.Rows.{request_line_of};
ghost use Rattle.cli_scripts.specs.Script.{filled_lines, lines_read, said_requests, unreadable};
ghost use Rattle.cli_scripts.specs.Views.{script_request_view};
ghost use Rattle.cli_output.specs.Stopping.{Ends, stop_status};

use crate::passing::{give, hand_over, next_part, pass};
use crate::ways::BothWays;
use crate::{Caller, open_session};
use cli_output::{StopReason, put_entries, put_stop};
use cli_scripts::{Numbered, ScriptFault, ScriptRequest, read_requests};
use engine::{Engine, Gate};
use server::Server;
use server_blocking::Liveness;
use std::alloc::Global;
use streams::{Buffer, PeerSource, Sink, StreamFault};

/// A client, all that its session has put out, and whether the session goes on.
#[derive(Drop)]
struct Pair {
    caller: Caller,
    said: Buffer,
    liveness: Liveness,
}

/// What was put out behind so many bytes.
#[tactic(auto, using(std::proofs::lemmas::List::drop_min))]
fn put_out_behind(said: &Buffer, count: usize) -> &[u8]
    ensures { result.now ≡ drop count said.now.bytes.items }
{
    let bytes = said.bytes();
    let (_, behind) = bytes.split_at(count.min(bytes.len()));
    behind
}

/// The client writes a piece of at most 4,096 bytes of what it has to send; the server reads just those, feeds them and works, and hands over
/// what it put out.
fn turn<E: Engine, G: Gate, A: PeerSource, B: Sink, C: PeerSource, D: Sink, O: Sink>(
    pair: &mut Pair,
    server: &mut Server<E, G>,
    conn: u64,
    piece: &[u8],
    ways: &mut BothWays<A, B, C, D, O>,
) -> Result<(), StreamFault>
    requires { IsLive E.entries conn server.old
        × LetBothRead A.left A.may_read C.left C.may_read ways.old.at }
    ensures on { OnOk result (IsLive E.entries conn server.new
        × LetBothRead A.left A.may_read C.left C.may_read ways.new.at) }
    ensures goes { (r : Rest G) (start : Ways) (t : Turns) (sent after : List ℕ)
        → IsSome (find conn r.sessions) → sent ++ (piece.now ++ after) ≡ t.place.rest.unsent
        → Meets r conn (setting E.answer G.welcomes r) start ways.old.at t sent pair.old
        (Fits E.entries server.old)
        → Goes r conn start ways.new.at (Fits E.entries server.new)
        (Meets r conn (setting E.answer G.welcomes r) start ways.new.at t (sent ++ piece.now)
        pair.new (Fits E.entries server.new))
        (BreaksIn (setting E.answer G.welcomes r) conn r.ledger start ways.new.at t) result }
{
    match pass(pair.caller.alloc, piece, &mut ways.up) {
        Ok(()) => {}
        Err(fault) => return Err(fault),
    }
    let before = pair.said.bytes().len();
    match give(server, conn, piece, &mut pair.said, &mut pair.liveness) {
        Ok(()) => {}
        Err(fault) => return Err(fault),
    }
    let answer = put_out_behind(&pair.said, before);
    hand_over(&mut pair.caller, answer, &mut ways.down, &mut ways.out)
}

/// The client writes all that it has to say, in pieces, a turn for each. If an answer is still to come then, the session has none: I3.
fn exchange<E: Engine, G: Gate, A: PeerSource, B: Sink, C: PeerSource, D: Sink, O: Sink>(
    pair: &mut Pair,
    server: &mut Server<E, G>,
    conn: u64,
    ways: &mut BothWays<A, B, C, D, O>,
) -> Result<(), StreamFault>
    requires { IsLive E.entries conn server.old
        × LetBothRead A.left A.may_read C.left C.may_read ways.old.at }
    ensures on { OnOk result (IsLive E.entries conn server.new
        × LetBothRead A.left A.may_read C.left C.may_read ways.new.at) }
    ensures goes { (r : Rest G) (start : Ways) (t : Turns) → IsSome (find conn r.sessions)
        → Comes r conn (setting E.answer G.welcomes r) start ways.old.at t pair.old
        (Fits E.entries server.old)
        → Exchanges r conn (setting E.answer G.welcomes r) start ways.new.at t pair.new
        (Fits E.entries server.new) result }
{
    let Ok(bytes) = pair.caller.client.take_out(usize::MAX) else {
        return Err(StreamFault::Memory);
    };
    let mut rest = bytes.as_slice();
    while !rest.is_empty() {
        let (piece, after) = next_part(rest);
        match turn(pair, server, conn, piece, ways) {
            Ok(()) => {}
            Err(fault) => return Err(fault),
        }
        rest = after;
    }
    if pair.caller.client.awaits() {
        return Err(StreamFault::Memory);
    }
    Ok(())
}

/// Submits a line, or prints that it is refused, and then writes what the client has to send, and hears the answers: none where it is refused.
fn run_line<E: Engine, G: Gate, A: PeerSource, B: Sink, C: PeerSource, D: Sink, O: Sink>(
    pair: &mut Pair,
    server: &mut Server<E, G>,
    conn: u64,
    line: Numbered<ScriptRequest>,
    ways: &mut BothWays<A, B, C, D, O>,
) -> Result<(), StreamFault>
    requires { IsLive E.entries conn server.old
        × LetBothRead A.left A.may_read C.left C.may_read ways.old.at }
    ensures on { OnOk result (IsLive E.entries conn server.new
        × LetBothRead A.left A.may_read C.left C.may_read ways.new.at) }
    ensures goes { (r : Rest G) (start : Ways) (t : Turns) → IsSome (find conn r.sessions)
        → Comes r conn (setting E.answer G.welcomes r) start ways.old.at t pair.old
        (Fits E.entries server.old)
        → Exchanges r conn (setting E.answer G.welcomes r) start ways.new.at
        (with_line t (line.number, script_request_view line.said)) pair.new
        (Fits E.entries server.new) result }
{
    match pair.caller.submit(line.number, line.said, &mut ways.out) {
        Ok(_) => {}
        Err(fault) => return Err(fault),
    }
    exchange(pair, server, conn, ways)
}

/// An exchange, in which the version is heard, and then one line after another.
fn run_lines<E: Engine, G: Gate, A: PeerSource, B: Sink, C: PeerSource, D: Sink, O: Sink>(
    pair: &mut Pair,
    server: &mut Server<E, G>,
    conn: u64,
    lines: Vec<Numbered<ScriptRequest>>,
    ways: &mut BothWays<A, B, C, D, O>,
) -> Result<(), StreamFault>
    requires { IsLive E.entries conn server.old
        × LetBothRead A.left A.may_read C.left C.may_read ways.old.at }
    ensures { (r : Rest G) (start : Ways) → IsSome (find conn r.sessions)
        → Comes r conn (setting E.answer G.welcomes r) start ways.old.at no_turns pair.old
        (Fits E.entries server.old)
        → RunsLines r conn (setting E.answer G.welcomes r) (said_requests lines.items) start
        ways.new.at pair.new (Fits E.entries server.new) result }
{
    match exchange(pair, server, conn, ways) {
        Ok(()) => {}
        Err(fault) => return Err(fault),
    }
    for line in lines {
        match run_line(pair, server, conn, line, ways) {
            Ok(()) => {}
            Err(fault) => return Err(fault),
        }
    }
    Ok(())
}

/// A client that has heard nothing, and a session for it, with its number.
fn open_pair<E: Engine, G: Gate>(
    alloc: Global,
    server: &mut Server<E, G>,
) -> Result<(Pair, u64), StreamFault>
    ensures opens { (r : Rest G) → Fits E.entries server.old r → r.sessions ≡ []
        → MatchResult result (λ x. IsOpened r (setting E.answer G.welcomes r) x.1 x.0 (Fits E.entries server.new))
        (λ _. Fits E.entries server.new r) }
    ensures fault { IfErr result (λ e. e ≡ StreamFault.Memory) }
{
    let caller = match Caller::new(alloc) {
        Ok(caller) => caller,
        Err(fault) => return Err(fault),
    };
    let conn = match open_session(server) {
        Ok(conn) => conn,
        Err(fault) => return Err(fault),
    };
    let pair = Pair {
        caller,
        said: Buffer::new(Vec::new(alloc)),
        liveness: Liveness::Open,
    };
    Ok((pair, conn))
}

/// Runs the lines over a server on which no session lives, and then prints its ledger.
fn run_opened<E: Engine, G: Gate, A: PeerSource, B: Sink, C: PeerSource, D: Sink, O: Sink>(
    alloc: Global,
    server: &mut Server<E, G>,
    lines: Vec<Numbered<ScriptRequest>>,
    ways: &mut BothWays<A, B, C, D, O>,
) -> Result<(), StreamFault>
    requires vacant { IsVacant E.entries server.old }
    requires near { LetsReadWaiting A.left A.may_read ways.old.at.down }
    requires far { LetsReadWaiting C.left C.may_read ways.old.at.up }
    ensures { (r : Rest G) → Fits E.entries server.old r → r.sessions ≡ []
        → HasLooped r (Fits E.entries server.new) × EndsAt r (setting E.answer G.welcomes r)
        (said_requests lines.items) (Fits E.entries server.new) ways.old.at ways.new.at result }
{
    let (mut pair, conn) = match open_pair(alloc, server) {
        Ok(opened) => opened,
        Err(fault) => return Err(fault),
    };
    match run_lines(&mut pair, server, conn, lines, ways) {
        Ok(()) => {}
        Err(fault) => return Err(fault),
    }
    put_entries(alloc, server.engine().ledger(), &mut ways.out)
}

/// Reads the whole script before anything is run.
fn run<E: Engine, G: Gate, A: PeerSource, B: Sink, C: PeerSource, D: Sink, O: Sink>(
    alloc: Global,
    server: &mut Server<E, G>,
    script: &[u8],
    ways: &mut BothWays<A, B, C, D, O>,
) -> Result<(), StopReason>
    requires vacant { IsVacant E.entries server.old }
    requires near { LetsReadWaiting A.left A.may_read ways.old.at.down }
    requires far { LetsReadWaiting C.left C.may_read ways.old.at.up }
    // Nothing is run where a line can't be read.
    ensures unreadable { IfErr result
        (λ stop. stop_status stop ≡ 2
        → RunsNothing server.old server.new ways.old ways.new) }
    ensures number { IfErr result (λ stop. Numbers script.now stop) }
    ensures readable { OnOk result (unreadable request_line_of (filled_lines script.now) ≡ None) }
    ensures loops { (r : Rest G) → Fits E.entries server.old r → r.sessions ≡ []
        → HasLooped r (Fits E.entries server.new)
        × MatchResult result (λ _. Loops r (setting E.answer G.welcomes r)
        (lines_read request_line_of (filled_lines script.now)) (Fits E.entries server.new)
        ways.old.at ways.new.at)
        (λ stop. HasCause stop ways.old.at ways.new.at
        × ((stop_status stop ≡ 2 → ⊥) → Breaks r (setting E.answer G.welcomes r)
        (lines_read request_line_of (filled_lines script.now)) ways.old.at ways.new.at)) }
{
    let lines = match read_requests(alloc, script) {
        Ok(lines) => lines,
        Err(ScriptFault::Unreadable(number)) => return Err(StopReason::Unreadable(number)),
        Err(ScriptFault::Memory) => return Err(StopReason::Broken(StreamFault::Memory)),
    };
    match run_opened(alloc, server, lines, ways) {
        Ok(()) => Ok(()),
        Err(fault) => Err(StopReason::Broken(fault)),
    }
}

/// Runs the request lines of a script through a client, which takes the newest version, and a session of the server, on which none lives,
/// over both ways of a connection. The client hears the version, and then submits one line after another. After each it writes what it has
/// to say, at most 4,096 bytes at once; the server reads just those, feeds them and works, and writes what it put out in parts of at most
/// 4,096 bytes, each read by the client before the next is written. So neither reads if nothing is known to wait.
///
/// It prints on `ways.out` each `row HEX` and `heard ORDINAL OUTCOME PHASE`, and `line I C1` for a request that the client refuses; at last
/// `entry CONN ORDINAL COUNT` for each entry of the ledger, with ` token HEX` behind it if it has a token. The exit status is 0; 1 for a
/// stream that has failed (`fault I1` for a source, also where it ends before the bytes that were written came, or gives others; `fault I2`
/// for a sink), 3 for want of memory (`fault I3`); 2 for a line that can't be read: then nothing was run, and `line I unreadable` stands on
/// `err`, and on the next line what is expected there.
pub fn run_loop<
    E: Engine,
    G: Gate,
    A: PeerSource,
    B: Sink,
    C: PeerSource,
    D: Sink,
    O: Sink,
    F: Sink,
>(
    alloc: Global,
    server: &mut Server<E, G>,
    script: &[u8],
    ways: &mut BothWays<A, B, C, D, O>,
    err: &mut F,
) -> u8
    requires vacant { IsVacant E.entries server.old }
    // A source that says when it may be read has to allow it where as many bytes wait as are asked for: the sink at the other end took them,
    // and they weren't read. No other read is made.
    requires near { LetsReadWaiting A.left A.may_read ways.old.at.down }
    requires far { LetsReadWaiting C.left C.may_read ways.old.at.up }
    // The status and the text on standard error are those of why it stops; I1 only if a source gives no more or other bytes than were
    // written, I2 only if a sink has failed.
    ensures ends { Ends result (FailsToRead ways.old.at ways.new.at) (FailsToWrite ways.new.at)
        (F.has_failed err.new) (F.taken err.old) (F.taken err.new) }
    // 0 is only for a script of which each line can be read, and 2 only for one of which one can't: nothing is run then.
    ensures readable { result ≡ 0 → unreadable request_line_of (filled_lines script.now) ≡ None }
    ensures unreadable { result ≡ 2 → RunsNothing server.old server.new ways.old ways.new }
    // At most one session is opened, and the ledger has at most grown.
    ensures grows { (r : Rest G) → Fits E.entries server.old r → r.sessions ≡ []
        → HasLooped r (Fits E.entries server.new) }
    // With 0 what is printed, what passes over the streams, and what the session and its ledger are then, are functions of the lines, the
    // engine, the gate, the ledger before and the session's number.
    ensures loops { result ≡ 0 → (r : Rest G) → Fits E.entries server.old r → r.sessions ≡ []
        → Loops r (setting E.answer G.welcomes r)
        (lines_read request_line_of (filled_lines script.now)) (Fits E.entries server.new)
        ways.old.at ways.new.at }
    // With 1 and 3 what was printed is a beginning of that, and what the client has heard by then is printed, unless the fault came while it was.
    ensures breaks { (result ≡ 1) ⊎ (result ≡ 3) → (r : Rest G) → Fits E.entries server.old r
        → r.sessions ≡ []
        → Breaks r (setting E.answer G.welcomes r)
        (lines_read request_line_of (filled_lines script.now)) ways.old.at ways.new.at }
    // With 2 the number that is told is that of the first line that can't be read.
    ensures number { result ≡ 2
        → TellsLine script.now (F.has_failed err.old) (F.has_failed err.new) (F.taken err.old)
        (F.taken err.new) }
{
    match run(alloc, server, script, ways) {
        Ok(()) => 0,
        Err(stop) => put_stop(stop, err),
    }
}
