//! What the program does over sockets.
ghost use Rattle.std.specs.Prelude.{◌≡◌, true, None, string_bytes, IfOk, IfErr, OnOk, IsErrOf};
ghost use Rattle.std.specs.Io.KnownBytes.{Appends};
ghost use Rattle.cli_scripts.specs.Rows.{request_line_of};
ghost use Rattle.cli_scripts.specs.Script.{filled_lines, unreadable};
ghost use Rattle.bolt.specs.Served.{IsAtFirst, HasServedAll, listening_line};

use crate::reasons::{put_connected, put_failed, put_lost, put_unreached, put_unread};
use cli_output::put_fault;
use cli_sessions::{
    BothWays, OneWay, ServerStreams, ShellStreams, drain, run_loop, serve_next, shell,
};
use engine::{FixedTable, OneUser};
use server::Server;
use std::alloc::{AllocError, Global};
use std::io::{Read, Write};
use std::net::{Shutdown, TcpListener, TcpStream};
use std::time::Duration;
use std::{fs, io};
use streams::{Over, Sink, Source, StreamFault, write_all};

/// The address of this machine for itself.
const HERE: &str = "127.0.0.1";

/// How many seconds `serve` and `shell` wait for a peer that says nothing, or takes nothing of what it is sent. Then the connection is lost.
pub(crate) const SILENCE: u64 = 60;

/// How many seconds each read waits for what a peer still sends after the end.
const LAST_WAIT: u64 = 1;

/// How many connections behind one another are passed over that fail as they are accepted. Behind these none comes, as where no descriptor is free.
const MOST_GONE: u32 = 64;

/// A client at a shell, with the server at this port of the host: `fault I1` if it can't be reached, and on the next line why. Where it
/// can, that is said on standard error. A stream that fails then is told with the system's reason too, a server that says nothing for too
/// long with that.
pub(crate) fn shell_at(rt: &HostRuntime, host: &str, port: u16) -> u8 {
    let mut err = Over::new(rt.stderr());
    let stream = match TcpStream::connect(rt, (host, port)) {
        Ok(stream) => stream,
        Err(error) => return put_unreached(rt.alloc(), host, port, &error, &mut err),
    };
    put_connected(rt.alloc(), host, port, &mut err);
    send_at_once(&stream);
    wait_at_most(&stream, SILENCE);
    talk(rt.alloc(), &stream, rt.stdin(), rt.stdout(), err)
}

/// A client at a shell, over a connection.
fn talk<I: Read + Drop, O: Write + Drop, E: Sink + Drop>(
    alloc: Global,
    stream: &TcpStream,
    input: I,
    out: O,
    err: E,
) -> u8 {
    let mut input = Over::new(input);
    let mut streams = ShellStreams {
        source: Over::new(stream),
        sink: Over::new(stream),
        out: Over::new(out),
        err,
    };
    let status = shell(alloc, &mut input, &mut streams);
    let ShellStreams {
        source,
        sink,
        out,
        mut err,
    } = streams;
    put_failed(alloc, "standard input", &input, &mut err);
    put_lost(alloc, "said nothing", &source, &mut err);
    put_lost(alloc, "took nothing", &sink, &mut err);
    put_failed(alloc, "standard output", &out, &mut err);
    status
}

/// Serves so many connections at this port, one after the other: prints `listening PORT`, and then `conn K En` as each ends. A port that
/// can't be had is `fault I1`.
pub(crate) fn serve_on(rt: &HostRuntime, port: u16, count: u32) -> u8 {
    let mut out = Over::new(rt.stdout());
    let mut err = Over::new(rt.stderr());
    let listener = match TcpListener::bind(rt, (HERE, port)) {
        Ok(listener) => listener,
        Err(error) => return put_unreached(rt.alloc(), HERE, port, &error, &mut err),
    };
    match serve_count(rt.alloc(), &listener, port, count, &mut out) {
        Ok(()) => 0,
        Err(fault) => put_fault(fault, &mut err),
    }
}

/// The next connection, past those that fail before they begin; or I1, where too many do.
fn accept(listener: &TcpListener) -> Result<TcpStream, StreamFault>
    ensures { IfErr result (λ e. e ≡ StreamFault.ReadFailed) }
{
    for _ in 0..=MOST_GONE {
        if let Ok((stream, _)) = listener.accept() {
            return Ok(stream);
        }
    }
    Err(StreamFault::ReadFailed)
}

/// Serves so many connections of a listener: I1 if it gives none, I2 if standard output fails.
fn serve_count<O: Sink>(
    alloc: Global,
    listener: &TcpListener,
    port: u16,
    count: u32,
    out: &mut O,
) -> Result<(), StreamFault>
    // The port, and then the end of each connection, in the order of their numbers from 0 on.
    ensures told { OnOk result (HasServedAll (O.taken out.old) (O.taken out.new) port count) }
    ensures written { IsErrOf result StreamFault.WriteFailed → O.has_failed out.new ≡ true }
{
    let mut server = server_of(alloc)?;
    put_listening(alloc, port, out)?;
    for _ in 0..count {
        let stream = accept(listener)?;
        send_at_once(&stream);
        wait_at_most(&stream, SILENCE);
        let mut streams = ServerStreams {
            source: Over::new(&stream),
            sink: Over::new(&stream),
        };
        serve_next(alloc, &mut server, &mut streams, out)?;
        close(&stream, &mut streams);
    }
    Ok(())
}

/// A server with the one user of the program, over an empty table.
fn server_of(alloc: Global) -> Result<Server<FixedTable, OneUser>, StreamFault>
    ensures new { IfOk result (λ s. IsAtFirst s) }
    ensures memory { IfErr result (λ e. e ≡ StreamFault.Memory) }
{
    let Ok(gate) = OneUser::new(alloc, "user", "pass") else {
        return Err(StreamFault::Memory);
    };
    let server = Server::new(alloc, FixedTable::new(alloc), gate);
    Ok(server)
}

fn put_listening<O: Sink>(alloc: Global, port: u16, out: &mut O) -> Result<(), StreamFault>
    ensures told { OnOk result (Appends (O.taken out.old) (O.taken out.new) (listening_line port)) }
    ensures written { IsErrOf result StreamFault.WriteFailed → O.has_failed out.new ≡ true }
{
    let Ok(text) = listening_text(alloc, port) else {
        return Err(StreamFault::Memory);
    };
    put(text.as_bytes(), out)
}

/// Writes a text.
fn put<O: Sink>(text: &[u8], out: &mut O) -> Result<(), StreamFault>
    ensures text { OnOk result (Appends (O.taken out.old) (O.taken out.new) text.now) }
    ensures written { IsErrOf result StreamFault.WriteFailed → O.has_failed out.new ≡ true }
{
    match write_all(out, text) {
        Ok(()) => Ok(()),
        Err(_) => Err(StreamFault::WriteFailed),
    }
}

fn listening_text(alloc: Global, port: u16) -> Result<String, AllocError>
    ensures { IfOk result (λ t. string_bytes t ≡ listening_line port) }
{
    let text = format!(in alloc; "listening {port}\n")?;
    Ok(text)
}

/// Runs the request lines of a file with both ends in this process, over a connection to this machine itself. A file that can't be read,
/// and a connection that can't be had, is `fault I1`.
pub(crate) fn loop_through(rt: &HostRuntime, file: &str) -> u8 {
    let out = Over::new(rt.stdout());
    let mut err = Over::new(rt.stderr());
    let script = match fs::read(rt, file) {
        Ok(script) => script,
        Err(error) => return put_unread(rt.alloc(), file, &error, &mut err),
    };
    loop_lines(rt, script.as_slice(), out, &mut err)
}

/// Runs request lines with both ends in this process.
fn loop_lines<O: Sink + Drop, E: Sink>(rt: &HostRuntime, script: &[u8], out: O, err: &mut E) -> u8
    // 0 is only for lines that can all be read.
    ensures readable { result ≡ 0 → unreadable request_line_of (filled_lines script.now) ≡ None }
{
    let alloc = rt.alloc();
    let (near, far) = match connected(rt) {
        Ok(ends) => ends,
        Err(error) => return put_unreached(alloc, HERE, 0, &error, err),
    };
    let mut server = match server_of(alloc) {
        Ok(server) => server,
        Err(fault) => return put_fault(fault, err),
    };
    let mut ways = BothWays {
        up: OneWay {
            sink: Over::new(&near),
            source: Over::new(&far),
        },
        down: OneWay {
            sink: Over::new(&far),
            source: Over::new(&near),
        },
        out,
    };
    run_loop(alloc, &mut server, script, &mut ways, err)
}

/// The two ends of a connection of this machine with itself.
fn connected(rt: &HostRuntime) -> io::Result<(TcpStream, TcpStream)> {
    let listener = TcpListener::bind(rt, (HERE, 0))?;
    let address = listener.local_addr()?;
    let near = TcpStream::connect(rt, address)?;
    let (far, _) = listener.accept()?;
    send_at_once(&near);
    send_at_once(&far);
    Ok((near, far))
}

/// Has the stream send each write at once, and not wait for the acknowledgement of the one before (TCP_NODELAY). One that can't is slower, and
/// no worse.
fn send_at_once(stream: &TcpStream) {
    let _set = stream.set_nodelay(true);
}

/// Has each read and write of the stream fail that waits for more than so many seconds. One that can't waits for as long as its peer likes.
fn wait_at_most(stream: &TcpStream, seconds: u64) {
    let wait = Some(Duration::from_secs(seconds));
    let _read = stream.set_read_timeout(wait);
    let _written = stream.set_write_timeout(wait);
}

/// Lets what was written arrive before the stream is closed: stops writing, and takes what the peer still sends, unless reading has failed.
fn close<I: Source, O: Sink>(stream: &TcpStream, streams: &mut ServerStreams<I, O>) {
    let _stopped = stream.shutdown(Shutdown::Write);
    wait_at_most(stream, LAST_WAIT);
    drain(streams);
}
