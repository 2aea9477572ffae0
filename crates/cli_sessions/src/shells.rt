//! A client at a shell: request lines go in, and what a server answers comes out.
ghost use Rattle.std.specs.Prelude.{◌≡◌, ◌++◌, ◌⊎◌, [], List, ℕ, true, IfOk, IfErr, IsErrOf};
ghost use Rattle.std.specs.Result.{result_err};
ghost use Rattle.cli_scripts.specs.Views.{Text};
ghost use Rattle.streams.specs.Failing.{StaysSound};
ghost use Rattle.streams.specs.Reading.{LetsRead};
ghost use Rattle.cli_sessions.specs.Talking.{FailsToPut, IsAt, IsServersTurn, first_place};
ghost use Rattle.cli_sessions.specs.Accounting.{Accounts};
ghost use Rattle.cli_sessions.specs.Shelling.{DoesMore, IsSound, IsTurnWithin, Progress, Reaches, Runs, Shells, Takes, TakesByte, if_filled};
ghost use Rattle.cli_sessions.specs.ShellStreams.{Streams};

use crate::caller::Caller;
use crate::errors::greet;
use crate::shell_streams::ShellStreams;
use cli_output::{StopReason, put_stop};
use cli_scripts::{LineFault, read_request};
use std::alloc::Global;
use streams::{MAX_PIECE, PeerSource, Sink, Source, StreamFault};

/// A client, and the line that is begun.
#[derive(Drop)]
struct Conversation {
    caller: Caller,
    begun: Vec<u8>,
    /// The number of the line that is begun, from 1.
    number: usize,
    alloc: Global,
}

impl Conversation {
    fn new(alloc: Global) -> Result<Conversation, StreamFault>
        ensures new { IfOk result
            (λ c. IsAt c.caller first_place × (c.begun.items ≡ []) × (c.number ≡ 1)) }
        ensures memory { IfErr result (λ e. e ≡ StreamFault.Memory) }
    {
        Ok(Conversation {
            caller: Caller::new(alloc)?,
            begun: Vec::new(alloc),
            number: 1,
            alloc,
        })
    }

    /// Takes a piece of the input: each line that ends in it is sent.
    fn take<S: PeerSource, T: Sink, O: Sink, E: Sink>(
        &mut self,
        piece: &[u8],
        streams: &mut ShellStreams<S, T, O, E>,
    ) -> Result<(), StopReason>
        requires { LetsRead S.may_read (λ s. IsTurnWithin streams.old.at self.old (S.left s)) }
        ensures takes { (start : Streams) (script : List ℕ)
            → Progress start streams.old.at script self.old
            → Takes start streams.new.at script piece.now self.new result }
        ensures read { IsErrOf result (StopReason.Broken StreamFault.ReadFailed)
            → streams.new.at.read_failed ≡ true }
        ensures written { IsErrOf result (StopReason.Broken StreamFault.WriteFailed)
            → FailsToPut streams.new.at }
    {
        for byte in piece {
            match self.take_byte(*byte, streams) {
                Ok(()) => {}
                Err(stop) => return Err(stop),
            }
        }
        Ok(())
    }

    /// Takes a byte of the input: a newline ends the line that was begun, which is sent; any other is one more of it.
    fn take_byte<S: PeerSource, T: Sink, O: Sink, E: Sink>(
        &mut self,
        byte: u8,
        streams: &mut ShellStreams<S, T, O, E>,
    ) -> Result<(), StopReason>
        requires { LetsRead S.may_read (λ s. IsTurnWithin streams.old.at self.old (S.left s)) }
        ensures takes { (start : Streams) (script : List ℕ)
            → Progress start streams.old.at script self.old
            → TakesByte start streams.new.at script byte self.new result }
        ensures read { IsErrOf result (StopReason.Broken StreamFault.ReadFailed)
            → streams.new.at.read_failed ≡ true }
        ensures written { IsErrOf result (StopReason.Broken StreamFault.WriteFailed)
            → FailsToPut streams.new.at }
    {
        if byte != b'\n' {
            return match self.begun.push(byte) {
                Ok(()) => Ok(()),
                Err(_) => Err(StopReason::Broken(StreamFault::Memory)),
            };
        }
        match self.send(streams) {
            Ok(()) => {}
            Err(stop) => return Err(stop),
        }
        let Some(next) = self.number.checked_add(1) else {
            return Err(StopReason::Broken(StreamFault::Memory));
        };
        self.begun.clear();
        self.number = next;
        Ok(())
    }

    /// Submits the request of the line that was begun and asks for its answer, or prints why it is refused; nothing if the line is empty.
    fn send<S: PeerSource, T: Sink, O: Sink, E: Sink>(
        &mut self,
        streams: &mut ShellStreams<S, T, O, E>,
    ) -> Result<(), StopReason>
        requires { LetsRead S.may_read (λ s. IsTurnWithin streams.old.at self.old (S.left s)) }
        ensures sends { (start : Streams) (done : List (ℕ × Text))
            → Reaches start streams.old.at done self.old.caller
            → DoesMore (result_err result) start streams.new.at
            (done ++ if_filled self.old.number self.old.begun.items) self.new.caller }
        ensures begun { self.new.begun ≡ self.old.begun }
        ensures number { self.new.number ≡ self.old.number }
        ensures read { IsErrOf result (StopReason.Broken StreamFault.ReadFailed)
            → streams.new.at.read_failed ≡ true }
        ensures written { IsErrOf result (StopReason.Broken StreamFault.WriteFailed)
            → FailsToPut streams.new.at }
    {
        if self.begun.is_empty() {
            return Ok(());
        }
        let request = match read_request(self.alloc, self.begun.as_slice()) {
            Ok(request) => request,
            Err(LineFault::Unreadable) => return Err(StopReason::Unreadable(self.number)),
            Err(LineFault::Memory) => return Err(StopReason::Broken(StreamFault::Memory)),
        };
        match self.caller.submit(self.number, request, &mut streams.out) {
            Ok(true) => match self.caller.ask(streams) {
                Ok(()) => Ok(()),
                Err(fault) => Err(StopReason::Broken(fault)),
            },
            Ok(false) => Ok(()),
            Err(fault) => Err(StopReason::Broken(fault)),
        }
    }
}

/// Hears the version, and tells it with how a line looks. Then it takes the input to its end.
fn run<I: Source, S: PeerSource, T: Sink, O: Sink, E: Sink>(
    alloc: Global,
    input: &mut I,
    streams: &mut ShellStreams<S, T, O, E>,
) -> Result<(), StopReason>
    requires { LetsRead S.may_read (λ s. IsServersTurn streams.old.at (S.left s)) }
    ensures runs { Runs (result_err result) (I.left input.old) (I.left input.new)
        streams.old.at streams.new.at }
    ensures read { IsErrOf result (StopReason.Broken StreamFault.ReadFailed)
        → (I.has_failed input.new ≡ true) ⊎ (streams.new.at.read_failed ≡ true) }
    ensures written { IsErrOf result (StopReason.Broken StreamFault.WriteFailed)
        → FailsToPut streams.new.at }
    ensures input { (IsErrOf result (StopReason.Broken StreamFault.ReadFailed) → ⊥)
        → StaysSound (I.has_failed input.old) (I.has_failed input.new) }
{
    let mut conversation = match Conversation::new(alloc) {
        Ok(conversation) => conversation,
        Err(fault) => return Err(StopReason::Broken(fault)),
    };
    match conversation.caller.ask(streams) {
        Ok(()) => {}
        Err(fault) => return Err(StopReason::Broken(fault)),
    }
    greet(
        conversation.caller.client.has_ended(),
        conversation.caller.version,
        &mut streams.err,
    );
    let mut buffer = [0; MAX_PIECE];
    loop {
        let Ok(len) = input.read(&mut buffer) else {
            return Err(StopReason::Broken(StreamFault::ReadFailed));
        };
        if len == 0 {
            return conversation.send(streams);
        }
        match conversation.take(&buffer[..len], streams) {
            Ok(()) => {}
            Err(stop) => return Err(stop),
        }
    }
}

/// Opens a conversation with the server behind `streams.source` and `streams.sink`, as a client that takes the newest version, and submits the
/// requests of the input, a line each. After each it waits for all answers, and prints on `streams.out`, as they come, each `row HEX`, each
/// `heard ORDINAL OUTCOME PHASE`, and after that of a FAILURE `fault CODE MESSAGE`. A request that the client refuses is printed as
/// `line I C1`, with its number and the code. A line that can't be read ends it, with `line I unreadable` on `streams.err`, and on the next line
/// what is expected there.
///
/// On `streams.err` it says the version that was taken and how a line looks, before it reads one. Whatever ends the conversation (the server is
/// gone, a bad answer, a stream that fails, want of memory), each request that waited for an answer is told as `lost ORDINAL OUTCOME`
/// there, before the fault.
///
/// The exit status is 0; 1 for a stream that has failed (`fault I1` if it is a source, `fault I2` if it is a sink), 2 for an
/// unreadable line, 3 for want of memory (`fault I3`).
pub fn shell<I: Source, S: PeerSource, T: Sink, O: Sink, E: Sink>(
    alloc: Global,
    input: &mut I,
    streams: &mut ShellStreams<S, T, O, E>,
) -> u8
    // A server that says when it may be read has to allow it where an answer is still to come after the bytes that were read, and it was sent all
    // that is asked, for at most 4,096 bytes. No other read is made.
    requires { LetsRead S.may_read (λ s. IsServersTurn streams.old.at (S.left s)) }
    // The status says why it stops. Its lines are those of the input, up to its end or to the first that can't be read, whose number is told;
    // what was sent, read, printed and told is what the conversation over them has, each outcome at a loss with it.
    ensures shells { Shells result (I.has_failed input.new) (I.left input.old) (I.left input.new)
        streams.old.at streams.new.at }
    // Whatever ends it, each request that was sent has one line, `heard` or `lost` with its ordinal, on standard output or on standard error;
    // but for a GOODBYE to which no answer is awaited.
    ensures accounts { Accounts streams.old.at streams.new.at }
    // A stream that fails is told so, with status 1: none fails where another is answered.
    ensures sound { (result ≡ 1 → ⊥) → StaysSound (I.has_failed input.old) (I.has_failed input.new)
        × IsSound streams.old.at streams.new.at }
{
    match run(alloc, input, streams) {
        Ok(()) => 0,
        Err(stop) => put_stop(stop, &mut streams.err),
    }
}
