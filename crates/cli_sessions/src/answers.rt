//! A client asks its server for the answers that it waits for, and prints them as they come.
ghost use Rattle.std.specs.Prelude.{◌≡◌, ◌<◌, ◌++◌, ◌∷◌, [], List, None, true, map, IfOk, IsErrOf};
ghost use Rattle.std.specs.Io.KnownBytes.{Appends};
ghost use Rattle.std.specs.Result.{result_err};
ghost use Rattle.client.specs.Fits.{Fits, rest_of};
ghost use Rattle.client.specs.Notes.{note};
ghost use Rattle.client.specs.Rest.{Note, Rest, awaits};
ghost use Rattle.wire.specs.declared.Version.{Version};
ghost use Rattle.client_blocking.specs.Asking.{given_up};
ghost use Rattle.streams.specs.Reading.{LetsRead};
ghost use Rattle.cli_output.specs.Stopping.{Gets};
ghost use Rattle.cli_sessions.specs.ShellStreams.{Streams};
ghost use Rattle.cli_sessions.specs.Talking.{FailsToPut, IsAt, Place, ending, parting};
ghost use Rattle.cli_sessions.specs.Printing.{version_after, versions_after};
ghost use Rattle.cli_sessions.specs.Shelling.{Asks, Converses, Hears, HearsMore, LetsAsk, PutsNotes, Sinks, sinks_by};

use crate::caller::Caller;
use crate::errors::{put_losses, put_unprinted};
use crate::shell_streams::ShellStreams;
use cli_output::tell;
use client::Heard;
use client_blocking::{give_up, hear_piece, write_out};
use machine::Phase;
use streams::{PeerSource, Sink, StreamFault};

impl Caller {
    /// Writes what the client puts out, and hears and prints up to the last answer that it waits for. Then it is given up, unless all was
    /// answered, also after a fault; what became of the requests that waited is told, and why no answer comes.
    pub(crate) fn ask<S: PeerSource, T: Sink, O: Sink, E: Sink>(
        &mut self,
        streams: &mut ShellStreams<S, T, O, E>,
    ) -> Result<(), StreamFault>
        requires { LetsAsk S.may_read S.left streams.old.at self.old }
        ensures asks { (p : Place) → IsAt self.old p
            → Asks (result_err result) p streams.old.at streams.new.at self.new }
        ensures read { IsErrOf result StreamFault.ReadFailed → streams.new.at.read_failed ≡ true }
        ensures written { IsErrOf result StreamFault.WriteFailed → FailsToPut streams.new.at }
    {
        let asked = self.converse(streams);
        self.part(asked.err(), &mut streams.err);
        asked
    }

    /// As `ask`, but the client isn't given up at the end: hears and prints, a piece at a time, as long as an answer is still to come, to the
    /// end of the input.
    fn converse<S: PeerSource, T: Sink, O: Sink, E: Sink>(
        &mut self,
        streams: &mut ShellStreams<S, T, O, E>,
    ) -> Result<(), StreamFault>
        requires { LetsAsk S.may_read S.left streams.old.at self.old }
        ensures converses { (p : Place) → IsAt self.old p
            → Converses (result_err result) p streams.old.at streams.new.at self.new }
        ensures read { IsErrOf result StreamFault.ReadFailed → streams.new.at.read_failed ≡ true }
        ensures written { IsErrOf result StreamFault.WriteFailed → FailsToPut streams.new.at }
    {
        match write_out(&mut self.client, &mut streams.sink) {
            Ok(()) => {}
            Err(fault) => return Err(fault),
        }
        while self.client.awaits() {
            match self.hear_some(streams) {
                Ok(true) => {}
                Ok(false) => return Ok(()),
                Err(fault) => return Err(fault),
            }
        }
        Ok(())
    }

    /// Gives the client up, unless all was answered, and tells what became of the requests that waited for an answer. A GOODBYE has none. Then it
    /// tells why no answer comes, unless a fault says so.
    fn part<E: Sink>(&mut self, fault: Option<StreamFault>, err: &mut E)
        ensures gives_up { (r : Rest) → Fits self.old.client r → Fits self.new.client (given_up r) }
        ensures tells { (r : Rest) → Fits self.old.client r
            → Gets (E.has_failed err.old) (E.has_failed err.new) (E.taken err.old) (E.taken err.new)
            (parting fault r.knows) }
        ensures version { self.new.version ≡ self.old.version }
    {
        let settled = !self.client.awaits() && !self.client.has_ended();
        let ending = self.ending();
        let losses = give_up(&mut self.client);
        if !settled {
            put_losses(losses.as_slice(), err);
        }
        if fault.is_none() {
            tell(ending, err);
        }
    }

    /// Why no answer comes any more, if no stream has failed: the input has ended while one is awaited, or the client has ended by an answer
    /// that takes no version or can't be. Nothing if all was answered, or a summary has ended it.
    fn ending(&self) -> &'static [u8]
        ensures { (r : Rest) → Fits self.now.client r → result.now ≡ ending r.knows }
    {
        if self.client.awaits() {
            return b"the server is gone\n";
        }
        if !self.client.has_ended() {
            return b"";
        }
        if self.client.version().is_none() {
            return b"the server took no version\n";
        }
        if self.client.phase() == Phase::Defunct {
            return b"";
        }
        b"the server's answer can't be: C6\n"
    }

    /// Hears a piece and prints what it tells; whether there was one.
    fn hear_some<S: PeerSource, T: Sink, O: Sink, E: Sink>(
        &mut self,
        streams: &mut ShellStreams<S, T, O, E>,
    ) -> Result<bool, StreamFault>
        requires turn { LetsRead S.may_read (λ s taken.
            Appends streams.old.at.written taken [] × (S.left s ≡ streams.old.at.left)) }
        requires waits { awaits (rest_of self.old.client).knows ≡ true }
        ensures hears { (p : Place) (start : Streams) → Hears None p start streams.old.at self.old
            → HearsMore p start streams.new.at self.new result }
        ensures read { IsErrOf result StreamFault.ReadFailed → streams.new.at.read_failed ≡ true }
        ensures written { IsErrOf result StreamFault.WriteFailed → FailsToPut streams.new.at }
        ensures lowers { IfOk result
            (λ some. some ≡ true → streams.new.at.reads < streams.old.at.reads) }
    {
        let mut heard = Vec::new(self.alloc);
        let done = hear_piece(
            &mut self.client,
            &mut streams.source,
            &streams.sink,
            &mut heard,
        );
        // What was heard before a fault is printed too.
        self.put_all(heard, &mut streams.out, &mut streams.err)
            .and(done)
    }

    /// Prints all that was heard. From a fault on each summary that isn't printed is told on standard error.
    fn put_all<O: Sink, E: Sink>(
        &mut self,
        heard: Vec<Heard>,
        out: &mut O,
        err: &mut E,
    ) -> Result<(), StreamFault>
        ensures puts { PutsNotes self.old.version (map note heard.items) (result_err result)
            (sinks_by O.taken O.has_failed E.taken E.has_failed out.old err.old)
            (sinks_by O.taken O.has_failed E.taken E.has_failed out.new err.new) }
        ensures version { self.new.version ≡ versions_after self.old.version (map note heard.items) }
        ensures client { self.new.client ≡ self.old.client }
        ensures read { IsErrOf result StreamFault.ReadFailed → ⊥ }
        ensures written { IsErrOf result StreamFault.WriteFailed → O.has_failed out.new ≡ true }
    {
        let mut done = Ok(());
        for one in heard {
            done = self.put_next(done, one, out, err);
        }
        done
    }

    /// Prints one more, or tells it after a fault.
    fn put_next<O: Sink, E: Sink>(
        &mut self,
        done: Result<(), StreamFault>,
        one: Heard,
        out: &mut O,
        err: &mut E,
    ) -> Result<(), StreamFault>
        ensures puts { (v : Version) (notes : List Note) (was : Sinks)
            → self.old.version ≡ versions_after v notes
            → PutsNotes v notes (result_err done) was
            (sinks_by O.taken O.has_failed E.taken E.has_failed out.old err.old)
            → PutsNotes v (notes ++ note one ∷ []) (result_err result) was
            (sinks_by O.taken O.has_failed E.taken E.has_failed out.new err.new) }
        ensures version { self.new.version ≡ version_after self.old.version (note one) }
        ensures client { self.new.client ≡ self.old.client }
        ensures read { (IsErrOf done StreamFault.ReadFailed → ⊥)
            → IsErrOf result StreamFault.ReadFailed → ⊥ }
        ensures written { (IsErrOf done StreamFault.WriteFailed → O.has_failed out.old ≡ true)
            → IsErrOf result StreamFault.WriteFailed → O.has_failed out.new ≡ true }
    {
        self.keep_version(&one);
        match done {
            Ok(()) => self.put_explained(one, out, err),
            Err(fault) => {
                put_unprinted(&one, err);
                Err(fault)
            }
        }
    }
}
