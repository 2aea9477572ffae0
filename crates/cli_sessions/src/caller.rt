//! A client that takes its requests from the lines of a script.
ghost use Rattle.std.specs.Prelude.{◌≡◌, ◌∷◌, [], true, IfOk, IfErr, IsErrOf};
ghost use Rattle.std.specs.Result.{result_err};
ghost use Rattle.wire.specs.declared.Version.{Version};
ghost use Rattle.messages.specs.View.{response_view};
ghost use Rattle.client.specs.Notes.{note};
ghost use Rattle.client.specs.Rest.{Summary};
ghost use Rattle.streams.specs.Failing.{StaysSound, UnlessTold};
ghost use Rattle.cli_scripts.specs.Meant.{meant};
ghost use Rattle.cli_scripts.specs.Views.{script_request_view};
ghost use Rattle.cli_output.specs.Telling.{PutsLine, note_text};
ghost use Rattle.cli_sessions.specs.Printing.{version_after};
ghost use Rattle.cli_sessions.specs.Talking.{IsAt, Place, first_place};
ghost use Rattle.cli_sessions.specs.Shelling.{PutsNotes, Submits, sinks_by};

use cli_output::{
    heard_line, put, put_failure, put_heard, put_refused, put_row, refusal_code, tell,
};
use cli_scripts::ScriptRequest;
use client::{Client, Heard, Outcome};
use machine::Phase;
use messages::Response;
use std::alloc::Global;
use streams::{Sink, StreamFault};
use wire::{Version, Wish};

/// A client that takes the newest version.
#[derive(Drop)]
pub struct Caller {
    pub client: Client,
    /// The version that was taken; the newest if none was, when the client has ended.
    pub version: Version,
    /// Where the client and what is printed of it take memory.
    pub alloc: Global,
}

impl Caller {
    /// A client that has heard nothing; or I3.
    pub fn new(alloc: Global) -> Result<Caller, StreamFault>
        ensures new { IfOk result (λ c. IsAt c first_place) }
        ensures memory { IfErr result (λ e. e ≡ StreamFault.Memory) }
    {
        let Ok(client) = Client::new(alloc, Wish::Newest) else {
            return Err(StreamFault::Memory);
        };
        Ok(Caller {
            client,
            version: Version::V51,
            alloc,
        })
    }

    /// Keeps the version, if one was heard.
    pub fn keep_version(&mut self, heard: &Heard)
        ensures version { self.new.version ≡ version_after self.old.version (note heard.now) }
        ensures client { self.new.client ≡ self.old.client }
    {
        if let Heard::Version(Some(version)) = heard {
            self.version = *version;
        }
    }

    /// Prints what was heard: `row HEX`, `heard ORDINAL OUTCOME PHASE`, or nothing.
    pub fn put_heard<O: Sink>(&mut self, heard: Heard, out: &mut O) -> Result<(), StreamFault>
        ensures puts { PutsLine (note_text (version_after self.old.version (note heard)) (note heard))
            (O.taken out.old) (O.taken out.new) result }
        ensures read { IsErrOf result StreamFault.ReadFailed → ⊥ }
        ensures written { IsErrOf result StreamFault.WriteFailed → O.has_failed out.new ≡ true }
        ensures version { self.new.version ≡ version_after self.old.version (note heard) }
        ensures client { self.new.client ≡ self.old.client }
    {
        self.keep_version(&heard);
        put_heard(self.alloc, self.version, heard, out)
    }

    /// Prints what was heard, at the version that is kept, and behind the line of a FAILURE `fault CODE MESSAGE`. If the line of a summary
    /// isn't taken whole, it is told on standard error.
    pub(crate) fn put_explained<O: Sink, E: Sink>(
        &self,
        heard: Heard,
        out: &mut O,
        err: &mut E,
    ) -> Result<(), StreamFault>
        ensures puts { (v : Version) → self.now.version ≡ version_after v (note heard)
            → PutsNotes v (note heard ∷ []) (result_err result)
            (sinks_by O.taken O.has_failed E.taken E.has_failed out.old err.old)
            (sinks_by O.taken O.has_failed E.taken E.has_failed out.new err.new) }
        ensures read { IsErrOf result StreamFault.ReadFailed → ⊥ }
        ensures written { IsErrOf result StreamFault.WriteFailed → O.has_failed out.new ≡ true }
    {
        match heard {
            Heard::Nothing | Heard::Version(_) => Ok(()),
            Heard::Row(cells) => put_row(self.alloc, self.version, cells, out),
            Heard::Summary {
                ordinal,
                phase,
                outcome,
                response,
            } => put_summary(self.alloc, ordinal, phase, outcome, &response, out, err),
        }
    }

    /// Submits the request of a line, or prints why it is refused; whether it was submitted.
    pub fn submit<O: Sink>(
        &mut self,
        number: usize,
        request: ScriptRequest,
        out: &mut O,
    ) -> Result<bool, StreamFault>
        ensures submits { (p : Place) → IsAt self.old p
            → Submits p (meant p.version (script_request_view request)) number (O.taken out.old)
            (O.taken out.new) (IsAt self.new) result }
        ensures read { IsErrOf result StreamFault.ReadFailed → ⊥ }
        ensures written { IsErrOf result StreamFault.WriteFailed → O.has_failed out.new ≡ true }
        ensures sound { UnlessTold result StreamFault.WriteFailed
            (StaysSound (O.has_failed out.old) (O.has_failed out.new)) }
    {
        let Ok(request) = request.into_request(self.alloc, self.version) else {
            return Err(StreamFault::Memory);
        };
        let Err(fault) = self.client.submit(request) else {
            return Ok(true);
        };
        let Some(code) = refusal_code(&fault) else {
            return Err(StreamFault::Memory);
        };
        put_refused(self.alloc, number, code, out)?;
        Ok(false)
    }
}

/// Prints `heard ORDINAL OUTCOME PHASE`, and behind that of a FAILURE `fault CODE MESSAGE`. The first line takes no memory; if it isn't taken
/// whole it is told on standard error.
fn put_summary<O: Sink, E: Sink>(
    alloc: Global,
    ordinal: u64,
    phase: Phase,
    outcome: Outcome,
    response: &Response,
    out: &mut O,
    err: &mut E,
) -> Result<(), StreamFault>
    ensures puts { (v : Version)
        → PutsNotes v (Summary ordinal phase outcome (response_view response.now) ∷ [])
        (result_err result) (sinks_by O.taken O.has_failed E.taken E.has_failed out.old err.old)
        (sinks_by O.taken O.has_failed E.taken E.has_failed out.new err.new) }
    ensures read { IsErrOf result StreamFault.ReadFailed → ⊥ }
    ensures written { IsErrOf result StreamFault.WriteFailed → O.has_failed out.new ≡ true }
{
    let line = heard_line(ordinal, outcome, phase);
    let text = line.as_str().as_bytes();
    match put(text, out) {
        Ok(()) => put_failure(alloc, response, out),
        Err(fault) => {
            tell(text, err);
            Err(fault)
        }
    }
}
