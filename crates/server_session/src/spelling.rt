//! The spellings of responses.
ghost use Rattle.std.specs.Prelude.{◌≡◌, ◌≤◌, [], length, drop, true, false, OnOk, OnErr, IfErr};
ghost use Rattle.packstream.specs.Writing.{whole};
ghost use Rattle.messages.specs.View.{response_view};
ghost use Rattle.wire.specs.Texts.{written_run};
ghost use Rattle.messages.specs.Summaries.{response_of_summary};
ghost use Rattle.server_session.specs.Said.{fits};
ghost use Rattle.server_session.specs.Acts.{IsBody, IsRun, Refuses, summary_of, is_ready, unwritten_of};

use crate::fault::Fault;
use crate::summary::Summary;
use bytes::BytesMut;
use messages::{MsgFault, Response, close_run, put_run, write_response};
use std::alloc::AllocError;
use structures_encoder::Output;
use wire::Version;

/// Why a response wasn't written.
#[derive(Clone, Copy)]
pub(crate) enum Unwritten {
    Memory,
    /// It can't be, and this is answered.
    Because(Fault),
}

/// Spells a response in place of what the body held, or tells why it wasn't written.
pub(crate) fn spell_response(
    version: Version,
    response: &Response,
    body: &mut BytesMut,
) -> Result<(), Unwritten>
    ensures ok { OnOk result
        (IsBody version (response_view response.now) body.new.items
        × (fits version (response_view response.now) ≡ true)) }
    ensures err { IfErr result (Refuses version (response_view response.now)) }
{
    body.clear();
    match write_response(version, response, body) {
        Ok(()) => Ok(()),
        Err(fault) => Err(why_unwritten(fault)),
    }
}

fn why_unwritten(fault: MsgFault) -> Unwritten
    ensures { result ≡ unwritten_of fault }
{
    match fault {
        MsgFault::Memory => Unwritten::Memory,
        MsgFault::Size => Unwritten::Because(Fault::RowTooLarge),
        _ => Unwritten::Because(Fault::NotInVersion),
    }
}

/// Puts the run of a summary, which always fits; or nothing, for want of memory.
pub(crate) fn put_summary(
    version: Version,
    summary: Summary<'_>,
    out: &mut Output,
) -> Result<(), AllocError>
    ensures before { out.new.before ≡ whole out.old }
    ensures ok { OnOk result
        (IsRun version (response_of_summary (summary_of summary.entry)) out.new.more) }
    ensures err { OnErr result (whole out.new ≡ whole out.old) }
{
    out.set_mark();
    match summary.ready() {
        Some(bytes) => out.extend_from_slice(bytes),
        None => put_made(version, summary, out),
    }
}

/// Puts the run of a summary that tells a name, a number or a failure.
fn put_made(version: Version, summary: Summary<'_>, out: &mut Output) -> Result<(), AllocError>
    requires empty { out.old.more ≡ [] }
    requires made { is_ready summary ≡ false }
    ensures before { out.new.before ≡ out.old.before }
    ensures ok { OnOk result
        (IsRun version (response_of_summary (summary_of summary.entry)) out.new.more) }
    ensures err { OnErr result (out.new.more ≡ []) }
{
    match summary.put(out) {
        Ok(()) => closed(out),
        Err(AllocError) => {
            out.take_back();
            Err(AllocError)
        }
    }
}

/// Makes the run of a text that is no longer than a chunk.
fn closed(out: &mut Output) -> Result<(), AllocError>
    requires { 2 ≤ length out.old.more }
    ensures before { out.new.before ≡ out.old.before }
    ensures ok { OnOk result (out.new.more ≡ written_run (drop 2 out.old.more)) }
    ensures err { OnErr result (out.new.more ≡ []) }
{
    if !close_run(out) {
        return Err(AllocError);
    }
    Ok(())
}

/// Puts the run of a response by way of its text, which takes the place of what the body held; or nothing, and why.
pub(crate) fn put_response(
    version: Version,
    response: &Response,
    body: &mut BytesMut,
    out: &mut Output,
) -> Result<(), Unwritten>
    ensures before { out.new.before ≡ whole out.old }
    ensures ok { let said = response_view response.now in
        OnOk result (IsRun version said out.new.more × (fits version said ≡ true)) }
    ensures err { IfErr result (Refuses version (response_view response.now)) }
    ensures kept { OnErr result (whole out.new ≡ whole out.old) }
{
    out.set_mark();
    spell_response(version, response, body)?;
    match put_run(body, out) {
        Ok(()) => Ok(()),
        Err(AllocError) => Err(Unwritten::Memory),
    }
}
