//! The written runs of messages, behind the mark of an output.
ghost use Rattle.std.specs.Prelude.{◌≡◌, ◌<◌, ◌≤◌, ◌∷◌, [], true, false, length, drop, OnOk, OnErr, IfErr, Err};
ghost use Rattle.messages.specs.Prelude.{whole, written_run, max_message, PutsRequest, request_view, Adds, form_of_request, spelling_of_request};

use crate::codec::write_request;
use crate::fault::{Answer, MsgFault};
use crate::request::Request;
use crate::write_requests::put_request;
use bytes::BytesMut;
use std::alloc::AllocError;
use structures_encoder::{Output, Unspelled};
use wire::{Version, put_message};

/// How many bytes the header of a chunk has.
const HEADER: usize = 2;

/// The most bytes of a chunk, whose length is two bytes.
const MAX_CHUNK: usize = u16::MAX as usize;

/// Puts the run of a message behind the mark of an output, which is set; or nothing, for want of memory.
pub fn put_run(message: &[u8], out: &mut Output) -> Result<(), AllocError>
    requires some { 0 < length message.now }
    requires fits { length message.now ≤ max_message }
    ensures before { out.new.before ≡ whole out.old }
    ensures ok { OnOk result (out.new.more ≡ written_run message.now) }
    ensures err { OnErr result (out.new.more ≡ []) }
{
    let mark = out.whole_len();
    let mut bytes = out.take();
    let put = put_message(message, &mut bytes);
    *out = Output::marked(bytes, mark);
    match put {
        Ok(()) => Ok(()),
        Err(_) => Err(AllocError),
    }
}

/// Of a place for a header and a text, which are added, makes the run of the text; or takes both back, if the text is longer than a
/// chunk, or for want of memory. It stands where it is asked for.
#[inline(always)]
pub fn close_run(out: &mut Output) -> bool
    requires { 2 ≤ length out.old.more }
    ensures before { out.new.before ≡ out.old.before }
    ensures closed { result ≡ true → out.new.more ≡ written_run (drop 2 out.old.more) }
    ensures short { result ≡ true → length out.old.more ≤ 65537 }
    ensures undone { result ≡ false → out.new.more ≡ [] }
{
    let count = out.len() - HEADER;
    if count > MAX_CHUNK || out.extend_from_slice(&[0, 0]).is_err() {
        out.take_back();
        return false;
    }
    out.write_first((count as u16).to_be_bytes());
    true
}

/// Puts the run of a request, spelled where it goes out; or says no, and puts nothing.
fn spell_run(version: Version, request: &Request, out: &mut Output) -> bool
    ensures before { out.new.before ≡ whole out.old }
    ensures put { result ≡ true → PutsRequest version (request_view request.now) out.new.more }
    ensures other { result ≡ false → out.new.more ≡ [] }
{
    out.set_mark();
    match add_request(version, request, out) {
        Ok(()) => close_run(out),
        Err(_) => {
            out.take_back();
            false
        }
    }
}

/// Adds a place for a header, and the spelling of a request.
fn add_request(version: Version, request: &Request, out: &mut Output) -> Result<(), Unspelled>
    requires { out.old.more ≡ [] }
    ensures before { out.new.before ≡ out.old.before }
    ensures adds { OnOk result (Adds (form_of_request version request.now) (0 ∷ 0 ∷ []) out.new.more) }
{
    out.extend_from_slice(&[0, 0])?;
    put_request(out, version, request)
}

/// Puts the run of what `write_request` writes of a request behind the mark of an output, which is set; or nothing, and its fault.
pub fn write_request_run(
    version: Version,
    request: &Request,
    out: &mut Output,
) -> Result<(), MsgFault>
    ensures before { out.new.before ≡ whole out.old }
    ensures ok { OnOk result (PutsRequest version (request_view request.now) out.new.more) }
    ensures err { OnErr result (out.new.more ≡ []) }
    ensures fault { IfErr result (λ e. (e ≡ MsgFault.Memory → ⊥) → spelling_of_request version request.now ≡ Err e) }
{
    if spell_run(version, request, out) {
        return Ok(());
    }
    write_long_run(version, request, out)
}

/// The same by way of a text of its own, behind which nothing was spelled.
#[inline(never)]
fn write_long_run(version: Version, request: &Request, out: &mut Output) -> Answer<()>
    ensures before { out.new.before ≡ whole out.old }
    ensures ok { OnOk result (PutsRequest version (request_view request.now) out.new.more) }
    ensures err { OnErr result (out.new.more ≡ []) }
    ensures fault { IfErr result (λ e. (e ≡ MsgFault.Memory → ⊥) → spelling_of_request version request.now ≡ Err e) }
{
    out.set_mark();
    let mut text = BytesMut::new(out.allocator());
    write_request(version, request, &mut text)?;
    Ok(put_run(&text, out)?)
}
