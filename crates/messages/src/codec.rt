//! Messages of bytes and of values.
ghost use Rattle.std.specs.Prelude.{OnOk};
ghost use Rattle.messages.specs.Prelude.{whole_of, requests, responses, request_view, response_view, Answers, Req, Resp, NoRequest, NoResponse, ReadsMessage, RefusesBytes, ReadsSpelled, RefusesSpelled, AnswersSpelled, TellsRequest, TellsResponse, value_told, contents_in, contents_of_message, request_of, response_of, Appends, IsGood, Spells, canon, tree, spelling_of_tree, spelling_within, spelling_of_request, spelling_of_response, RequestStands, ResponseStands};

use crate::fault::{Answer, MsgFault};
use crate::read_requests::{request_of_value, scan_request};
use crate::read_responses::{response_of_value, scan_response};
use crate::request::Request;
use crate::response::Response;
use crate::write_requests::{request_value, spell_request};
use crate::write_responses::{response_value, spell_response};
use bytes::BytesMut;
use packstream::{PackFault, Packed, Value, decode, encode};
use std::alloc::Global;
use wire::Version;

/// The value that the bytes of a message spell.
fn value_in(alloc: Global, bytes: &[u8]) -> Result<Packed, MsgFault>
    ensures { Answers (λ p. p) result (value_told (whole_of bytes.now)) }
{
    Ok(decode(alloc, bytes)?)
}

#[tactic(auto, using(crate::proofs::Sent::by_value, crate::proofs::Sent::means_said))]
fn request_in(alloc: Global, version: Version, bytes: &[u8]) -> Result<Request, MsgFault>
    ensures { TellsRequest result (contents_in version requests bytes.now) }
{
    if let Ok(request) = scan_request(alloc, version, bytes) {
        return Ok(request);
    }
    request_by_value(alloc, version, bytes)
}

/// The same by way of a value, which tells what is wrong.
#[inline(always)]
fn request_by_value(alloc: Global, version: Version, bytes: &[u8]) -> Result<Request, MsgFault>
    ensures { TellsRequest result (contents_in version requests bytes.now) }
{
    request_of_value(alloc, version, value_in(alloc, bytes)?.value())
}

#[tactic(auto, using(crate::proofs::Sent::by_value, crate::proofs::Sent::means_said))]
fn response_in(alloc: Global, version: Version, bytes: &[u8]) -> Result<Response, MsgFault>
    ensures { TellsResponse result (contents_in version responses bytes.now) }
{
    if let Ok(response) = scan_response(alloc, version, bytes) {
        return Ok(response);
    }
    response_of_value(alloc, version, value_in(alloc, bytes)?.value())
}

/// The request of the bytes of one message, without chunks (Bolt message specification). Bytes that stand for none are refused by their
/// first fault: `Pack`, `NotAMessage`, `UnknownTag`, `Fields`, `Extra` or `Cell`, in this order. Or want of memory.
pub fn read_request(alloc: Global, version: Version, bytes: &[u8]) -> Result<Request, MsgFault>
    ensures request { ReadsMessage request_view (Req version) result bytes.now }
    ensures fault { RefusesBytes (NoRequest version) result bytes.now }
    // Both as a function of the bytes.
    ensures same { Answers request_view result (request_of version bytes.now) }
{
    request_in(alloc, version, bytes)
}

/// The response of the bytes of one message, without chunks (Bolt message specification). Bytes that stand for none are refused by their
/// first fault: `Pack`, `NotAMessage`, `UnknownTag`, `Fields`, `Extra` or `Cell`, in this order. Or want of memory.
pub fn read_response(alloc: Global, version: Version, bytes: &[u8]) -> Result<Response, MsgFault>
    ensures response { ReadsMessage response_view (Resp version) result bytes.now }
    ensures fault { RefusesBytes (NoResponse version) result bytes.now }
    // Both as a function of the bytes.
    ensures same { Answers response_view result (response_of version bytes.now) }
{
    response_in(alloc, version, bytes)
}

/// The request of a value that was read: what `read_request` answers for every spelling of the value. Its faults are
/// `NotAMessage`, `UnknownTag`, `Fields`, `Extra`, `Cell` and `Memory`.
pub fn request_of(alloc: Global, version: Version, packed: &Packed) -> Result<Request, MsgFault>
    // Apart from memory, it is what the value says by the table of requests: a request, or the first fault.
    ensures told { TellsRequest result (contents_of_message version requests packed.now) }
    ensures request { ReadsSpelled request_view (Req version) result packed.now }
    ensures fault { RefusesSpelled (NoRequest version) result packed.now }
    ensures same { AnswersSpelled request_view (request_of version) result packed.now }
{
    request_of_value(alloc, version, packed.value())
}

/// The response of a value that was read: what `read_response` answers for every spelling of the value. Its faults are
/// `NotAMessage`, `UnknownTag`, `Fields`, `Extra`, `Cell` and `Memory`.
pub fn response_of(alloc: Global, version: Version, packed: &Packed) -> Result<Response, MsgFault>
    // Apart from memory, it is what the value says by the table of responses: a response, or the first fault.
    ensures told { TellsResponse result (contents_of_message version responses packed.now) }
    ensures response { ReadsSpelled response_view (Resp version) result packed.now }
    ensures fault { RefusesSpelled (NoResponse version) result packed.now }
    ensures same { AnswersSpelled response_view (response_of version) result packed.now }
{
    response_of_value(alloc, version, packed.value())
}

fn put_packed(packed: &Packed, out: &mut BytesMut) -> Answer<()>
    ensures text { Appends result out.old.items out.new.items (spelling_within packed.now) }
    ensures spells { OnOk result (Spells packed.now (canon packed.now)) }
{
    match encode(packed, out) {
        Ok(()) => Ok(()),
        Err(PackFault::Memory) => Err(MsgFault::Memory),
        Err(PackFault::Refused(_, _)) => Err(MsgFault::Size),
    }
}

fn put(value: Value, out: &mut BytesMut) -> Answer<()>
    ensures text { Appends result out.old.items out.new.items (spelling_of_tree (tree value)) }
    ensures spells { OnOk result (IsGood (tree value) × Spells (tree value) (canon (tree value))) }
{
    let packed = Packed::new_in(*out.allocator(), value)?;
    put_packed(&packed, out)
}

/// Appends the one spelling that is written of a request, the shortest (PackStream version 1), or nothing: the fault is the
/// first of `UnknownTag`, `Extra`, `Cell`, `CellPack`, `Pack` and `Size`, unless memory ran out.
/// What is written reads back as the request.
#[tactic(auto, unfolding(crate::specs::Writing::request_spelling))]
pub fn write_request(
    version: Version,
    request: &Request,
    out: &mut BytesMut,
) -> Result<(), MsgFault>
    ensures text { Appends result out.old.items out.new.items (spelling_of_request version request.now) }
    ensures read_back { OnOk result (RequestStands version (request_view request.now)) }
{
    if spell_request(version, request, out) {
        return Ok(());
    }
    let value = request_value(*out.allocator(), version, request)?;
    put(value, out)
}

/// Appends the one spelling that is written of a response, the shortest (PackStream version 1), or nothing: the fault is
/// the first of `Cell`, `CellPack`, `Pack` and `Size`, unless memory ran out.
/// What is written reads back as the response.
#[tactic(auto, unfolding(crate::specs::Writing::response_spelling))]
pub fn write_response(
    version: Version,
    response: &Response,
    out: &mut BytesMut,
) -> Result<(), MsgFault>
    ensures text { Appends result out.old.items out.new.items (spelling_of_response version response.now) }
    ensures read_back { OnOk result (ResponseStands version (response_view response.now)) }
{
    if spell_response(version, response, out) {
        return Ok(());
    }
    let value = response_value(*out.allocator(), version, response)?;
    put(value, out)
}
