//! Responses, read in two ways: of a value, which also says what is wrong, and straight from their source. What the second doesn't
//! read goes the first.
ghost use Rattle.std.specs.Prelude.{[], ◌∷◌, IfOk};
ghost use Rattle.messages.specs.Prelude.{tree, responses, response_view, TellsResponse, contents_of_message, Resp};
ghost use Rattle.wire.specs.declared.Version.{Version as AnyVersion};

use crate::entries::failure_of;
use crate::fault::{Answer, MsgFault};
use crate::read_parts::{FIELD_DEPTH, cells_from, cells_in, end, extra_in, none, one, row_in};
use crate::response::Response;
use crate::scan_entries::cells_of_extra;
use crate::tags;
use packstream::Value;
use packstream::source::Source;
use std::alloc::Global;
use structures_decoder::{Unscanned, list_from};
use wire::Version;

/// The response of a value, by the table of responses.
#[tactic(auto, using(crate::proofs::Fields::none_row, crate::proofs::Fields::extra_row, crate::proofs::Fields::cells_row, crate::proofs::Fields::list_row))]
pub(crate) fn response_of_value(alloc: Global, version: Version, value: &Value) -> Answer<Response>
    ensures { TellsResponse result (contents_of_message version responses (tree value.now)) }
{
    let Value::Struct(tag, fields) = value else {
        return Err(MsgFault::NotAMessage);
    };
    match *tag {
        tags::SUCCESS => Ok(Response::Success(cells_in(alloc, version, one(fields)?)?)),
        tags::RECORD => Ok(Response::Record(row_in(alloc, version, one(fields)?)?)),
        tags::IGNORED => {
            none(fields)?;
            Ok(Response::Ignored)
        }
        tags::FAILURE => failure_of(extra_in(fields)?),
        _ => Err(MsgFault::UnknownTag),
    }
}

/// A response of one field, after its head.
#[tactic(auto, using(crate::proofs::Scanned::record_means, crate::proofs::Scanned::list_scanned, crate::proofs::Scanned::success_means))]
fn one_from<S: Source>(
    alloc: Global,
    version: Version,
    tag: u8,
    source: S,
) -> Result<Response, Unscanned>
    ensures { IfOk result (λ r. Resp version (response_view r) (0xB1 ∷ tag ∷ S.left source)) }
{
    match tag {
        tags::RECORD => {
            let (row, rest) = list_from(alloc, version, source, FIELD_DEPTH)?;
            end(rest)?;
            Ok(Response::Record(row))
        }
        tags::SUCCESS => {
            let (metadata, rest) = cells_from(alloc, version, source)?;
            end(rest)?;
            Ok(Response::Success(metadata))
        }
        tags::FAILURE => {
            let pairs = cells_of_extra(alloc, version, source)?;
            Ok(failure_of(&pairs)?)
        }
        _ => Err(Unscanned),
    }
}

/// A response without fields.
#[tactic(auto, using(crate::proofs::Scanned::plain_means))]
fn plain_from(tag: u8) -> Result<Response, Unscanned>
    ensures { (v : AnyVersion) → IfOk result (λ r. Resp v (response_view r) (0xB0 ∷ tag ∷ [])) }
{
    match tag {
        tags::IGNORED => Ok(Response::Ignored),
        _ => Err(Unscanned),
    }
}

/// Reads the response that one message in a source stands for at the version.
///
/// # Errors
/// `Unscanned` if it isn't read this way, or if there is no memory. Then nothing is said of the message.
pub fn response_from<S: Source>(
    alloc: Global,
    version: Version,
    source: S,
) -> Result<Response, Unscanned>
    ensures { IfOk result (λ r. Resp version (response_view r) (S.left source)) }
{
    if let Some((tag, rest)) = source.structure(0xB1) {
        return one_from(alloc, version, tag, rest);
    }
    let (tag, rest) = source.structure(0xB0).ok_or(Unscanned)?;
    end(rest)?;
    plain_from(tag)
}

/// The response that the bytes of one message stand for at the version, read straight from them; or nothing is said.
pub fn scan_response(alloc: Global, version: Version, bytes: &[u8]) -> Result<Response, Unscanned>
    ensures { IfOk result (λ r. Resp version (response_view r) bytes.now) }
{
    response_from(alloc, version, bytes)
}
