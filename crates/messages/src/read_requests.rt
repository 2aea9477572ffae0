//! Requests, read in two ways: of a value, which also says what is wrong, and straight from their source. What the second doesn't
//! read goes the first.
ghost use Rattle.std.specs.Prelude.{[], ◌∷◌, IfOk};
ghost use Rattle.messages.specs.Prelude.{tree, fields_seen, entries_seen, Answers, field_text, contents_of_run, ignored, extra, text_field, cells, of_transaction, RUN, requests, run_tag, request_view, request_contents, TellsRequest, contents_of_row, contents_at_tag, contents_of_message, contents_of_plain, Req};

use crate::entries::{auth_of, count_in, hello_of, transaction_of};
use crate::fault::{Answer, MsgFault};
use crate::read_parts::{cells_from, cells_in, end, entries_in, extra_in, none, three};
use crate::request::Request;
use crate::scan_entries::{cells_of_extra, rows_in, transaction_in};
use crate::tags;
use packstream::Value;
use packstream::source::Source;
use std::alloc::Global;
use structures_decoder::{Unscanned, text_from};
use wire::Version;

/// A request without fields.
fn plain(request: Request, fields: &[Value]) -> Result<Request, MsgFault>
    ensures { TellsRequest result (contents_of_plain (request_contents (request_view request)) (fields_seen fields.now)) }
{
    none(fields)?;
    Ok(request)
}

fn text_in_field(field: &Value) -> Answer<&str>
    ensures { Answers (λ s. s.now) result (field_text (tree field.now)) }
{
    match field {
        Value::Text(text) => Ok(text.as_str()),
        _ => Err(MsgFault::Fields),
    }
}

fn run_with(
    alloc: Global,
    version: Version,
    text: &str,
    field: &Value,
    pairs: &[(String, Value)],
) -> Answer<Request>
    ensures { TellsRequest result (contents_of_run version text.now (tree field.now) (entries_seen tree pairs.now)) }
{
    let (mode, token) = transaction_of(pairs)?;
    let params = cells_in(alloc, version, field)?;
    let text = String::from_str(alloc, text)?;
    Ok(Request::Run {
        text,
        params,
        mode,
        token,
    })
}

/// A RUN of its three fields: the text, the parameters and the other entries.
#[tactic(auto, using(crate::proofs::Fields::run_row))]
fn run_of(alloc: Global, version: Version, fields: &[Value]) -> Result<Request, MsgFault>
    ensures { TellsRequest result
        (contents_of_row version RUN (text_field ∷ cells ∷ extra ignored of_transaction ∷ []) (fields_seen fields.now)) }
{
    let (text, field, others) = three(fields)?;
    let text = text_in_field(text)?;
    let _ = entries_in(field)?;
    let pairs = entries_in(others)?;
    run_with(alloc, version, text, field, pairs)
}

/// The request of a structure with this tag and these fields.
#[tactic(auto, using(crate::proofs::Fields::none_row, crate::proofs::Fields::extra_row))]
fn request_tagged(alloc: Global, version: Version, tag: u8, fields: &[Value]) -> Answer<Request>
    ensures { TellsRequest result (contents_at_tag version requests tag (fields_seen fields.now)) }
{
    match (tag, version.has_logon()) {
        (tags::HELLO, _) => hello_of(version, extra_in(fields)?),
        (tags::LOGON, true) => Ok(Request::Logon(auth_of(extra_in(fields)?)?)),
        (tags::LOGOFF, true) => plain(Request::Logoff, fields),
        (tags::GOODBYE, _) => plain(Request::Goodbye, fields),
        (tags::RESET, _) => plain(Request::Reset, fields),
        (tags::RUN, _) => run_of(alloc, version, fields),
        (tags::BEGIN, _) => {
            let (mode, token) = transaction_of(extra_in(fields)?)?;
            Ok(Request::Begin { mode, token })
        }
        (tags::COMMIT, _) => plain(Request::Commit, fields),
        (tags::ROLLBACK, _) => plain(Request::Rollback, fields),
        (tags::DISCARD, _) => Ok(Request::Discard(count_in(extra_in(fields)?)?)),
        (tags::PULL, _) => Ok(Request::Pull(count_in(extra_in(fields)?)?)),
        _ => Err(MsgFault::UnknownTag),
    }
}

/// The request of a value, by the table of requests.
pub(crate) fn request_of_value(alloc: Global, version: Version, value: &Value) -> Answer<Request>
    ensures { TellsRequest result (contents_of_message version requests (tree value.now)) }
{
    match value {
        Value::Struct(tag, fields) => request_tagged(alloc, version, *tag, fields),
        _ => Err(MsgFault::NotAMessage),
    }
}

/// A RUN after its head.
fn run_from<S: Source>(alloc: Global, version: Version, source: S) -> Result<Request, Unscanned>
    ensures { IfOk result (λ r. Req version (request_view r) (0xB3 ∷ run_tag ∷ S.left source)) }
{
    source.has_bytes();
    let (query, rest) = text_from(&source)?;
    let (params, rest) = cells_from(alloc, version, rest)?;
    let (mode, token) = transaction_in(alloc, version, rest)?;
    let text = String::from_str(alloc, query)?;
    Ok(Request::Run {
        text,
        params,
        mode,
        token,
    })
}

/// A request without fields.
#[tactic(auto, using(crate::proofs::Scanned::plain_means))]
fn plain_from(version: Version, tag: u8) -> Result<Request, Unscanned>
    ensures { IfOk result (λ r. Req version (request_view r) (0xB0 ∷ tag ∷ [])) }
{
    match (version.has_logon(), tag) {
        (true, tags::LOGOFF) => Ok(Request::Logoff),
        (_, tags::GOODBYE) => Ok(Request::Goodbye),
        (_, tags::RESET) => Ok(Request::Reset),
        (_, tags::COMMIT) => Ok(Request::Commit),
        (_, tags::ROLLBACK) => Ok(Request::Rollback),
        _ => Err(Unscanned),
    }
}

/// A request of one field, after its head.
#[tactic(auto, using(crate::proofs::Scanned::pull_means, crate::proofs::Scanned::discard_means, crate::proofs::Scanned::begin_means))]
fn one_from<S: Source>(
    alloc: Global,
    version: Version,
    tag: u8,
    source: S,
) -> Result<Request, Unscanned>
    ensures { IfOk result (λ r. Req version (request_view r) (0xB1 ∷ tag ∷ S.left source)) }
{
    match tag {
        tags::PULL => Ok(Request::Pull(rows_in(alloc, version, source)?)),
        tags::DISCARD => Ok(Request::Discard(rows_in(alloc, version, source)?)),
        tags::BEGIN => {
            let (mode, token) = transaction_in(alloc, version, source)?;
            Ok(Request::Begin { mode, token })
        }
        _ => login_from(alloc, version, tag, source),
    }
}

/// A HELLO or a LOGON, after its head.
#[tactic(auto, using(crate::proofs::Scanned::hello_means, crate::proofs::Scanned::logon_means))]
#[inline(always)]
fn login_from<S: Source>(
    alloc: Global,
    version: Version,
    tag: u8,
    source: S,
) -> Result<Request, Unscanned>
    ensures { IfOk result (λ r. Req version (request_view r) (0xB1 ∷ tag ∷ S.left source)) }
{
    match tag {
        tags::HELLO => {
            let pairs = cells_of_extra(alloc, version, source)?;
            Ok(hello_of(version, &pairs)?)
        }
        tags::LOGON if version.has_logon() => {
            let pairs = cells_of_extra(alloc, version, source)?;
            Ok(Request::Logon(auth_of(&pairs)?))
        }
        _ => Err(Unscanned),
    }
}

/// Reads the request that one message in a source stands for at the version.
///
/// # Errors
/// `Unscanned` if it isn't read this way, or if there is no memory. Then nothing is said of the message.
pub fn request_from<S: Source>(
    alloc: Global,
    version: Version,
    source: S,
) -> Result<Request, Unscanned>
    ensures { IfOk result (λ r. Req version (request_view r) (S.left source)) }
{
    if let Some((tags::RUN, rest)) = source.structure(0xB3) {
        return run_from(alloc, version, rest);
    }
    if let Some((tag, rest)) = source.structure(0xB1) {
        return one_from(alloc, version, tag, rest);
    }
    let (tag, rest) = source.structure(0xB0).ok_or(Unscanned)?;
    end(rest)?;
    plain_from(version, tag)
}

/// The request that the bytes of one message stand for at the version, read straight from them; or nothing is said.
pub fn scan_request(alloc: Global, version: Version, bytes: &[u8]) -> Result<Request, Unscanned>
    ensures { IfOk result (λ r. Req version (request_view r) bytes.now) }
{
    request_from(alloc, version, bytes)
}
