//! Requests, written in two ways: as a value, which also tells what is wrong, and straight into an output. What the second doesn't
//! write goes the first, or is told as want of memory where nothing else can be wrong.
ghost use Rattle.std.specs.Prelude.{◌≡◌, true, false, IfOk, OnOk, ◌≤◌, ◌+◌, length};
ghost use Rattle.messages.specs.Prelude.{int, tree, value_entries, entries_seen, max_size, token_view, Answers, count_tree, form_of_request, with_dict, transaction_put, rows_put, mode_pairs, count_number, Adds};

use crate::entries::is_token;
use crate::fault::{Answer, MsgFault};
use crate::put_entries::{auth_texts, hello_texts, put_texts, put_transaction};
use crate::request::{Count, Mode, Request};
use crate::tags;
use crate::write_parts::{
    Pairs, Spelled, cells_value, push, put_cells, put_plain, put_structure, settle, texts_value,
};
use bytes::BytesMut;
use packstream::Value;
use std::alloc::{AllocError, Global};
use structures_encoder::{Output, Unspelled, put_int, put_text};
use wire::Version;

/// The entry of a mode; that of writing isn't written.
fn mode_entries(alloc: Global, mode: Mode) -> Result<Pairs, AllocError>
    ensures { IfOk result (λ pairs. value_entries pairs.items ≡ mode_pairs mode) }
{
    let mut pairs = Vec::new(alloc);
    if mode == Mode::Read {
        let text = String::from_str(alloc, "r")?;
        push(&mut pairs, "mode", Value::Text(text))?;
    }
    Ok(pairs)
}

/// The entries of a transaction: its mode, and its token if it has one.
#[tactic(auto, using(packstream::proofs::Putting::tree_of_dict, crate::proofs::Fields::tree_of_text, crate::proofs::Rounds::put_alone, crate::proofs::Rounds::put_with, crate::proofs::Rounds::not_put))]
fn transaction_entries(alloc: Global, mode: Mode, token: &Option<String>) -> Answer<Pairs>
    ensures { Answers (λ pairs. entries_seen tree pairs.items) result (transaction_put mode (token_view token.now)) }
{
    let mut pairs = mode_entries(alloc, mode)?;
    let Some(token) = token else {
        return Ok(pairs);
    };
    if !is_token(token.as_str()) {
        return Err(MsgFault::Extra);
    }
    let mut words = Vec::new(alloc);
    push(&mut words, "token", Value::Text(token.clone()?))?;
    push(&mut pairs, "tx_metadata", Value::Dict(words))?;
    Ok(pairs)
}

/// The number that stands for a count.
pub(crate) fn number_of(count: Count) -> Result<i64, MsgFault>
    ensures { Answers int result (count_number (count_tree count)) }
{
    match count {
        Count::All => Ok(-1),
        Count::Of(n) => { if n >= 1 { Ok(n) } else { Err(MsgFault::Extra) } }
    }
}

/// The value of a request that can be too deep or too long, or its first fault. Of the others no value is made: what spells one
/// that has no fault lacks nothing but memory.
pub(crate) fn request_value(alloc: Global, version: Version, request: &Request) -> Answer<Value>
    ensures { Answers tree result (form_of_request version request.now) }
{
    match request {
        Request::Hello { agent, auth } => match (version.hello_has_login(), auth) {
            (true, Some(auth)) => texts_value(alloc, tags::HELLO, &hello_texts(agent, auth)),
            (false, None) => texts_value(alloc, tags::HELLO, &[("user_agent", agent.as_str())]),
            _ => Err(MsgFault::Extra),
        },
        Request::Logon(_) if !version.has_logon() => Err(MsgFault::UnknownTag),
        Request::Logon(auth) => texts_value(alloc, tags::LOGON, &auth_texts(auth)),
        Request::Logoff if !version.has_logon() => Err(MsgFault::UnknownTag),
        Request::Run {
            text,
            params,
            mode,
            token,
        } => {
            let pairs = transaction_entries(alloc, *mode, token)?;
            let field = cells_value(alloc, version, params)?;
            let text = text.clone()?;
            let fields = vec![in alloc; Value::Text(text), field, Value::Dict(pairs)]?;
            Ok(Value::Struct(tags::RUN, fields))
        }
        Request::Begin { mode, token } => {
            transaction_entries(alloc, *mode, token)?;
            Err(MsgFault::Memory)
        }
        Request::Discard(count) | Request::Pull(count) => {
            number_of(*count)?;
            Err(MsgFault::Memory)
        }
        _ => Err(MsgFault::Memory),
    }
}

/// A structure of a count.
fn put_count(out: &mut Output, tag: u8, count: Count) -> Result<(), Unspelled>
    ensures before { out.new.before ≡ out.old.before }
    ensures adds { OnOk result (Adds (with_dict tag (rows_put count)) out.old.more out.new.more) }
{
    let Ok(number) = number_of(count) else {
        return Err(Unspelled);
    };
    put_structure(out, 1, tag)?;
    out.push(0xA1)?;
    put_text(out, "n")?;
    Ok(put_int(out, number)?)
}

/// Adds the one spelling that is written of a request at the version.
#[tactic(auto, using(crate::proofs::Added::in_dict, crate::proofs::Named::hello_added, crate::proofs::Named::hello_and_login_added, crate::proofs::Named::logon_added, crate::proofs::Named::logoff_added))]
pub(crate) fn put_request(out: &mut Output, version: Version, request: &Request) -> Spelled
    ensures before { out.new.before ≡ out.old.before }
    ensures adds { OnOk result (Adds (form_of_request version request.now) out.old.more out.new.more) }
{
    match request {
        Request::Hello { agent, auth } => match (version.hello_has_login(), auth) {
            (true, Some(auth)) => put_texts(out, tags::HELLO, &hello_texts(agent, auth)),
            (false, None) => put_texts(out, tags::HELLO, &[("user_agent", agent.as_str())]),
            _ => Err(Unspelled),
        },
        Request::Run {
            text,
            params,
            mode,
            token,
        } => {
            put_structure(out, 3, tags::RUN)?;
            put_text(out, text.as_str())?;
            put_cells(out, version, params)?;
            put_transaction(out, *mode, token)
        }
        Request::Pull(count) => put_count(out, tags::PULL, *count),
        Request::Discard(count) => put_count(out, tags::DISCARD, *count),
        Request::Begin { mode, token } => {
            put_structure(out, 1, tags::BEGIN)?;
            put_transaction(out, *mode, token)
        }
        Request::Commit => put_plain(out, tags::COMMIT),
        Request::Rollback => put_plain(out, tags::ROLLBACK),
        Request::Reset => put_plain(out, tags::RESET),
        Request::Goodbye => put_plain(out, tags::GOODBYE),
        Request::Logon(auth) if version.has_logon() => {
            put_texts(out, tags::LOGON, &auth_texts(auth))
        }
        Request::Logoff if version.has_logon() => put_plain(out, tags::LOGOFF),
        Request::Logon(_) | Request::Logoff => Err(Unspelled),
    }
}

/// Appends the one spelling that is written of a request at the version, of at most 65,536 bytes, and says so; or appends nothing.
#[tactic(auto, using(crate::proofs::Added::settled, crate::proofs::Added::short_by))]
pub fn spell_request(version: Version, request: &Request, out: &mut BytesMut) -> bool
    ensures adds { result ≡ true → Adds (form_of_request version request.now) out.old.items out.new.items }
    ensures short { result ≡ true → length out.new.items ≤ length out.old.items + max_size }
    ensures other { result ≡ false → out.new.items ≡ out.old.items }
{
    let mut adding = Output::taking(out);
    let put = put_request(&mut adding, version, request);
    settle(out, adding, put)
}
