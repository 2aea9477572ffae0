//! The bytes of a row, in PackStream.

ghost use Rattle.std.specs.Prelude.{◌≡◌, ◌++◌, ◌∷◌, Ok, Err, IfOk, IfErr, OnOk, IfSome, [], ◌≤◌};
ghost use Rattle.packstream.specs.Canon.{canon};
ghost use Rattle.packstream.specs.Good.{IsGood, depth};
ghost use Rattle.packstream.specs.Tree.{list};
ghost use Rattle.packstream.specs.View.{trees_of};
ghost use Rattle.structures_cells.specs.Shape.{shapes};
ghost use Rattle.structures_cells.specs.Writing.{IsWritable};
ghost use Rattle.structures.specs.Form.{form};
ghost use Rattle.messages.specs.View.{Record, response_view};
ghost use Rattle.messages.specs.Writing.{response_spelling};
ghost use Rattle.bolt_c.specs.Answers.{message_fault_of};

use crate::answers::MessageFault;
use bytes::BytesMut;
use messages::{MsgFault, Response, write_response};
use packstream::MAX_SIZE;
use std::alloc::{AllocError, Global};
use structures::Cell;
use structures_encoder::{Output, Unspelled, put_list};
use wire::Version;

/// How deep a row may nest in its message.
const ROOM: u8 = 31;

/// The bytes of a message, or why it isn't told.
pub(crate) fn spelled(
    alloc: Global,
    version: Version,
    response: &Response,
) -> Result<BytesMut, MessageFault>
    ensures ok { IfOk result (λ text. message_fault_of
        (response_spelling version (response_view response.now)) ≡ Ok text.items) }
    ensures err { IfErr result (λ e. (e ≡ MessageFault.Memory → ⊥) → message_fault_of
        (response_spelling version (response_view response.now)) ≡ Err e) }
{
    let mut text = BytesMut::new(alloc);
    match write_response(version, response, &mut text) {
        Ok(()) => Ok(text),
        Err(MsgFault::Memory) => Err(MessageFault::Memory),
        Err(_) => Err(MessageFault::Unwritable),
    }
}

/// The message of a copy of a row.
#[tactic(auto, using(crate::proofs::RowTexts::copied_shapes))]
fn record_of(alloc: Global, row: &[Cell]) -> Result<Response, AllocError>
    ensures { IfOk result (λ r. response_view r ≡ Record (shapes row.now)) }
{
    Ok(Response::Record(row.to_vec(alloc)?))
}

/// Adds the message of a row, in the form of the version.
fn put_row(version: Version, row: &[Cell], out: &mut Output) -> Result<(), Unspelled>
    ensures before { out.new.before ≡ out.old.before }
    ensures spelled { OnOk result (out.new.more
        ≡ (out.old.more ++ 0xB1 ∷ 0x71 ∷ []) ++ canon (form version (list (trees_of (shapes row.now))))) }
    ensures good { OnOk result (IsGood (form version (list (trees_of (shapes row.now))))) }
    ensures deep { OnOk result (depth (form version (list (trees_of (shapes row.now)))) ≤ 31) }
    ensures writable { OnOk result (IsWritable version (list (trees_of (shapes row.now)))) }
{
    out.extend_from_slice(&[0xB1, 0x71])?;
    put_list(out, version, row, ROOM)
}

/// The bytes of the message of a row, spelled from where it stands; or none, if it can't be written, is past its limit or memory ran out.
fn spelled_short(alloc: Global, version: Version, row: &[Cell]) -> Option<BytesMut>
    ensures { IfSome result (λ text. response_spelling version (Record (shapes row.now)) ≡ Ok text.items) }
{
    let mut text = BytesMut::new(alloc);
    let mut adding = Output::taking(&mut text);
    let Ok(()) = put_row(version, row, &mut adding) else {
        return None;
    };
    let text = adding.keep();
    if text.len() > MAX_SIZE {
        return None;
    }
    Some(text)
}

/// The bytes of the message of a row, or why it isn't told. A row that can be written is spelled from where it stands; of another a copy is judged.
pub(crate) fn spelled_row(
    alloc: Global,
    version: Version,
    row: &[Cell],
) -> Result<BytesMut, MessageFault>
    ensures ok { IfOk result (λ text. message_fault_of
        (response_spelling version (Record (shapes row.now))) ≡ Ok text.items) }
    ensures err { IfErr result (λ e. (e ≡ MessageFault.Memory → ⊥) → message_fault_of
        (response_spelling version (Record (shapes row.now))) ≡ Err e) }
{
    if let Some(text) = spelled_short(alloc, version, row) {
        return Ok(text);
    }
    match record_of(alloc, row) {
        Ok(response) => spelled(alloc, version, &response),
        Err(AllocError) => Err(MessageFault::Memory),
    }
}
