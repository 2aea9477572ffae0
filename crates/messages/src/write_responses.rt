//! Responses, written in two ways: as a value, which also tells what is wrong, and straight into an output. What the second doesn't
//! write goes the first, or is told as want of memory where nothing else can be wrong.
ghost use Rattle.std.specs.Prelude.{◌≡◌, true, false, OnOk, ◌≤◌, ◌+◌, length};
ghost use Rattle.messages.specs.Prelude.{tree, row_tree, max_size, Answers, form_of_response, cell_put, Adds};

use crate::fault::{Answer, MsgFault};
use crate::put_entries::{error_texts, put_texts};
use crate::read_parts::FIELD_DEPTH;
use crate::response::Response;
use crate::tags;
use crate::write_parts::{
    cells_value, of_one, put_cells, put_plain, put_structure, settle, texts_value,
};
use bytes::BytesMut;
use packstream::Value;
use std::alloc::Global;
use structures::{Cell, write_members};
use structures_encoder::{Output, Unspelled, put_list};
use wire::Version;

/// The value of a list of cells.
fn row_value(alloc: Global, version: Version, row: &Vec<Cell>) -> Result<Value, MsgFault>
    ensures { Answers tree result (cell_put version (row_tree row.now.items)) }
{
    let packed = write_members(alloc, version, row)?;
    Ok(packed.into_value())
}

/// The value of a response, or its first fault. Of IGNORED no value is made: what spells it lacks nothing but memory.
pub(crate) fn response_value(alloc: Global, version: Version, response: &Response) -> Answer<Value>
    ensures { Answers tree result (form_of_response version response.now) }
{
    match response {
        Response::Success(metadata) => {
            let field = cells_value(alloc, version, metadata)?;
            Ok(of_one(alloc, tags::SUCCESS, field)?)
        }
        Response::Record(row) => {
            let field = row_value(alloc, version, row)?;
            Ok(of_one(alloc, tags::RECORD, field)?)
        }
        Response::Ignored => Err(MsgFault::Memory),
        Response::Failure { code, message } => {
            texts_value(alloc, tags::FAILURE, &error_texts(code, message))
        }
    }
}

#[tactic(auto, using(crate::proofs::Named::failure_added))]
fn put_response(out: &mut Output, version: Version, response: &Response) -> Result<(), Unspelled>
    ensures before { out.new.before ≡ out.old.before }
    ensures adds { OnOk result (Adds (form_of_response version response.now) out.old.more out.new.more) }
{
    match response {
        Response::Success(metadata) => {
            put_structure(out, 1, tags::SUCCESS)?;
            put_cells(out, version, metadata)
        }
        Response::Record(row) => {
            put_structure(out, 1, tags::RECORD)?;
            Ok(put_list(out, version, row.as_slice(), FIELD_DEPTH)?)
        }
        Response::Ignored => put_plain(out, tags::IGNORED),
        Response::Failure { code, message } => {
            put_texts(out, tags::FAILURE, &error_texts(code, message))
        }
    }
}

/// Appends the one spelling that is written of a response at the version, of at most 65,536 bytes, and says so; or appends nothing.
#[tactic(auto, using(crate::proofs::Added::settled, crate::proofs::Added::short_by))]
pub fn spell_response(version: Version, response: &Response, out: &mut BytesMut) -> bool
    ensures adds { result ≡ true → Adds (form_of_response version response.now) out.old.items out.new.items }
    ensures short { result ≡ true → length out.new.items ≤ length out.old.items + max_size }
    ensures other { result ≡ false → out.new.items ≡ out.old.items }
{
    let mut adding = Output::taking(out);
    let put = put_response(&mut adding, version, response);
    settle(out, adding, put)
}
