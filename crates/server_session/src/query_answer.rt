//! What a query's answer opens.
ghost use Rattle.std.specs.Prelude.{◌≡◌, ◌+◌, ◌≤◌, ◌∷◌, [], ◌++◌, true, false, if◌then◌else◌, length, map, option_map, option_to_list, None, Some, IsErr, IfOk, OnOk, OnErr, IfErr, All, IsUtf8};
ghost use Rattle.messages.specs.View.{response_view};
ghost use Rattle.structures_cells.specs.Shape.{shapes};
ghost use Rattle.packstream.specs.Writing.{whole};
ghost use Rattle.packstream.specs.Tree.{text, dict};
ghost use Rattle.packstream.specs.Canon.{canon, canon_all};
ghost use Rattle.packstream.specs.View.{entries_of, trees_of};
ghost use Rattle.wire.specs.declared.Version.{Version as AnyVersion};
ghost use Rattle.engine.specs.Views.{names_view, write_view, writes_view};
ghost use Rattle.server_session.specs.Session.{fields_told, fields_said, result_of_answer, in_transaction, with_write, no_tx};
ghost use Rattle.server_session.specs.Views.{first_of, open_of, tx_of};
ghost use Rattle.engine.specs.Limits.{max_rows};
ghost use Rattle.server_session.specs.Said.{fits};
ghost use Rattle.server_session.specs.Acts.{IsRun, Refuses, answer_by};

use crate::remaining::Remaining;
use crate::result::{OpenResult, Transaction};
use crate::spelling::{Unwritten, put_response};
use crate::words::{is_in_transaction, result_mode};
use bytes::BytesMut;
use engine::{Mode as QueryMode, Names, Rows, Write};
use machine::State;
use messages::{Response, close_run};
use std::alloc::{AllocError, Global};
use structures::Cell;
use structures_encoder::{Output, Unspelled, put_text};
use wire::Version;

/// The most fields whose SUCCESS is spelled without a response: as many as a list of one byte before its members has.
const FEW: usize = 15;

/// Puts the run of the SUCCESS of a RUN; or nothing, and why. One of many fields goes by way of its text, in place of what the body held.
pub(crate) fn put_fields(
    alloc: Global,
    version: Version,
    fields: &Names,
    body: &mut BytesMut,
    out: &mut Output,
) -> Result<(), Unwritten>
    ensures before { out.new.before ≡ whole out.old }
    ensures ok { let said = fields_said (names_view fields.now) in
        OnOk result (IsRun version said out.new.more × (fits version said ≡ true)) }
    ensures err { IfErr result (Refuses version (fields_said (names_view fields.now))) }
    ensures kept { OnErr result (whole out.new ≡ whole out.old) }
{
    if fields.count() <= FEW && put_few(fields, out) {
        return Ok(());
    }
    put_many(alloc, version, fields, body, out)
}

/// Puts the same by way of a response.
#[inline(never)]
fn put_many(
    alloc: Global,
    version: Version,
    fields: &Names,
    body: &mut BytesMut,
    out: &mut Output,
) -> Result<(), Unwritten>
    ensures before { out.new.before ≡ whole out.old }
    ensures ok { let said = fields_said (names_view fields.now) in
        OnOk result (IsRun version said out.new.more × (fits version said ≡ true)) }
    ensures err { IfErr result (Refuses version (fields_said (names_view fields.now))) }
    ensures kept { OnErr result (whole out.new ≡ whole out.old) }
{
    out.set_mark();
    match fields_response(alloc, fields) {
        Ok(response) => put_response(version, &response, body, out),
        Err(AllocError) => Err(Unwritten::Memory),
    }
}

/// Puts the run of the SUCCESS of a RUN of few fields, spelled where it goes out; or says no, and puts nothing: of one past a chunk, or for want
/// of memory.
fn put_few(fields: &Names, out: &mut Output) -> bool
    requires { length (names_view fields.now) ≤ 15 }
    ensures before { out.new.before ≡ whole out.old }
    ensures put { result ≡ true → (v : AnyVersion) → let said = fields_said (names_view fields.now) in
        IsRun v said out.new.more × (fits v said ≡ true) }
    ensures other { result ≡ false → whole out.new ≡ whole out.old }
{
    out.set_mark();
    match add_fields(fields, out) {
        Ok(()) => close_run(out),
        Err(_) => {
            out.take_back();
            false
        }
    }
}

/// Adds a place for a header, and the SUCCESS of a RUN of few fields.
fn add_fields(fields: &Names, out: &mut Output) -> Result<(), Unspelled>
    requires { length (names_view fields.now) ≤ 15 }
    ensures before { out.new.before ≡ out.old.before }
    ensures spelled { OnOk result (out.new.more
        ≡ (out.old.more ++ 0 ∷ 0 ∷ 0xB1 ∷ 0x70 ∷ [])
        ++ canon (dict (entries_of (fields_told (names_view fields.now))))) }
    ensures texts { OnOk result (All IsUtf8 (names_view fields.now)) }
{
    out.extend_from_slice(b"\0\0\xB1\x70\xA2\x86fields")?;
    out.push(head_of(fields.count()))?;
    put_names(fields, out)?;
    out.extend_from_slice(b"\x87t_first\x00")?;
    Ok(())
}

/// The byte before a list of few members.
fn head_of(count: usize) -> u8
    requires { count ≤ 15 }
    ensures { result ≡ 0x90 + count }
{
    0x90 + count as u8
}

fn put_names(names: &Names, out: &mut Output) -> Result<(), Unspelled>
    ensures before { out.new.before ≡ out.old.before }
    ensures spelled { OnOk result (out.new.more
        ≡ out.old.more ++ canon_all (trees_of (map text (names_view names.now)))) }
    ensures texts { OnOk result (All IsUtf8 (names_view names.now)) }
{
    for place in 0..names.count() {
        put_text(out, names.get(place))?;
    }
    Ok(())
}

/// The SUCCESS of a RUN.
fn fields_response(alloc: Global, fields: &Names) -> Result<Response, AllocError>
    ensures { IfOk result (λ r. response_view r ≡ fields_said (names_view fields.now)) }
{
    let names = Cell::List(texts(alloc, fields)?);
    let mut metadata = Vec::with_capacity(alloc, 2)?;
    let key = String::from_str(alloc, "fields")?;
    metadata.push((key, names))?;
    let key = String::from_str(alloc, "t_first")?;
    metadata.push((key, Cell::Int(0)))?;
    Ok(Response::Success(metadata))
}

fn texts(alloc: Global, names: &Names) -> Result<Vec<Cell>, AllocError>
    ensures { IfOk result (λ cells. shapes cells.items ≡ map text (names_view names.now)) }
{
    let mut cells = Vec::with_capacity(alloc, names.count())?;
    for place in 0..names.count() {
        let name = String::from_str(alloc, names.get(place))?;
        cells.push(Cell::Text(name))?;
    }
    Ok(cells)
}

/// Opens a result of these rows, of which none is written yet, without a token: in a transaction with its write among the transaction's. An
/// `Err` changes nothing.
pub(crate) fn open_result(
    alloc: Global,
    version: Version,
    state: State,
    rows: Rows,
    write: Option<Write>,
    mode: QueryMode,
    left: &mut OpenResult,
    tx: &mut Transaction,
) -> Result<(), AllocError>
    requires { rows.count ≤ max_rows }
    ensures open { OnOk result (open_of left.new
        ≡ result_of_answer version state None (answer_by [] rows write mode)) }
    ensures tx { OnOk result (tx_of tx.new ≡ (if in_transaction state
        then with_write (tx_of tx.old) (option_map write_view write) else no_tx)) }
    ensures open_kept { OnErr result (open_of left.new ≡ open_of left.old) }
    ensures tx_kept { OnErr result (tx_of tx.new ≡ tx_of tx.old) }
{
    let rows = match Remaining::fitted(alloc, version, rows) {
        Ok(rows) => rows,
        Err(AllocError) => return give_up(write),
    };
    let mode = result_mode(mode);
    let writes = if is_in_transaction(state) {
        join_write(&mut tx.writes, write)?;
        Vec::new(alloc)
    } else {
        let writes = writes_of(alloc, write)?;
        tx.close(alloc);
        writes
    };
    *left = OpenResult {
        rows,
        mode,
        writes,
        token: None,
        written: 0,
    };
    Ok(())
}

/// Drops the write of a result that isn't opened, for want of memory.
#[inline(always)]
fn give_up(write: Option<Write>) -> Result<(), AllocError>
    ensures { IsErr result }
{
    drop_write(write);
    Err(AllocError)
}

/// Drops the write of a result. It is a call, so that a result that is opened doesn't pay for the locals of a drop.
#[inline(never)]
fn drop_write(_write: Option<Write>) {}

/// The transaction takes over the write of a result, if it has one.
fn join_write(writes: &mut Vec<Write>, write: Option<Write>) -> Result<(), AllocError>
    ensures ok { OnOk result
        (writes_view writes.new.items
        ≡ writes_view writes.old.items ++ option_to_list (option_map write_view write)) }
    ensures err { OnErr result (writes_view writes.new.items ≡ writes_view writes.old.items) }
{
    match write {
        None => Ok(()),
        Some(write) => {
            writes.push(write)?;
            Ok(())
        }
    }
}

fn writes_of(alloc: Global, write: Option<Write>) -> Result<Vec<Write>, AllocError>
    ensures first { IfOk result
        (λ ws. first_of (writes_view ws.items) ≡ option_map write_view write) }
    ensures one { IfOk result (λ ws. length ws.items ≤ 1) }
{
    match write {
        None => Ok(Vec::new(alloc)),
        Some(write) => only_write(alloc, write),
    }
}

/// The write of a result. It is a call, so that a result without one doesn't pay for its locals.
#[inline(never)]
fn only_write(alloc: Global, write: Write) -> Result<Vec<Write>, AllocError>
    ensures first { IfOk result (λ ws. first_of (writes_view ws.items) ≡ Some (write_view write)) }
    ensures one { IfOk result (λ ws. length ws.items ≤ 1) }
{
    let mut writes = Vec::with_capacity(alloc, 1)?;
    writes.push(write)?;
    Ok(writes)
}
