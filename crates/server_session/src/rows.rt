//! The rows of an open result, spelled one by one where they go out.
ghost use Rattle.std.specs.Prelude.{◌≡◌, ◌<◌, ◌≤◌, ◌+◌, ◌∷◌, ◌++◌, List, true, false, OnOk, IfOk, IfErr};
ghost use Rattle.packstream.specs.Writing.{whole};
ghost use Rattle.packstream.specs.Tree.{Tree, list};
ghost use Rattle.packstream.specs.Canon.{canon};
ghost use Rattle.packstream.specs.Good.{IsGood, depth};
ghost use Rattle.packstream.specs.View.{trees_of};
ghost use Rattle.structures_cells.specs.Shape.{shapes};
ghost use Rattle.structures_cells.specs.Writing.{IsWritable};
ghost use Rattle.structures.specs.Form.{form};
ghost use Rattle.messages.specs.View.{Record, response_view};
ghost use Rattle.server_session.specs.Views.{remaining_rows};
ghost use Rattle.server_session.specs.Said.{fits};
ghost use Rattle.server_session.specs.Acts.{IsBody, IsPut, Refuses};

use crate::remaining::Remaining;
use crate::spelling::{Unwritten, spell_response};
use bytes::BytesMut;
use messages::{Response, close_run};
use std::alloc::{AllocError, Global};
use structures::Cell;
use structures_encoder::{Output, Unspelled, put_list};
use wire::{MAX_MESSAGE, Version};

/// The most bytes of a chunk, whose length is two bytes.
const MAX_CHUNK: usize = 65535;

/// How deep a row may nest in its message.
const ROOM: u8 = 31;

/// Whether a row has plain cells alone, whose texts are no longer than a chunk together: what waits to go isn't made larger for one that
/// may be taken off again.
fn is_short(row: &[Cell]) -> bool {
    let mut left = MAX_CHUNK - 16;
    for cell in row {
        let most = most_bytes(cell);
        if most > left {
            return false;
        }
        left -= most;
    }
    true
}

/// At least as many bytes as the text of a plain cell has; of another, more than a chunk.
fn most_bytes(cell: &Cell) -> usize {
    match cell {
        Cell::Null | Cell::Bool(_) => 1,
        Cell::Int(_) | Cell::Float(_) => 9,
        Cell::Bytes(bytes) => bytes.len().saturating_add(5),
        Cell::Text(text) => text.len().saturating_add(5),
        _ => usize::MAX,
    }
}

/// Puts the run of the RECORD of a row, spelled where it goes out; or says no, and puts nothing: of a row with a cell that holds others,
/// of one past a chunk, or for want of memory.
#[inline(always)]
pub(crate) fn put_record(version: Version, row: &[Cell], out: &mut Output) -> bool
    ensures put { result ≡ true → IsPut version (Record (shapes row.now)) (whole out.old) (whole out.new) }
    ensures other { result ≡ false → whole out.new ≡ whole out.old }
{
    if !is_short(row) {
        return false;
    }
    out.set_mark();
    match put_row(version, row, &[0, 0, 0xB1, 0x71], out) {
        Ok(()) => close_run(out),
        Err(_) => {
            out.take_back();
            false
        }
    }
}

/// Puts the same of the first of these rows.
#[inline(always)]
pub(crate) fn put_first(version: Version, rows: &Remaining, out: &mut Output) -> bool
    requires { 0 < rows.now.count }
    ensures put { result ≡ true → (row : List Tree) (rest : List (List Tree))
        → remaining_rows rows.now ≡ row ∷ rest → IsPut version (Record row) (whole out.old) (whole out.new) }
    ensures other { result ≡ false → whole out.new ≡ whole out.old }
{
    put_record(version, rows.first(), out)
}

/// Spells the first of these rows in place of what the body held, or tells why it wasn't written.
pub(crate) fn spell_first(
    version: Version,
    rows: &Remaining,
    body: &mut BytesMut,
) -> Result<(), Unwritten>
    requires { 0 < rows.now.count }
    ensures ok { (row : List Tree) (rest : List (List Tree)) → remaining_rows rows.now ≡ row ∷ rest
        → OnOk result (IsBody version (Record row) body.new.items × (fits version (Record row) ≡ true)) }
    ensures err { (row : List Tree) (rest : List (List Tree)) → remaining_rows rows.now ≡ row ∷ rest
        → IfErr result (Refuses version (Record row)) }
{
    spell_row(version, rows.first(), body)
}

/// Spells the RECORD of a row in place of what the body held, or tells why it wasn't written. A row that can be written is spelled from where
/// it stands; of another a copy is judged.
fn spell_row(version: Version, row: &[Cell], body: &mut BytesMut) -> Result<(), Unwritten>
    ensures ok { let said = Record (shapes row.now) in
        OnOk result (IsBody version said body.new.items × (fits version said ≡ true)) }
    ensures err { IfErr result (Refuses version (Record (shapes row.now))) }
{
    if spell_short(version, row, body) {
        return Ok(());
    }
    match record_of(*body.allocator(), row) {
        Ok(response) => spell_response(version, &response, body),
        Err(AllocError) => Err(Unwritten::Memory),
    }
}

/// Spells the RECORD of a row in place of what the body held; or says no, if it can't be written, is past its limit or memory ran out.
fn spell_short(version: Version, row: &[Cell], body: &mut BytesMut) -> bool
    ensures { result ≡ true → let said = Record (shapes row.now) in
        IsBody version said body.new.items × (fits version said ≡ true) }
{
    body.clear();
    let mut adding = Output::taking(body);
    match put_row(version, row, &[0xB1, 0x71], &mut adding) {
        Ok(()) => *body = adding.keep(),
        Err(_) => {
            *body = adding.undo();
            return false;
        }
    }
    if body.len() > MAX_MESSAGE {
        return false;
    }
    true
}

/// Adds the head of a RECORD, and its row.
#[inline(always)]
fn put_row(version: Version, row: &[Cell], head: &[u8], out: &mut Output) -> Result<(), Unspelled>
    ensures before { out.new.before ≡ out.old.before }
    ensures spelled { OnOk result (out.new.more
        ≡ (out.old.more ++ head.now) ++ canon (form version (list (trees_of (shapes row.now))))) }
    ensures good { OnOk result (IsGood (form version (list (trees_of (shapes row.now))))) }
    ensures deep { OnOk result (depth (form version (list (trees_of (shapes row.now)))) ≤ 31) }
    ensures writable { OnOk result (IsWritable version (list (trees_of (shapes row.now)))) }
{
    out.extend_from_slice(head)?;
    put_list(out, version, row, ROOM)
}

/// The RECORD of a copy of a row.
#[tactic(auto, using(crate::proofs::Listed::copied_shapes))]
fn record_of(alloc: Global, row: &[Cell]) -> Result<Response, AllocError>
    ensures { IfOk result (λ r. response_view r ≡ Record (shapes row.now)) }
{
    Ok(Response::Record(row.to_vec(alloc)?))
}
