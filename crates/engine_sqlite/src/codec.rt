//! Writes as bytes: of each its key and its value, in their shortest spellings, one after the other.
ghost use Rattle.std.specs.Prelude.{◌≡◌, string_bytes, IfOk, IfSome, OnOk};
ghost use Rattle.structures_cells.specs.Shape.{shape};
ghost use Rattle.engine.specs.Views.{write_view, writes_view};
ghost use Rattle.packstream.specs.Good.{IsGood};
ghost use Rattle.packstream.specs.Tree.{text};
ghost use Rattle.packstream.specs.View.{tree};
ghost use Rattle.engine_sqlite.specs.Spelled.{AddsSpelling, AddsWrite, HasForm, SpellsWrites, TakesValue, TakesWrite};

use bytes::BytesMut;
use engine::Write;
use packstream::{PackFault, Packed, Value, decode_front, encode};
use std::alloc::{AllocError, Global};
use structures::{Cell, CellFault, read, write};
use wire::Version;

/// Why writes have no bytes.
#[derive(Clone, Copy)]
pub(crate) enum Unstored {
    Memory,
    /// A cell has no form at any version, or takes more than 65,536 bytes.
    Unfit,
}

impl From<AllocError> for Unstored {
    fn from(_error: AllocError) -> Unstored {
        Unstored::Memory
    }
}

fn put(out: &mut BytesMut, packed: &Packed) -> Result<(), Unstored>
    ensures { OnOk result (AddsSpelling packed.now out.old.items out.new.items) }
{
    match encode(packed, out) {
        Ok(()) => Ok(()),
        Err(PackFault::Memory) => Err(Unstored::Memory),
        Err(_) => Err(Unstored::Unfit),
    }
}

fn put_key(out: &mut BytesMut, key: &String) -> Result<(), Unstored>
    ensures { OnOk result (AddsSpelling (text (string_bytes key.now)) out.old.items out.new.items) }
{
    let Ok(packed) = Packed::new(Value::Text(key.clone()?)) else {
        return Err(Unstored::Unfit);
    };
    put(out, &packed)
}

/// The value of a cell in the form of the newest version that has one for it: a node that came without element ids has none at the newest.
fn form_of(alloc: Global, cell: &Cell) -> Result<Packed, Unstored>
    ensures { IfOk result (HasForm (shape cell.now)) }
{
    match write(alloc, Version::V51, cell) {
        Ok(packed) => return Ok(packed),
        Err(CellFault::Memory) => return Err(Unstored::Memory),
        Err(_) => {}
    }
    match write(alloc, Version::V44, cell) {
        Ok(packed) => Ok(packed),
        Err(CellFault::Memory) => Err(Unstored::Memory),
        Err(_) => Err(Unstored::Unfit),
    }
}

fn put_write(alloc: Global, out: &mut BytesMut, write: &Write) -> Result<(), Unstored>
    ensures { OnOk result (AddsWrite (write_view write.now) out.old.items out.new.items) }
{
    let value = form_of(alloc, &write.value)?;
    put_key(out, &write.key)?;
    put(out, &value)?;
    Ok(())
}

/// The bytes of writes.
#[tactic(auto, using(crate::proofs::Spelling::next_write))]
pub(crate) fn bytes_of(alloc: Global, writes: &[Write]) -> Result<BytesMut, Unstored>
    ensures { IfOk result (λ bytes. SpellsWrites (writes_view writes.now) bytes.items) }
{
    let mut out = BytesMut::new(alloc);
    for write in writes {
        put_write(alloc, &mut out, write)?;
    }
    Ok(out)
}

/// Why bytes are no writes.
#[derive(Clone, Copy)]
pub(crate) enum Unread {
    Memory,
    NoWrites,
}

fn take_value(alloc: Global, bytes: &[u8]) -> Result<(Packed, &[u8]), Unread>
    ensures { IfOk result (λ r. TakesValue r.0 bytes.now r.1.now) }
{
    match decode_front(alloc, bytes) {
        Ok((packed, count)) => Ok((packed, &bytes[count..])),
        Err(PackFault::Memory) => Err(Unread::Memory),
        Err(_) => Err(Unread::NoWrites),
    }
}

fn key_of(value: Value) -> Result<String, Unread>
    ensures { IfOk result (λ key. tree value ≡ text (string_bytes key)) }
{
    match value {
        Value::Text(key) => Ok(key),
        _ => Err(Unread::NoWrites),
    }
}

fn cell_at(alloc: Global, version: Version, packed: &Packed) -> Result<Option<Cell>, Unread>
    requires { IsGood packed.now }
    ensures { IfOk result (λ found. IfSome found (λ cell. HasForm (shape cell) packed.now)) }
{
    match read(alloc, version, packed) {
        Ok(cell) => Ok(Some(cell)),
        Err(CellFault::Memory) => Err(Unread::Memory),
        Err(_) => Ok(None),
    }
}

/// The cell of a value that has the form of any version: it is one cell at each.
fn cell_of(alloc: Global, packed: &Packed) -> Result<Cell, Unread>
    requires { IsGood packed.now }
    ensures { IfOk result (λ cell. HasForm (shape cell) packed.now) }
{
    if let Some(cell) = cell_at(alloc, Version::V51, packed)? {
        return Ok(cell);
    }
    match cell_at(alloc, Version::V44, packed)? {
        Some(cell) => Ok(cell),
        None => Err(Unread::NoWrites),
    }
}

fn take_write(alloc: Global, bytes: &[u8]) -> Result<(Write, &[u8]), Unread>
    ensures { IfOk result (λ r. TakesWrite (write_view r.0) bytes.now r.1.now) }
{
    let (key, rest) = take_value(alloc, bytes)?;
    let key = key_of(key.into_value())?;
    let (value, rest) = take_value(alloc, rest)?;
    let value = cell_of(alloc, &value)?;
    Ok((Write { key, value }, rest))
}

/// The writes that bytes spell.
pub(crate) fn writes_of(alloc: Global, bytes: &[u8]) -> Result<Vec<Write>, Unread>
    ensures { IfOk result (λ writes. SpellsWrites (writes_view writes.items) bytes.now) }
{
    let mut writes = Vec::new(alloc);
    let mut rest = bytes;
    for _ in 0..bytes.len() {
        if rest.is_empty() {
            break;
        }
        let (write, behind) = take_write(alloc, rest)?;
        if writes.push(write).is_err() {
            return Err(Unread::Memory);
        }
        rest = behind;
    }
    if !rest.is_empty() {
        return Err(Unread::NoWrites);
    }
    Ok(writes)
}
