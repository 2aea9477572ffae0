//! Whole messages and no-ops out of a stream of chunks ("Bolt message chunking").

ghost use Rattle.std.specs.Prelude.{◌≡◌, ◌+◌, ◌-◌, ◌<◌, ◌≤◌, [], length, take, false, true, IfOk, IsErr, IfErr, IsErrOf, OnOk, OnErr};
ghost use Rattle.wire.specs.Unfinished.{Unfinished, fresh, unfinished_at};
ghost use Rattle.wire.specs.Items.{item_of, IsSized, Answers, wants_room, answer_from, answer_to};
ghost use Rattle.wire.specs.Stream.{used_of};
ghost use Rattle.wire.specs.Whole.{kept_bytes};
ghost use Rattle.wire.specs.Scanning.{Holds, Taken, After, Scanned, Stops, used_by};
ghost use Rattle.wire.specs.Limits.{max_message};

use crate::faults::WireFault;
use crate::parts::{Chunks, Cut, Part};
use bytes::{Bytes, BytesMut};
use std::alloc::{AllocError, Global};
use std::marker::Model;

/// What ended with the last byte that was used.
#[derive(Drop)]
pub enum Piece {
    /// Nothing: the piece is used up.
    Nothing,
    /// A no-op, two zero bytes between messages.
    Noop,
    /// The data of a message, at least one byte.
    Message(Bytes),
}

/// How many bytes of a piece were used, and what ended with the last of them.
#[derive(Drop)]
pub struct Fed {
    pub used: usize,
    pub what: Piece,
}

/// Reads a stream of chunks in pieces. It holds what came of the message that isn't whole.
#[derive(Drop)]
pub struct Dechunk {
    body: BytesMut,
    chunks: Chunks,
}

impl Model for Dechunk {
    ghost use Rattle.std.specs.Prelude.{◌≡◌, ◌+◌, ◌≤◌, length};
    ghost use Rattle.wire.specs.Unfinished.{Unfinished, unfinished_at};
    ghost use Rattle.wire.specs.Limits.{max_message};

    ghost Value = { Unfinished };

    ghost view = { λ d. unfinished_at d.chunks d.body.items };

    ghost invariant = { λ d. (d.chunks.sum ≡ length d.body.items + d.chunks.lacks) × (d.chunks.sum ≤ max_message) };
}

impl Dechunk {
    /// At the start of a stream. Takes no memory.
    pub fn new(alloc: Global) -> Dechunk
        ensures { result ≡ fresh }
    {
        Dechunk {
            body: BytesMut::new(alloc),
            chunks: Chunks::new(),
        }
    }

    /// An equal one, or X2.
    pub fn clone(&self) -> Result<Dechunk, WireFault>
        ensures ok { IfOk result (λ d. d ≡ self.now) }
        ensures err { IfErr result (λ e. e ≡ WireFault.Memory) }
    {
        let Ok(body) = self.body.clone() else {
            return Err(WireFault::Memory);
        };
        Ok(Dechunk {
            body,
            chunks: self.chunks,
        })
    }

    /// Uses the piece to the end of the item begun, a no-op or a message, and hands that out; else all of the piece.
    ///
    /// X1 exactly at the header that takes a message past 65,536 bytes, with the bytes used to that header's end, and from then on
    /// with 0 used, taking no memory. X2 for want of memory: nothing was used, nothing has changed. Memory is wanted where data of the
    /// piece is kept or a message handed out, never for headers and no-ops.
    #[tactic(auto, using(crate::proofs::Limits::header_one))]
    pub fn feed(&mut self, piece: &[u8]) -> Result<Fed, WireFault>
        ensures answer { Answers self.old piece.now result self.new }
        ensures bounded { length self.new.body + self.new.lacks ≤ max_message }
        ensures few { kept_bytes self.new ≤ max_message + 1 }
        ensures within { used_of result ≤ length piece.now }
        ensures sized { IfOk result (λ fed. IsSized fed.what) }
        ensures memory { IsErrOf result WireFault.Memory → self.old.too_big ≡ false }
        ensures room { IsErrOf result WireFault.Memory
            → wants_room (length self.old.body) (answer_to self.old piece.now) ≡ true }
    {
        if self.chunks.is_too_big() {
            return Err(WireFault::TooBig { used: 0 });
        }
        let (len, chunks) = (self.body.len(), self.chunks);
        match scan_piece(&mut self.body, &mut self.chunks, piece) {
            Err(_) => {
                self.body.truncate(len);
                self.chunks = chunks;
                Err(WireFault::Memory)
            }
            Ok(Scan::Nothing) => Ok(Fed {
                used: piece.len(),
                what: Piece::Nothing,
            }),
            Ok(Scan::TooBig(used)) => Err(WireFault::TooBig { used }),
            Ok(Scan::Item(used)) => match end_item(&mut self.body) {
                Ok(what) => Ok(Fed { used, what }),
                Err(_) => {
                    self.body.truncate(len);
                    self.chunks = chunks;
                    Err(WireFault::Memory)
                }
            },
        }
    }
}

/// How far a scan of a piece came.
enum Scan {
    /// The piece was used up.
    Nothing,
    /// An item ends after so many bytes.
    Item(usize),
    TooBig(usize),
}

/// Takes the bytes up to the end of the item. If there is no memory for its data, what was there before stays in front.
fn scan_piece(body: &mut BytesMut, chunks: &mut Chunks, piece: &[u8]) -> Result<Scan, AllocError>
    requires holds { Holds body.old.items chunks.old }
    requires going { chunks.old.too_big ≡ false }
    ensures scanned { IfOk result
        (λ scan. Scanned (unfinished_at chunks.old body.old.items) piece.now scan
        (unfinished_at chunks.new body.new.items)) }
    ensures within { IfOk result (λ scan. used_by scan (length piece.now) ≤ length piece.now) }
    ensures holds { IfOk result (λ scan. Stops scan body.new.items chunks.new) }
    ensures room { IsErr result
        → wants_room (length body.old.items)
        (answer_from (unfinished_at chunks.old body.old.items) piece.now) ≡ true }
    ensures kept { take (length body.old.items) body.new.items ≡ body.old.items }
{
    let mut used = 0;
    while used < piece.len() {
        let cut = take_part(body, chunks, &piece[used..])?;
        used += cut.used;
        match cut.what {
            Part::Head | Part::Data => {}
            Part::Noop | Part::End => return Ok(Scan::Item(used)),
            Part::TooBig => return Ok(Scan::TooBig(used)),
        }
    }
    Ok(Scan::Nothing)
}

/// Takes one part, with its data. Room is made for the data of one chunk that the piece holds, and for nothing else.
#[tactic(auto, using(crate::proofs::Cuts::took_data, crate::proofs::Room::part_wants))]
fn take_part(body: &mut BytesMut, chunks: &mut Chunks, piece: &[u8]) -> Result<Cut, AllocError>
    requires some { 0 < length piece.now }
    requires holds { Holds body.old.items chunks.old }
    requires going { chunks.old.too_big ≡ false }
    ensures took { IfOk result
        (λ cut. Taken (unfinished_at chunks.old body.old.items) piece.now cut.used cut.what
        (unfinished_at chunks.new body.new.items)) }
    ensures within { IfOk result (λ cut. cut.used ≤ length piece.now) }
    ensures after { IfOk result (λ cut. After cut.what chunks.new body.new.items) }
    ensures room { IsErr result
        → wants_room (length body.old.items)
        (answer_from (unfinished_at chunks.old body.old.items) piece.now) ≡ true }
    ensures kept { take (length body.old.items) body.new.items ≡ body.old.items }
{
    let cut = chunks.next(piece);
    let Part::Data = cut.what else {
        return Ok(cut);
    };
    body.extend_from_slice(&piece[..cut.used])?;
    Ok(cut)
}

/// Hands out the item that has ended.
fn end_item(body: &mut BytesMut) -> Result<Piece, AllocError>
    ensures ok { IfOk result (λ what. what ≡ item_of body.old.items) }
    ensures sized { length body.old.items ≤ max_message → IfOk result IsSized }
    ensures empty { OnOk result (body.new.items ≡ []) }
    ensures err { OnErr result (body.new.items ≡ body.old.items) }
    ensures some { IsErr result → 0 < length body.old.items }
{
    if body.is_empty() {
        return Ok(Piece::Noop);
    }
    Ok(Piece::Message(body.freeze_to(body.len())?))
}
