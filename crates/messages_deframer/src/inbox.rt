//! What an end keeps of a stream of chunks.
ghost use Rattle.std.specs.Prelude.{◌≡◌, false};

use crate::begun::Begun;
use crate::brought::Brought;
use crate::readable::Readable;
use crate::stream::Stream;
use packstream_incremental::Reader;
use packstream_incremental::laws::{good_may_go_on, reads_more, reads_nothing};
use std::alloc::{AllocError, Global};
use std::marker::Model;
use wire::{Chunks, Version};

/// What has come of the message that isn't whole: the position in the chunks, and what was read of its data. A contract sees the item.
#[derive(Drop)]
pub struct Inbox {
    stream: Stream,
    begun: Begun,
}

impl Model for Inbox {
    ghost use Rattle.wire.specs.Unfinished.{Unfinished};
    ghost use Rattle.messages_deframer.specs.Standing.{IsKept};

    ghost Value = { Unfinished };

    ghost view = { λ a. a.begun.item };

    ghost invariant = { λ a. IsKept a.stream a.begun.item };
}

impl Inbox {
    ghost use Rattle.std.specs.Prelude.{ℕ, List, ◌<◌, ◌≤◌, ◌+◌, ◌↔◌, length, true, Ok, Some, option_map, IfOk, IfSome, OnErr};
    ghost use Rattle.wire.specs.Unfinished.{Unfinished, fresh};
    ghost use Rattle.wire.specs.Texts.{BeginsWith};
    ghost use Rattle.wire.specs.Framing.{chunks};
    ghost use Rattle.wire.specs.Reader.{takes};
    ghost use Rattle.packstream_incremental.specs.Piecewise.{Reads};
    ghost use Rattle.messages_deframer.specs.Taking.{Takes, used_up, whole_message, WantsRoom};

    /// Before the first byte of the chunks. Takes no memory.
    pub fn new(alloc: Global) -> Inbox
        ensures { result ≡ fresh }
    {
        reads_nothing();
        Inbox {
            stream: Stream {
                chunks: Chunks::new(),
                reader: Reader::new(alloc),
                is_over: false,
            },
            begun: Begun::new(),
        }
    }

    /// Takes a piece that is data of one chunk alone, and answers whether it is; else nothing changes. `Err` is want of memory, and changes
    /// nothing; a message that is known to be bad takes none.
    #[inline(always)]
    pub fn take_data(&mut self, piece: &[u8]) -> Result<bool, AllocError>
        ensures data { result ≡ Ok true
            → takes chunks self.old piece.now ≡ used_up piece.now self.new }
        ensures other { result ≡ Ok false → self.new ≡ self.old }
        ensures err { OnErr result ((self.new ≡ self.old) × WantsRoom self.old piece.now) }
    {
        reads_more();
        good_may_go_on(&self.stream.reader);
        let Some(behind) = self.stream.behind_data(piece) else {
            return Ok(false);
        };
        self.stream.reader.advance(piece)?;
        self.stream.chunks = behind;
        self.begun.take(piece);
        Ok(true)
    }

    /// Lends the message that the piece begins with, exactly if no item is begun and it is there whole, in one chunk. Nothing is taken:
    /// behind the message, which takes four bytes more than it has, the inbox stands as before it. Takes no memory.
    #[inline]
    pub fn message_in<'a>(&self, piece: &'a [u8]) -> Option<&'a [u8]>
        ensures lends { (m : List ℕ) → (option_map (λ d. d.now) result ≡ Some m)
            ↔ ((self.now ≡ fresh) × BeginsWith m piece.now) }
        ensures takes { IfSome result (λ m. takes chunks self.now piece.now ≡ whole_message m.now self.now) }
        ensures room { IfSome result (λ _. WantsRoom self.now piece.now) }
        ensures within { IfSome result (λ m. length m.now + 4 ≤ length piece.now) }
    {
        if self.stream.is_over {
            return None;
        }
        self.stream.chunks.message_in(piece)
    }

    /// Takes a piece to the end of the item begun, a no-op or a message, else all of it; and answers how many bytes were used and what ended
    /// with the last of them. After a message past 65,536 bytes nothing ends any more.
    ///
    /// `Err` is want of memory, and changes nothing. Memory is wanted where data of the piece is kept and where a message ends: never for
    /// headers and no-ops, and never once the message that isn't whole is known to be bad.
    pub fn take<M: Readable>(
        &mut self,
        alloc: Global,
        version: Version,
        piece: &[u8],
    ) -> Result<(usize, Brought<M>), AllocError>
        ensures ok { IfOk result
            (λ t. Takes (M.reads version) (takes chunks self.old piece.now) t.0 t.1 self.new) }
        ensures within { IfOk result (λ t. t.0 ≤ length piece.now) }
        ensures some { 0 < length piece.now → IfOk result (λ t. 0 < t.0) }
        ensures err { OnErr result ((self.new ≡ self.old) × WantsRoom self.old piece.now) }
    {
        if self.stream.is_over {
            self.begun.take(piece);
            return Ok((piece.len(), Brought::Nothing));
        }
        self.take_parts(alloc, version, piece)
    }

    /// Takes a piece part by part. For want of memory the position is put back, and the reader returns to the point that it holds.
    fn take_parts<M: Readable>(
        &mut self,
        alloc: Global,
        version: Version,
        piece: &[u8],
    ) -> Result<(usize, Brought<M>), AllocError>
        requires { self.old.too_big ≡ false }
        ensures ok { IfOk result
            (λ t. Takes (M.reads version) (takes chunks self.old piece.now) t.0 t.1 self.new) }
        ensures within { IfOk result (λ t. t.0 ≤ length piece.now) }
        ensures some { 0 < length piece.now → IfOk result (λ t. 0 < t.0) }
        ensures err { OnErr result ((self.new ≡ self.old) × WantsRoom self.old piece.now) }
    {
        good_may_go_on(&self.stream.reader);
        let place = self.stream.chunks;
        let Ok(taken) = self.stream.take(alloc, version, piece) else {
            self.stream.chunks = place;
            self.stream.reader.back();
            return Err(AllocError);
        };
        self.stream.reader.hold();
        self.begun.take(piece);
        Ok(taken)
    }

    /// Returns true if a message passed 65,536 bytes: nothing ends any more. Takes no memory.
    pub fn is_over(&self) -> bool
        ensures { result ≡ self.now.too_big }
    {
        self.stream.is_over
    }

    /// What was read of the message that isn't whole: its data, or a fault that each continuation of them has. The point that it holds is
    /// where it stands. Takes no memory.
    pub fn reader(&self) -> &Reader
        ensures data { Reads result.now.here self.now.body }
        ensures held { result.now.held ≡ result.now.here }
    {
        &self.stream.reader
    }
}
