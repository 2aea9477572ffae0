//! The parts of a piece: headers, and data for the reader.
ghost use Rattle.std.specs.Prelude.{◌≡◌, ℕ, List, ◌<◌, ◌≤◌, length, None, true, false, IfOk, IfSome, OnOk, OnErr};
ghost use Rattle.wire.specs.Unfinished.{Unfinished};
ghost use Rattle.wire.specs.Items.{answer_from, wants_room};
ghost use Rattle.wire.specs.declared.parts.Part.TheVariants as part;
ghost use Rattle.wire.specs.Framing.{chunks as reader_of_chunks};
ghost use Rattle.wire.specs.Reader.{takes};
ghost use Rattle.wire.specs.Parts.{cut_at, IsData};
ghost use Rattle.wire.specs.Scanning.{with_data};
ghost use Rattle.packstream_incremental.specs.Piecewise.{Reads};
ghost use Rattle.messages_deframer.specs.Standing.{IsAt};
ghost use Rattle.messages_deframer.specs.Taking.{TakesAt};
ghost use Rattle.messages_deframer.specs.Scanning.{Scans};

use crate::brought::Brought;
use crate::readable::Readable;
use crate::whole_message::read_data;
use packstream_incremental::Reader;
use packstream_incremental::laws::reads_more;
use std::alloc::{AllocError, Global};
use wire::{Chunks, Cut, Part, Version};

/// The position in a stream of chunks, a reader of the data of the message that isn't whole, and whether a message was refused. Nothing is
/// read after that.
#[derive(Drop)]
pub(crate) struct Stream {
    pub chunks: Chunks,
    pub reader: Reader,
    pub is_over: bool,
}

impl Stream {
    /// The position behind a piece, if that is data alone.
    pub(crate) fn behind_data(&self, piece: &[u8]) -> Option<Chunks>
        ensures { IfSome result
            (λ behind. (self.now.is_over ≡ false) × IsData self.now.chunks piece.now behind) }
    {
        if self.is_over {
            return None;
        }
        self.chunks.behind_data(piece)
    }

    /// Takes a piece to the end of the item begun, else whole. After an `Err` the held point is as before.
    pub(crate) fn take<M: Readable>(
        &mut self,
        alloc: Global,
        version: Version,
        piece: &[u8],
    ) -> Result<(usize, Brought<M>), AllocError>
        requires over { self.old.is_over ≡ false }
        requires going { self.old.chunks.too_big ≡ false }
        ensures ok { (u : Unfinished) → IsAt self.old u
            → IfOk result (λ t. TakesAt (M.reads version) (takes reader_of_chunks u piece.now) t.0
            t.1 self.new) }
        ensures within { IfOk result (λ t. t.0 ≤ length piece.now) }
        ensures some { 0 < length piece.now → IfOk result (λ t. 0 < t.0) }
        ensures going { OnOk result (self.new.is_over ≡ false → self.new.chunks.too_big ≡ false) }
        ensures held { OnErr result (self.new.reader.held ≡ self.old.reader.held) }
        ensures over { OnErr result (self.new.is_over ≡ false) }
        ensures good { OnErr result (self.old.reader.here.bad ≡ None) }
        ensures room { (u : Unfinished) → IsAt self.old u
            → OnErr result (wants_room (length u.body) (answer_from u piece.now) ≡ true) }
    {
        let Cut { used, what } = self.scan(piece)?;
        match what {
            Part::Head | Part::Data => Ok((used, Brought::Nothing)),
            Part::Noop => Ok((used, Brought::Noop)),
            Part::End => {
                let message = read_data(alloc, version, &self.reader)?;
                self.reader = Reader::new(alloc);
                Ok((used, message))
            }
            Part::TooBig => {
                self.is_over = true;
                Ok((used, Brought::TooBig))
            }
        }
    }

    /// Takes a piece to the end of the item begun, else whole: how many bytes were used, and what the last of them are.
    fn scan(&mut self, piece: &[u8]) -> Result<Cut, AllocError>
        requires over { self.old.is_over ≡ false }
        requires going { self.old.chunks.too_big ≡ false }
        ensures ok { (u : Unfinished) → IsAt self.old u
            → IfOk result (λ cut. Scans u piece.now cut self.new) }
        ensures within { IfOk result (λ cut. cut.used ≤ length piece.now) }
        ensures some { 0 < length piece.now → IfOk result (λ cut. 0 < cut.used) }
        ensures going { IfOk result
            (λ cut. (cut.what ≡ part.TooBig → ⊥) → self.new.chunks.too_big ≡ false) }
        ensures held { self.new.reader.held ≡ self.old.reader.held }
        ensures over { self.new.is_over ≡ self.old.is_over }
        ensures good { OnOk result
            (self.new.reader.here.bad ≡ None → self.old.reader.here.bad ≡ None) }
        ensures memory { OnErr result (self.old.reader.here.bad ≡ None) }
        ensures room { (u : Unfinished) → IsAt self.old u
            → OnErr result (wants_room (length u.body) (answer_from u piece.now) ≡ true) }
    {
        let mut used = 0;
        while used < piece.len() {
            let cut = self.next(&piece[used..])?;
            used += cut.used;
            match cut.what {
                Part::Head | Part::Data => {}
                what => return Ok(Cut { used, what }),
            }
        }
        Ok(Cut {
            used,
            what: Part::Head,
        })
    }

    /// Takes what is of one kind at the front of a piece; data goes to the reader.
    fn next(&mut self, piece: &[u8]) -> Result<Cut, AllocError>
        ensures cut { IfOk result
            (λ cut. (cut ≡ (cut_at self.old.chunks piece.now).cut)
            × (self.new.chunks ≡ (cut_at self.old.chunks piece.now).place)) }
        ensures within { IfOk result (λ cut. cut.used ≤ length piece.now) }
        ensures reads { (body : List ℕ) → Reads self.old.reader.here body
            → IfOk result (λ cut. Reads self.new.reader.here
            (with_data cut.what cut.used piece.now body)) }
        ensures held { self.new.reader.held ≡ self.old.reader.held }
        ensures over { self.new.is_over ≡ self.old.is_over }
        ensures good { OnOk result
            (self.new.reader.here.bad ≡ None → self.old.reader.here.bad ≡ None) }
        ensures memory { OnErr result (self.old.reader.here.bad ≡ None) }
        ensures data { OnErr result ((cut_at self.old.chunks piece.now).cut.what ≡ part.Data) }
    {
        reads_more();
        let cut = self.chunks.next(piece);
        if let Part::Data = cut.what {
            self.reader.feed(&piece[..cut.used])?;
        }
        Ok(cut)
    }
}
