//! What is read of a value whose bytes come in pieces.
ghost use Rattle.std.specs.Prelude.{◌≡◌, ◌⊎◌, ◌++◌, [], None, length, true, false, Ok, OnOk, OnErr, IfOk, ◌≤◌};
ghost use Rattle.packstream_incremental.specs.declared.progress.Part.TheVariants as part;
ghost use Rattle.packstream_incremental.specs.Heads.{AreTiny};
ghost use Rattle.packstream_incremental.specs.Frames.{HasRoom};
ghost use Rattle.packstream_incremental.specs.Piecewise.{nothing_read, Takes};
ghost use Rattle.packstream_incremental.specs.Holding.{holds, point, at_mark, mark_of, with_fault, Goes, IsStanding, IsKeeping, IsMark, HoldsOn, HasGrown, HasTaken, Answers};

use crate::open::Open;
use crate::read_fault::ReadFault;
use crate::texts::Texts;
use packstream::Reason;
use packstream::marker::marker_of;
use std::alloc::{AllocError, Global};

/// The part of a value or a key that isn't whole.
#[derive(Clone, Copy)]
pub(crate) enum Part {
    /// There is none.
    Nothing,
    /// A marker, and so many bytes of the number after it.
    Head { marker: u8, number: u64, has: usize },
    /// A marker and its number; of the bytes that come then, so many are missing.
    Body { marker: u8, number: u64, lacks: u64 },
}

/// What a reader knows beside its lists.
#[derive(Clone, Copy)]
pub(crate) struct Cursor {
    pub(crate) open: Open,
    pub(crate) part: Part,
    /// How many bytes were read, but those of the part.
    pub(crate) read: usize,
    pub(crate) bad: Option<(Reason, usize)>,
}

/// A point to return to: how many bytes and keys there were, and what stood beside them.
#[derive(Clone, Copy)]
pub(crate) struct Mark {
    pub(crate) store: usize,
    pub(crate) keys: usize,
    pub(crate) cursor: Cursor,
}

/// The bytes that were read, which of them are keys, and what is known beside them.
#[derive(Drop)]
pub(crate) struct Reading {
    pub(crate) alloc: Global,
    pub(crate) texts: Texts,
    pub(crate) cursor: Cursor,
}

impl Reading {
    pub(crate) fn new(alloc: Global) -> Reading
        ensures keeping { IsKeeping (holds result) }
        ensures point { point (holds result) ≡ nothing_read }
    {
        Reading {
            alloc,
            texts: Texts::new(alloc),
            cursor: Cursor {
                open: Open::new(),
                part: Part::Nothing,
                read: 0,
                bad: None,
            },
        }
    }

    /// Where it stands.
    pub(crate) fn mark(&self) -> Mark
        ensures { result ≡ mark_of (holds self.now) }
    {
        Mark {
            store: self.texts.len(),
            keys: self.texts.count(),
            cursor: self.cursor,
        }
    }

    /// Marks where it stands, instead of another mark.
    #[inline]
    pub(crate) fn mark_in(&self, mark: &mut Mark)
        ensures { IsMark (holds self.now) mark.new }
    {
        mark.store = self.texts.len();
        mark.keys = self.texts.count();
        mark.cursor.open.copy_from(&self.cursor.open);
        mark.cursor.part = self.cursor.part;
        mark.cursor.read = self.cursor.read;
        mark.cursor.bad = self.cursor.bad;
    }

    /// Goes back to a point where it stood.
    pub(crate) fn cut(&mut self, mark: &Mark)
        requires { IsKeeping (at_mark mark.now (holds self.old)) }
        ensures { holds self.new ≡ at_mark mark.now (holds self.old) }
    {
        self.texts.cut(mark.store, mark.keys);
        self.cursor = mark.cursor;
    }

    /// The fault that every continuation has, if that is known.
    pub(crate) fn bad(&self) -> Option<(Reason, usize)>
        ensures { result ≡ (holds self.now).cursor.bad }
    {
        self.cursor.bad
    }

    /// Every continuation has this fault at this place.
    pub(crate) fn turn_bad(&mut self, reason: Reason, place: usize)
        ensures { holds self.new ≡ with_fault reason place (holds self.old) }
    {
        self.cursor.bad = Some((reason, place));
    }

    /// The bytes that were read.
    pub(crate) fn bytes(&self) -> &[u8]
        ensures { result.now ≡ (holds self.now).store }
    {
        self.texts.bytes()
    }

    /// Takes a piece of the text or the byte string that isn't whole, where bytes of it are missing behind the piece too; or of
    /// members of a list or a structure that are integers of one byte each, if others are missing behind them; and
    /// answers whether it did. Else nothing changes.
    #[inline]
    #[tactic(auto, using(crate::proofs::Taking::part_of))]
    pub(crate) fn take_within(&mut self, piece: &[u8]) -> Result<bool, AllocError>
        requires { IsStanding (holds self.old) }
        ensures taken { result ≡ Ok true
            → ((holds self.old).cursor.bad ≡ None)
            × HasTaken ((holds self.old).store ++ piece.now) (holds self.new) [] }
        ensures grown { HasGrown (holds self.old) (holds self.new) }
        ensures other { result ≡ Ok false → self.new ≡ self.old }
        ensures err { OnErr result (self.new ≡ self.old) }
        ensures memory { OnErr result ((holds self.old).cursor.bad ≡ None) }
    {
        if self.cursor.bad.is_some() {
            return Ok(false);
        }
        match self.cursor.part {
            Part::Nothing => self.take_members(piece),
            Part::Head { .. } => Ok(false),
            Part::Body {
                marker,
                number,
                lacks,
            } => self.take_data(marker, number, lacks, piece),
        }
    }

    /// Takes a piece of integers of one byte each, if they are members of which others are missing behind them.
    #[inline]
    fn take_members(&mut self, piece: &[u8]) -> Result<bool, AllocError>
        requires stands { IsStanding (holds self.old) }
        requires none { (holds self.old).cursor.part ≡ part.Nothing }
        requires good { (holds self.old).cursor.bad ≡ None }
        ensures taken { result ≡ Ok true
            → HasTaken ((holds self.old).store ++ piece.now) (holds self.new) [] }
        ensures grown { HasGrown (holds self.old) (holds self.new) }
        ensures other { result ≡ Ok false → self.new ≡ self.old }
        ensures err { OnErr result (self.new ≡ self.old) }
    {
        let count = self.cursor.open.tiny_members(piece);
        if count == 0 || count < piece.len() {
            return Ok(false);
        }
        self.take_run(piece)?;
        Ok(true)
    }

    /// Takes a piece of the text or the byte string of this part, where bytes of it are missing behind the piece too.
    #[inline]
    fn take_data(
        &mut self,
        marker: u8,
        number: u64,
        lacks: u64,
        piece: &[u8],
    ) -> Result<bool, AllocError>
        requires goes { Goes (holds self.old) (part.Body marker number lacks) }
        requires good { (holds self.old).cursor.bad ≡ None }
        ensures taken { result ≡ Ok true
            → HasTaken ((holds self.old).store ++ piece.now) (holds self.new) [] }
        ensures grown { HasGrown (holds self.old) (holds self.new) }
        ensures other { result ≡ Ok false → self.new ≡ self.old }
        ensures err { OnErr result (self.new ≡ self.old) }
    {
        if piece.len() as u64 >= lacks {
            return Ok(false);
        }
        self.texts.extend(piece)?;
        self.cursor.part = Part::Body {
            marker,
            number,
            lacks: lacks - piece.len() as u64,
        };
        Ok(true)
    }

    /// Takes members that are integers of one byte each, of which others are missing behind them.
    #[inline]
    fn take_run(&mut self, run: &[u8]) -> Result<(), AllocError>
        requires goes { Goes (holds self.old) part.Nothing }
        requires good { (holds self.old).cursor.bad ≡ None }
        requires tiny { AreTiny run.now }
        requires room { HasRoom self.old.cursor.«open» (length run.now) }
        ensures taken { OnOk result
            (HasTaken ((holds self.old).store ++ run.now) (holds self.new) []) }
        ensures none { OnOk result ((holds self.new).cursor.part ≡ part.Nothing) }
        ensures grown { HasGrown (holds self.old) (holds self.new) }
        ensures err { OnErr result (self.new ≡ self.old) }
    {
        self.texts.extend(run)?;
        self.cursor.open.pass(run.len() as u64);
        self.end_here();
        Ok(())
    }

    /// Takes the piece; or, if a fault is in it, turns bad where the mark is. For want of memory it goes back there.
    #[inline]
    pub(crate) fn feed(&mut self, before: &Mark, piece: &[u8]) -> Result<(), AllocError>
        requires before { IsMark (holds self.old) before.now }
        requires keeping { IsKeeping (holds self.old) }
        requires good { (holds self.old).cursor.bad ≡ None }
        ensures here { OnOk result
            (Takes (point (holds self.old)) piece.now (point (holds self.new))) }
        ensures held { HoldsOn (holds self.old) (holds self.new) }
        ensures err { OnErr result (point (holds self.new) ≡ point (holds self.old)) }
    {
        match self.take(piece) {
            Ok(()) => Ok(()),
            Err(ReadFault::Memory) => {
                self.cut(before);
                Err(AllocError)
            }
            Err(ReadFault::Fault(reason, place)) => {
                self.cut(before);
                self.turn_bad(reason, place);
                Ok(())
            }
        }
    }

    /// Takes the piece, item by item. What it holds only grows.
    pub(crate) fn take(&mut self, piece: &[u8]) -> Result<(), ReadFault>
        requires keeping { IsKeeping (holds self.old) }
        requires good { (holds self.old).cursor.bad ≡ None }
        ensures told { Answers (λ x. []) result ((holds self.old).store ++ piece.now)
            (holds self.new) }
        ensures grown { HasGrown (holds self.old) (holds self.new) }
    {
        let after_part = self.take_part(piece)?;
        let mut rest = self.take_tiny(after_part)?;
        while let Some((&first, after)) = rest.split_first() {
            let after_item = self.take_item(first, after)?;
            rest = self.take_tiny(after_item)?;
        }
        Ok(())
    }

    /// Takes what the piece has of the part that isn't whole, and answers what follows it.
    fn take_part<'a>(&mut self, piece: &'a [u8]) -> Result<&'a [u8], ReadFault>
        requires stands { IsStanding (holds self.old) }
        requires good { (holds self.old).cursor.bad ≡ None }
        ensures told { Answers (λ x. x.now) result ((holds self.old).store ++ piece.now)
            (holds self.new) }
        ensures grown { HasGrown (holds self.old) (holds self.new) }
    {
        match self.cursor.part {
            Part::Nothing => Ok(piece),
            Part::Head {
                marker,
                number,
                has,
            } => {
                let Some(announced) = marker_of(marker) else {
                    unreachable!()
                };
                self.take_head(announced, marker, number, has, piece)
            }
            Part::Body {
                marker,
                number,
                lacks,
            } => {
                let Some(announced) = marker_of(marker) else {
                    unreachable!()
                };
                self.take_body(announced, marker, number, lacks, piece)
            }
        }
    }

    /// Takes members of an open list or structure that are integers of one byte each, as many as stand in a row and aren't
    /// its last, and answers what follows them.
    #[inline]
    fn take_tiny<'a>(&mut self, bytes: &'a [u8]) -> Result<&'a [u8], ReadFault>
        requires stands { IsStanding (holds self.old) }
        requires good { (holds self.old).cursor.bad ≡ None }
        requires ends { ((holds self.old).cursor.part ≡ part.Nothing) ⊎ (bytes.now ≡ []) }
        ensures told { Answers (λ x. x.now) result ((holds self.old).store ++ bytes.now)
            (holds self.new) }
        ensures shorter { IfOk result (λ x. length x.now ≤ length bytes.now) }
        ensures grown { HasGrown (holds self.old) (holds self.new) }
    {
        let count = self.cursor.open.tiny_members(bytes);
        if count == 0 {
            return Ok(bytes);
        }
        let (front, rest) = bytes.split_at(count);
        self.take_run(front)?;
        Ok(rest)
    }
}
