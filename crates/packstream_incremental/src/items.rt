//! The items of a piece: a head, a text or a byte string, and what an item that is whole ends or opens.
ghost use Rattle.std.specs.Prelude.{◌≡◌, ◌+◌, ◌++◌, ◌∷◌, List, None, length, drop, is_some, true, Ok, IfOk, ◌≤◌};
ghost use Rattle.std.specs.Str.{IsUtf8};
ghost use Rattle.packstream.specs.Markers.{marker as marker_at};
ghost use Rattle.packstream.specs.Plain.{AreBytes};
ghost use Rattle.packstream.specs.declared.marker.Marker.TheVariants as announces;
ghost use Rattle.packstream_incremental.specs.declared.progress.Part.TheVariants as part;
ghost use Rattle.packstream_incremental.specs.Heads.{size_with};
ghost use Rattle.packstream_incremental.specs.Frames.{Frame, AreLevels, place};
ghost use Rattle.packstream_incremental.specs.Holding.{holds, with_item, Goes, IsStanding, IsValue, IsListOf, HasGrown, Answers};

use crate::head::{body_len, field_len, join, size_in};
use crate::progress::{Part, Reading};
use crate::read_fault::ReadFault;
use packstream::Reason;
use packstream::marker::{Marker, Size, marker_of};
use simdutf8::basic::from_utf8;

impl Reading {
    /// Takes an item of which this is the marker, and answers what follows it.
    #[inline]
    pub(crate) fn take_item<'a>(
        &mut self,
        marker: u8,
        bytes: &'a [u8],
    ) -> Result<&'a [u8], ReadFault>
        requires stands { IsStanding (holds self.old) }
        requires good { (holds self.old).cursor.bad ≡ None }
        requires none { (holds self.old).cursor.part ≡ part.Nothing }
        requires bytes { AreBytes (holds self.old).store }
        ensures told { Answers (λ x. x.now) result ((holds self.old).store ++ marker ∷ bytes.now)
            (holds self.new) }
        ensures shorter { IfOk result (λ x. length x.now ≤ length bytes.now) }
        ensures grown { HasGrown (holds self.old) (holds self.new) }
    {
        let place = self.cursor.read;
        if self.cursor.open.is_whole() {
            return Err(ReadFault::Fault(Reason::Trailing, place));
        }
        let Some(announced) = marker_of(marker) else {
            return Err(ReadFault::Fault(Reason::Marker, place));
        };
        if let Some(reason) = self.cursor.open.refuses(announced) {
            return Err(ReadFault::Fault(reason, place));
        }
        self.texts.extend(&[marker])?;
        self.take_head(announced, marker, 0, 0, bytes)
    }

    /// Takes what follows a marker and so many bytes of its number.
    #[inline]
    pub(crate) fn take_head<'a>(
        &mut self,
        announced: Marker,
        marker: u8,
        number: u64,
        has: usize,
        bytes: &'a [u8],
    ) -> Result<&'a [u8], ReadFault>
        requires announced { marker_at marker ≡ Some announced }
        requires goes { Goes (holds self.old) (part.Head marker number has) }
        requires good { (holds self.old).cursor.bad ≡ None }
        ensures told { Answers (λ x. x.now) result
            ((holds self.old).store ++ bytes.now)
            (holds self.new) }
        ensures shorter { IfOk result (λ x. length x.now ≤ length bytes.now) }
        ensures grown { HasGrown (holds self.old) (holds self.new) }
    {
        let lacks = field_len(announced) - has;
        if bytes.len() < lacks {
            self.texts.extend(bytes)?;
            self.cursor.part = Part::Head {
                marker,
                number: join(number, bytes),
                has: has + bytes.len(),
            };
            return Ok(&[]);
        }
        let (front, rest) = bytes.split_at(lacks);
        self.texts.extend(front)?;
        let number = join(number, front);
        self.take_body(announced, marker, number, body_len(announced, number), rest)
    }

    /// Takes what follows a head, if so many bytes of its text or byte string are missing.
    #[inline]
    pub(crate) fn take_body<'a>(
        &mut self,
        announced: Marker,
        marker: u8,
        number: u64,
        lacks: u64,
        bytes: &'a [u8],
    ) -> Result<&'a [u8], ReadFault>
        requires announced { marker_at marker ≡ Some announced }
        requires goes { Goes (holds self.old) (part.Body marker number lacks) }
        requires good { (holds self.old).cursor.bad ≡ None }
        ensures told { Answers (λ x. x.now) result
            ((holds self.old).store ++ bytes.now)
            (holds self.new) }
        ensures shorter { IfOk result (λ x. length x.now ≤ length bytes.now) }
        ensures grown { HasGrown (holds self.old) (holds self.new) }
    {
        if lacks == 0 {
            return self.end_item(announced, marker, number, bytes);
        }
        if (bytes.len() as u64) < lacks {
            self.texts.extend(bytes)?;
            self.cursor.part = Part::Body {
                marker,
                number,
                lacks: lacks - bytes.len() as u64,
            };
            return Ok(&[]);
        }
        let (front, rest) = bytes.split_at(lacks as usize);
        self.texts.extend(front)?;
        self.end_item(announced, marker, number, rest)
    }

    /// Ends an item of which all bytes are there, and answers what follows it.
    #[inline]
    #[tactic(auto, using(crate::proofs::Values::plain_value))]
    fn end_item<'a>(
        &mut self,
        announced: Marker,
        marker: u8,
        number: u64,
        rest: &'a [u8],
    ) -> Result<&'a [u8], ReadFault>
        requires announced { marker_at marker ≡ Some announced }
        requires goes { Goes (holds self.old) (part.Body marker number 0) }
        requires good { (holds self.old).cursor.bad ≡ None }
        ensures told { Answers (λ x. x.now) result
            ((holds self.old).store ++ rest.now)
            (holds self.new) }
        ensures after { IfOk result (λ x. x.now ≡ rest.now) }
        ensures grown { HasGrown (holds self.old) (holds self.new) }
    {
        match announced {
            Marker::Text(size) => self.end_text(size, marker, number, rest),
            Marker::List(size) => self.end_list(
                announced,
                marker,
                number,
                size_in(size, number),
                rest,
            ),
            Marker::Struct(count) => self.end_list(announced, marker, number, count, rest),
            Marker::Dict(size) => self.end_dict(size, marker, number, rest),
            _ => self.end_value(announced, marker, number, rest),
        }
    }

    /// Ends a text, or a key.
    fn end_text<'a>(
        &mut self,
        size: Size,
        marker: u8,
        number: u64,
        rest: &'a [u8],
    ) -> Result<&'a [u8], ReadFault>
        requires announced { marker_at marker ≡ Some (announces.Text size) }
        requires goes { Goes (holds self.old) (part.Body marker number 0) }
        requires good { (holds self.old).cursor.bad ≡ None }
        ensures told { Answers (λ x. x.now) result
            ((holds self.old).store ++ rest.now)
            (holds self.new) }
        ensures after { IfOk result (λ x. x.now ≡ rest.now) }
        ensures grown { HasGrown (holds self.old) (holds self.new) }
    {
        let start = self.texts.len() - size_in(size, number) as usize;
        let text = &self.texts.bytes()[start..];
        let Ok(_) = from_utf8(text) else {
            return Err(ReadFault::Fault(Reason::Utf8, self.cursor.read));
        };
        if self.cursor.open.waits_for_key() {
            return self.end_key(size, marker, number, start, rest);
        }
        self.end_value(Marker::Text(size), marker, number, rest)
    }

    /// Ends a key, which is to be none of its dictionary's yet.
    fn end_key<'a>(
        &mut self,
        size: Size,
        marker: u8,
        number: u64,
        start: usize,
        rest: &'a [u8],
    ) -> Result<&'a [u8], ReadFault>
        requires announced { marker_at marker ≡ Some (announces.Text size) }
        requires goes { Goes (holds self.old) (part.Body marker number 0) }
        requires start { start + size_with size number ≡ length (holds self.old).store }
        requires text { IsUtf8 (drop start (holds self.old).store) }
        requires key { (fs : List Frame)
            → AreLevels fs (holds self.old).cursor.«open».depth
            (holds self.old).cursor.«open».around → is_some (place fs).key ≡ true }
        requires good { (holds self.old).cursor.bad ≡ None }
        ensures told { Answers (λ x. x.now) result
            ((holds self.old).store ++ rest.now)
            (holds self.new) }
        ensures after { IfOk result (λ x. x.now ≡ rest.now) }
        ensures grown { HasGrown (holds self.old) (holds self.new) }
    {
        let first = self.cursor.open.keys();
        let is_new = self.texts.join(first, start)?;
        if !is_new {
            return Err(ReadFault::Fault(Reason::KeyTwice, self.cursor.read));
        }
        self.end_here();
        self.cursor.open.key_ends();
        Ok(rest)
    }

    /// Ends a value without members, that isn't a key.
    fn end_value<'a>(
        &mut self,
        announced: Marker,
        marker: u8,
        number: u64,
        rest: &'a [u8],
    ) -> Result<&'a [u8], ReadFault>
        requires announced { marker_at marker ≡ Some announced }
        requires goes { Goes (holds self.old) (part.Body marker number 0) }
        requires value { IsValue (holds self.old) marker number }
        requires good { (holds self.old).cursor.bad ≡ None }
        ensures told { Answers (λ x. x.now) result
            ((holds self.old).store ++ rest.now)
            (holds self.new) }
        ensures after { IfOk result (λ x. x.now ≡ rest.now) }
        ensures grown { HasGrown (holds self.old) (holds self.new) }
    {
        self.end_here();
        self.cursor.open.value_ends();
        Ok(rest)
    }

    /// Ends the head of a list or a structure, to have so many members.
    #[tactic(auto, using(crate::proofs::Values::list_value))]
    fn end_list<'a>(
        &mut self,
        announced: Marker,
        marker: u8,
        number: u64,
        count: u64,
        rest: &'a [u8],
    ) -> Result<&'a [u8], ReadFault>
        requires announced { marker_at marker ≡ Some announced }
        requires list { IsListOf announced number count }
        requires goes { Goes (holds self.old) (part.Body marker number 0) }
        requires good { (holds self.old).cursor.bad ≡ None }
        ensures told { Answers (λ x. x.now) result
            ((holds self.old).store ++ rest.now)
            (holds self.new) }
        ensures after { IfOk result (λ x. x.now ≡ rest.now) }
        ensures grown { HasGrown (holds self.old) (holds self.new) }
    {
        if count == 0 {
            return self.end_value(announced, marker, number, rest);
        }
        self.end_here();
        self.cursor.open.open(count);
        Ok(rest)
    }

    /// Ends the head of a dictionary.
    #[tactic(auto, using(crate::proofs::Values::dict_value))]
    fn end_dict<'a>(
        &mut self,
        size: Size,
        marker: u8,
        number: u64,
        rest: &'a [u8],
    ) -> Result<&'a [u8], ReadFault>
        requires announced { marker_at marker ≡ Some (announces.Dict size) }
        requires goes { Goes (holds self.old) (part.Body marker number 0) }
        requires good { (holds self.old).cursor.bad ≡ None }
        ensures told { Answers (λ x. x.now) result
            ((holds self.old).store ++ rest.now)
            (holds self.new) }
        ensures after { IfOk result (λ x. x.now ≡ rest.now) }
        ensures grown { HasGrown (holds self.old) (holds self.new) }
    {
        let count = size_in(size, number);
        if count == 0 {
            return self.end_value(Marker::Dict(size), marker, number, rest);
        }
        self.end_here();
        let keys = self.texts.count();
        self.cursor.open.open_dict(count, keys);
        Ok(rest)
    }

    /// The item that was begun is whole, and ends if the bytes do.
    #[inline]
    pub(crate) fn end_here(&mut self)
        ensures item { holds self.new ≡ with_item (holds self.old) }
        ensures opened { self.new.cursor.«open» ≡ self.old.cursor.«open» }
    {
        self.cursor.part = Part::Nothing;
        self.cursor.read = self.texts.len();
    }
}
