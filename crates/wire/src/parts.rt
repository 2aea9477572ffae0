//! The parts of a stream of chunks, told without keeping any data ("Bolt message chunking").

ghost use Rattle.std.specs.Prelude.{◌≡◌, ◌↔◌, ℕ, ◌≤◌, ◌+◌, ◌*◌, IsTrue, List, Some, length};
ghost use Rattle.std.specs.Option.{option_map};
ghost use Rattle.wire.specs.Place.{Place, start};
ghost use Rattle.wire.specs.Parts.{cut_at, whole_header, IsData};
ghost use Rattle.wire.specs.Texts.{BeginsWith};

use crate::MAX_MESSAGE;
use byteorder::{BigEndian, ByteOrder};
use std::marker::Model;

/// What the bytes of one answer are.
#[derive(Clone, Copy, Debug, PartialEq, Eq)]
pub enum Part {
    /// Bytes of a chunk's length.
    Head,
    /// Data of a message.
    Data,
    /// They end with the last byte of a no-op.
    Noop,
    /// They end with the last byte of a message.
    End,
    /// They end with the header that takes a message past 65,536 bytes.
    TooBig,
}

/// How many bytes of a piece were used, and what they are.
#[derive(Clone, Copy, Debug, PartialEq, Eq)]
pub struct Cut {
    pub used: usize,
    pub what: Part,
}

/// The position in a stream of chunks. It holds no data.
#[derive(Clone, Copy)]
pub struct Chunks {
    /// The first byte of a header that isn't whole.
    header: Option<u8>,
    /// A header has taken the message past its limit.
    too_big: bool,
    /// The bytes that the chunk lacks.
    lacks: usize,
    /// The lengths of the message's chunks, the present one too.
    sum: usize,
}

impl Model for Chunks {
    ghost use Rattle.std.specs.Prelude.{◌≤◌};
    ghost use Rattle.wire.specs.Place.{Place};
    ghost use Rattle.wire.specs.Limits.{max_message};

    ghost Value = { Place };

    ghost view = { λ c. record { header = c.header; lacks = c.lacks; sum = c.sum; too_big = c.too_big } };

    ghost inverse = { λ p. record { header = p.header; lacks = p.lacks; sum = p.sum; too_big = p.too_big } };

    ghost invariant = { λ c. c.sum ≤ max_message };
}

impl Chunks {
    /// The start of a stream. Takes no memory.
    pub fn new() -> Chunks
        ensures { result ≡ start }
    {
        Chunks {
            header: None,
            lacks: 0,
            sum: 0,
            too_big: false,
        }
    }

    /// Cuts what is of one kind off the front of a piece: as much of a chunk's length as there is (`Head`), as much of its data as
    /// there is (`Data`), or bytes that end with the last byte of a no-op, a message, or the header that takes a message past
    /// 65,536 bytes. An empty piece gives `Head` with 0 used. After `TooBig` it is `TooBig` with 0 used for every piece. It takes
    /// no memory.
    pub fn next(&mut self, piece: &[u8]) -> Cut
        ensures cut { result ≡ (cut_at self.old piece.now).cut }
        ensures place { self.new ≡ (cut_at self.old piece.now).place }
        ensures within { result.used ≤ length piece.now }
    {
        if self.too_big {
            return Cut {
                used: 0,
                what: Part::TooBig,
            };
        }
        let [first, rest @ ..] = piece else {
            return Cut {
                used: 0,
                what: Part::Head,
            };
        };
        if self.lacks > 0 {
            let used = self.lacks.min(piece.len());
            self.lacks -= used;
            return Cut {
                used,
                what: Part::Data,
            };
        }
        if let Some(high) = self.header {
            return self.end_header(1, high, *first);
        }
        let [second, ..] = rest else {
            self.header = Some(*first);
            return Cut {
                used: 1,
                what: Part::Head,
            };
        };
        self.end_header(2, *first, *second)
    }

    /// Judges a header that is whole.
    fn end_header(&mut self, used: usize, high: u8, low: u8) -> Cut
        ensures cut { result ≡ (whole_header used self.old.sum high low).cut }
        ensures place { self.new ≡ (whole_header used self.old.sum high low).place }
    {
        let n = length_in(high, low);
        let sum = self.sum;
        *self = Chunks::new();
        if n == 0 {
            let what = if sum == 0 { Part::Noop } else { Part::End };
            return Cut { used, what };
        }
        if sum + n > MAX_MESSAGE {
            self.sum = sum;
            self.too_big = true;
            return Cut {
                used,
                what: Part::TooBig,
            };
        }
        self.sum = sum + n;
        self.lacks = n;
        Cut {
            used,
            what: Part::Head,
        }
    }

    /// The position behind a piece that is data of the chunk alone; none for any other piece. Takes no memory.
    pub fn behind_data(mut self, piece: &[u8]) -> Option<Chunks>
        ensures { (behind : Place) → (result ≡ Some behind) ↔ IsData self piece.now behind }
    {
        if piece.is_empty() {
            return None;
        }
        let cut = self.next(piece);
        if cut.used < piece.len() {
            return None;
        }
        match cut.what {
            Part::Data => Some(self),
            _ => None,
        }
    }

    /// The message that the piece begins with, lent, if none is begun and it is there whole, in one chunk; else none. The place
    /// stays: behind the message, which took four bytes more than it has, it is the same. Takes no memory.
    pub fn message_in<'a>(&self, piece: &'a [u8]) -> Option<&'a [u8]>
        ensures { (m : List ℕ) → (option_map (λ d. d.now) result ≡ Some m)
            ↔ ((self.now ≡ start) × BeginsWith m piece.now) }
    {
        if !self.is_start() {
            return None;
        }
        let [high, low, rest @ ..] = piece else {
            return None;
        };
        let len = length_in(*high, *low);
        if len == 0 || rest.len() < len {
            return None;
        }
        let (message, after) = rest.split_at(len);
        let [first, second, ..] = after else {
            return None;
        };
        if *first == 0 && *second == 0 {
            Some(message)
        } else {
            None
        }
    }

    /// Whether no message is begun.
    fn is_start(&self) -> bool
        ensures { IsTrue result ↔ (self.now ≡ start) }
    {
        self.header.is_none() && self.lacks == 0 && self.sum == 0 && !self.too_big
    }

    /// Whether a header has taken the message past its limit.
    pub(crate) fn is_too_big(&self) -> bool
        ensures { result ≡ self.now.too_big }
    {
        self.too_big
    }
}

/// Returns the length that the two bytes of a header are, in big-endian order ("Bolt message chunking").
fn length_in(high: u8, low: u8) -> usize
    ensures { result ≡ high * 256 + low }
{
    usize::from(BigEndian::read_u16(&[high, low]))
}
