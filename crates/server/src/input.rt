//! The items of the bytes that a session takes: the handshake, then no-ops and messages.
ghost use Rattle.std.specs.Prelude.{◌≡◌, ◌<◌, ◌≤◌, length};
ghost use Rattle.wire.specs.Unfinished.{fresh};

use crate::kinds::Took;
use crate::receipt::{receive, receive_message};
use messages_deframer::Inbox;
use server_session::{Session, What};
use std::alloc::{AllocError, Global};

/// How many bytes a handshake has.
const HANDSHAKE: usize = 20;

/// The bytes of a handshake that have come.
#[derive(Clone, Copy)]
pub(crate) struct Offer {
    pub bytes: [u8; 20],
    pub len: usize,
    ghost long: { length bytes ≡ 20 },
    ghost within: { len ≤ 20 },
}

/// How many bytes of a piece were used, and the handshake with them.
#[derive(Clone, Copy)]
struct Filled {
    used: usize,
    offer: Offer,
}

/// What has come of an item that isn't whole: of the handshake, and after it of a message.
#[derive(Drop)]
pub(crate) struct Incoming {
    pub offer: Offer,
    pub inbox: Inbox,
    ghost unread: { offer.len < 20 → inbox ≡ fresh },
}

impl Incoming {
    ghost use Rattle.std.specs.Prelude.{false, IfOk, OnErr};
    ghost use Rattle.server_session.specs.Rest.{full};
    ghost use Rattle.server_session.specs.Views.{kept_of};
    ghost use Rattle.wire.specs.Framing.{at_server};
    ghost use Rattle.wire.specs.Reader.{takes};
    ghost use Rattle.server.specs.Feeding.{takes_item, WantsRoom};
    ghost use Rattle.server.specs.Incoming.{opened_of, fed};

    /// Before the first byte.
    pub(crate) fn new(alloc: Global) -> Incoming
        ensures { opened_of result ≡ at_server.start }
    {
        Incoming {
            offer: Offer {
                bytes: [0; HANDSHAKE],
                len: 0,
            },
            inbox: Inbox::new(alloc),
        }
    }

    /// Takes a piece to the end of the item begun, else whole, and the session receives the item. An `Err` changes nothing.
    pub(crate) fn take(&mut self, session: &mut Session, piece: &[u8]) -> Result<Took, AllocError>
        requires { full (kept_of session.old) ≡ false }
        ensures ok { IfOk result (λ took. takes_item (kept_of session.old)
            (takes at_server (opened_of self.old) piece.now)
            ≡ fed took (kept_of session.new) (opened_of self.new)) }
        ensures err { OnErr result ((opened_of self.new ≡ opened_of self.old)
            × (kept_of session.new ≡ kept_of session.old)
            × WantsRoom (opened_of self.old) piece.now) }
    {
        if self.offer.len < HANDSHAKE {
            return self.take_offer(session, piece);
        }
        self.take_chunks(session, piece)
    }

    /// Takes bytes of the handshake.
    fn take_offer(&mut self, session: &mut Session, piece: &[u8]) -> Result<Took, AllocError>
        requires { self.old.offer.len < 20 }
        ensures ok { IfOk result (λ took. takes_item (kept_of session.old)
            (takes at_server (opened_of self.old) piece.now)
            ≡ fed took (kept_of session.new) (opened_of self.new)) }
        ensures err { OnErr result ((opened_of self.new ≡ opened_of self.old)
            × (kept_of session.new ≡ kept_of session.old)
            × WantsRoom (opened_of self.old) piece.now) }
    {
        let Filled { used, offer } = self.offer.with(piece);
        if offer.len < HANDSHAKE {
            self.offer = offer;
            return Ok(Took {
                used,
                what: What::Part,
            });
        }
        let what = session.shake(&offer.bytes)?;
        self.offer = offer;
        Ok(Took { used, what })
    }

    /// Takes bytes of chunks.
    fn take_chunks(&mut self, session: &mut Session, piece: &[u8]) -> Result<Took, AllocError>
        requires room { full (kept_of session.old) ≡ false }
        requires whole { self.old.offer.len ≡ 20 }
        ensures ok { IfOk result (λ took. takes_item (kept_of session.old)
            (takes at_server (opened_of self.old) piece.now)
            ≡ fed took (kept_of session.new) (opened_of self.new)) }
        ensures err { OnErr result ((opened_of self.new ≡ opened_of self.old)
            × (kept_of session.new ≡ kept_of session.old)
            × WantsRoom (opened_of self.old) piece.now) }
    {
        if let Some(message) = self.inbox.message_in(piece) {
            let what = receive_message(session, message)?;
            return Ok(Took {
                used: message.len() + 4,
                what,
            });
        }
        self.take_parts(session, piece)
    }

    /// Takes bytes of chunks that don't begin with a whole message.
    fn take_parts(&mut self, session: &mut Session, piece: &[u8]) -> Result<Took, AllocError>
        requires room { full (kept_of session.old) ≡ false }
        requires whole { self.old.offer.len ≡ 20 }
        ensures ok { IfOk result (λ took. takes_item (kept_of session.old)
            (takes at_server (opened_of self.old) piece.now)
            ≡ fed took (kept_of session.new) (opened_of self.new)) }
        ensures err { OnErr result ((opened_of self.new ≡ opened_of self.old)
            × (kept_of session.new ≡ kept_of session.old)
            × WantsRoom (opened_of self.old) piece.now) }
    {
        if self.inbox.take_data(piece)? {
            return Ok(Took {
                used: piece.len(),
                what: What::Part,
            });
        }
        let (alloc, version) = (session.alloc(), session.version());
        let (used, brought) = self.inbox.take(alloc, version, piece)?;
        let what = receive(session, brought)?;
        Ok(Took { used, what })
    }
}

impl Offer {
    ghost use Rattle.std.specs.Prelude.{◌+◌, ◌-◌, ◌++◌, take, min};

    /// With the bytes of a piece that it lacks.
    fn with(self, piece: &[u8]) -> Filled
        requires { self.len < 20 }
        ensures used { result.used ≡ min (20 - self.len) (length piece.now) }
        ensures len { result.offer.len ≡ self.len + result.used }
        ensures bytes { take result.offer.len result.offer.bytes
            ≡ take self.len self.bytes ++ take result.used piece.now }
    {
        let used = (HANDSHAKE - self.len).min(piece.len());
        let mut bytes = self.bytes;
        bytes[self.len..self.len + used].copy_from_slice(&piece[..used]);
        Filled {
            used,
            offer: Offer {
                bytes,
                len: self.len + used,
            },
        }
    }
}
