//! What a client keeps of its server's bytes, and what it takes of a piece: the answer to its offer, then chunks.

ghost use Rattle.std.specs.Prelude.{◌≡◌, ◌<◌, ◌≤◌};
ghost use Rattle.wire.specs.Unfinished.{fresh};

use crate::data::{Came, Taken, answer_of, came_of};
use crate::faults::ClientFault;
use crate::version_answer::{LENGTH, Opening};
use messages::Response;
use messages_deframer::Inbox;
use std::alloc::Global;
use wire::Version;

/// What has come of the item that isn't whole.
#[derive(Drop)]
pub(crate) struct Stream {
    /// What has come of the version answer.
    pub opening: Opening,
    /// The chunks after it.
    pub inbox: Inbox,
    ghost answering: { opening.len ≤ 4 },
    ghost unread: { opening.len < 4 → inbox ≡ fresh },
}

impl Stream {
    ghost use Rattle.std.specs.Prelude.{◌+◌, length, true, false, Option, Ok, IfOk, IfSome, IfErr, OnErr};
    ghost use Rattle.wire.specs.declared.Version.{Version};
    ghost use Rattle.wire.specs.Framing.{at_client};
    ghost use Rattle.wire.specs.Reader.{takes};
    ghost use Rattle.client.specs.Held.{item_of, is_too_large, WantsRoom};
    ghost use Rattle.client.specs.Taking.{Comes, all_of, whole_message};

    /// Takes a piece that is data alone, and answers whether it is; else, and for want of memory, nothing changes.
    pub fn take_data(&mut self, piece: &[u8]) -> Result<bool, ClientFault>
        ensures data { (version : Option Version) → result ≡ Ok true
            → Comes version (takes at_client (item_of self.old) piece.now) (all_of piece.now)
            (item_of self.new) }
        ensures other { result ≡ Ok false → item_of self.new ≡ item_of self.old }
        ensures fault { IfErr result (λ e. e ≡ ClientFault.Memory) }
        ensures err { OnErr result ((item_of self.new ≡ item_of self.old)
            × WantsRoom (item_of self.old) piece.now) }
    {
        if self.opening.len < LENGTH {
            return Ok(false);
        }
        match self.inbox.take_data(piece) {
            Ok(is_data) => Ok(is_data),
            Err(_) => Err(ClientFault::Memory),
        }
    }

    /// Lends the message that the piece begins with, if no item is begun and it is there whole, in one chunk. Nothing is taken.
    #[inline(always)]
    pub fn message_in<'a>(&self, piece: &'a [u8]) -> Option<&'a [u8]>
        ensures takes { IfSome result (λ m. takes at_client (item_of self.now) piece.now
            ≡ whole_message m.now (item_of self.now)) }
        ensures room { IfSome result (λ _. WantsRoom (item_of self.now) piece.now) }
        ensures within { IfSome result (λ m. length m.now + 4 ≤ length piece.now) }
    {
        if self.opening.len < LENGTH {
            return None;
        }
        match self.inbox.message_in(piece) {
            Some(message) => Some(message),
            None => None,
        }
    }

    /// Returns true if a message passed 65,536 bytes.
    pub fn message_is_too_large(&self) -> bool
        ensures { result ≡ is_too_large (item_of self.now) }
    {
        LENGTH <= self.opening.len && self.inbox.is_over()
    }

    /// Takes the piece to the end of the item begun, else all of it; or nothing, for want of memory.
    pub fn take(
        &mut self,
        alloc: Global,
        version: Option<Version>,
        piece: &[u8],
    ) -> Result<Taken, ClientFault>
        ensures ok { IfOk result (λ t. Comes version (takes at_client (item_of self.old) piece.now) t
            (item_of self.new)) }
        ensures within { IfOk result (λ t. t.used ≤ length piece.now) }
        ensures some { 0 < length piece.now → IfOk result (λ t. 0 < t.used) }
        ensures fault { IfErr result (λ e. e ≡ ClientFault.Memory) }
        ensures err { OnErr result ((item_of self.new ≡ item_of self.old)
            × WantsRoom (item_of self.old) piece.now) }
    {
        if self.opening.len < LENGTH {
            Ok(self.take_answer(piece))
        } else {
            self.take_parts(alloc, version, piece)
        }
    }

    /// The answer to the offer comes first.
    fn take_answer(&mut self, piece: &[u8]) -> Taken
        requires { self.old.opening.len < 4 }
        ensures ok { (version : Option Version) → Comes version
            (takes at_client (item_of self.old) piece.now) result (item_of self.new) }
        ensures within { result.used ≤ length piece.now }
        ensures some { 0 < length piece.now → 0 < result.used }
    {
        let (opening, used) = self.opening.with(piece);
        self.opening = opening;
        if opening.len < LENGTH {
            return Taken {
                used,
                came: Came::Nothing,
            };
        }
        Taken {
            used,
            came: answer_of(opening),
        }
    }

    /// Then come chunks.
    fn take_parts(
        &mut self,
        alloc: Global,
        version: Option<Version>,
        piece: &[u8],
    ) -> Result<Taken, ClientFault>
        requires { 4 ≤ self.old.opening.len }
        ensures ok { IfOk result (λ t. Comes version (takes at_client (item_of self.old) piece.now) t
            (item_of self.new)) }
        ensures within { IfOk result (λ t. t.used ≤ length piece.now) }
        ensures some { 0 < length piece.now → IfOk result (λ t. 0 < t.used) }
        ensures fault { IfErr result (λ e. e ≡ ClientFault.Memory) }
        ensures err { OnErr result ((item_of self.new ≡ item_of self.old)
            × WantsRoom (item_of self.old) piece.now) }
    {
        let at = version.unwrap_or(Version::V51);
        let Ok((used, brought)) = self.inbox.take::<Response>(alloc, at, piece) else {
            return Err(ClientFault::Memory);
        };
        Ok(Taken {
            used,
            came: came_of(version, brought),
        })
    }
}
