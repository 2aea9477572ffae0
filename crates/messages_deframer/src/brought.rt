//! What a piece brings.

use messages::MsgFault;

/// What ended with the last byte that was used of a piece.
#[derive(Drop)]
pub enum Brought<M> {
    /// Nothing: the piece is used up.
    Nothing,
    /// A no-op, two zero bytes between messages.
    Noop,
    /// A message that was read.
    Message(M),
    /// A message that can't be read, and why: want of memory is no such reason.
    Bad(MsgFault),
    /// The header that takes a message past 65,536 bytes.
    TooBig,
}
