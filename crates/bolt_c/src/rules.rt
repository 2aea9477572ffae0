//! The rules that a message breaks, by their two characters in one number, and where it breaks them.

ghost use Rattle.std.specs.Prelude.{◌≡◌};
ghost use Rattle.bolt_c.specs.Rules.{pack_rule, cell_rule, broken, broken_in};

use client::Unwritable;
use messages::MsgFault;

/// P1 to P7 and P9.
fn pack_rule(reason: packstream::Reason) -> u64
    ensures { result ≡ pack_rule reason }
{
    match reason {
        packstream::Reason::Short => 0x5031,
        packstream::Reason::Marker => 0x5032,
        packstream::Reason::Utf8 => 0x5033,
        packstream::Reason::KeyKind => 0x5034,
        packstream::Reason::KeyTwice => 0x5035,
        packstream::Reason::Depth => 0x5036,
        packstream::Reason::Trailing => 0x5037,
        packstream::Reason::Size => 0x5039,
    }
}

/// S1 to S6.
fn cell_rule(reason: structures::Reason) -> u64
    ensures { result ≡ cell_rule reason }
{
    match reason {
        structures::Reason::UnknownTag => 0x5331,
        structures::Reason::FieldCount => 0x5332,
        structures::Reason::FieldKind => 0x5333,
        structures::Reason::Range => 0x5334,
        structures::Reason::PathShape => 0x5335,
        structures::Reason::NotInVersion => 0x5336,
    }
}

/// The rule that bytes break, so that they are no request, and its place; 0 and 0 for want of memory.
pub(crate) fn message_rule(fault: MsgFault) -> (u64, u64)
    ensures { result ≡ broken fault }
{
    match fault {
        MsgFault::Pack(reason, offset) => (pack_rule(reason), offset as u64),
        MsgFault::NotAMessage => (0x4d32, 0),
        MsgFault::UnknownTag => (0x4d33, 0),
        MsgFault::Fields => (0x4d34, 0),
        MsgFault::Extra => (0x4d35, 0),
        MsgFault::Cell(reason, number) => (cell_rule(reason), number as u64),
        MsgFault::CellPack(reason, place) => (pack_rule(reason), place as u64),
        MsgFault::Memory => (0, 0),
        MsgFault::Size => (0x4d38, 0),
    }
}

/// The rule that a request breaks, so that it can't be written, and its place.
pub(crate) fn request_rule(why: Unwritable) -> (u64, u64)
    ensures { result ≡ broken_in why }
{
    match why {
        Unwritable::Pack(reason, place) => (pack_rule(reason), place as u64),
        Unwritable::Extra => (0x4d35, 0),
        Unwritable::Cell(reason, number) => (cell_rule(reason), number as u64),
        Unwritable::CellPack(reason, place) => (pack_rule(reason), place as u64),
    }
}
