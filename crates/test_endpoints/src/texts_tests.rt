//! The texts of faults and of refusals.

use crate::answers::prints;
use client::{ClientFault, SubmitFault, Unwritable};
use engine::EngineFault;
use messages::MsgFault;
use packstream::{PackFault, Reason};
use server::Refused;
use std::alloc::Global;
use std::fmt;
use structures::CellFault;
use wire::{BadMagic, WireFault};

const OF_PACKSTREAM: &[(PackFault, &str)] = &[
    (PackFault::Refused(Reason::Short, 4), "P1 at 4"),
    (PackFault::Refused(Reason::Marker, 4), "P2 at 4"),
    (PackFault::Refused(Reason::Utf8, 4), "P3 at 4"),
    (PackFault::Refused(Reason::KeyKind, 4), "P4 at 4"),
    (PackFault::Refused(Reason::KeyTwice, 4), "P5 at 4"),
    (PackFault::Refused(Reason::Depth, 4), "P6 at 4"),
    (PackFault::Refused(Reason::Trailing, 4), "P7 at 4"),
    (PackFault::Refused(Reason::Size, 4), "P9 at 4"),
    (PackFault::Memory, "out of memory"),
];

const OF_STRUCTURES: &[(CellFault, &str)] = &[
    (
        CellFault::Refused(structures::Reason::UnknownTag, 4),
        "S1 at 4",
    ),
    (
        CellFault::Refused(structures::Reason::FieldCount, 4),
        "S2 at 4",
    ),
    (
        CellFault::Refused(structures::Reason::FieldKind, 4),
        "S3 at 4",
    ),
    (CellFault::Refused(structures::Reason::Range, 4), "S4 at 4"),
    (
        CellFault::Refused(structures::Reason::PathShape, 4),
        "S5 at 4",
    ),
    (
        CellFault::Refused(structures::Reason::NotInVersion, 4),
        "S6 at 4",
    ),
    (CellFault::Pack(Reason::KeyTwice, 2), "P5 at 2"),
    (CellFault::Memory, "out of memory"),
];

const OF_WIRE: &[(WireFault, &str)] = &[
    (WireFault::TooBig { used: 65539 }, "X1 at 65539"),
    (WireFault::Memory, "out of memory"),
];

const OF_MESSAGES: &[(MsgFault, &str)] = &[
    (MsgFault::Pack(Reason::Trailing, 2), "P7 at 2"),
    (MsgFault::NotAMessage, "M2"),
    (MsgFault::UnknownTag, "M3"),
    (MsgFault::Fields, "M4"),
    (MsgFault::Extra, "M5"),
    (MsgFault::Cell(structures::Reason::Range, 1), "S4 at 1"),
    (MsgFault::CellPack(Reason::KeyTwice, 3), "P5 at 3"),
    (MsgFault::Memory, "out of memory"),
    (MsgFault::Size, "M8"),
];

const OF_ENGINE: &[(EngineFault, &str)] = &[
    (EngineFault::UnknownText, "G1"),
    (EngineFault::Parameter, "G2"),
    (EngineFault::ReadOnly, "G3"),
    (EngineFault::TooManyRows, "G4"),
    (EngineFault::Memory, "out of memory"),
];

const OF_SERVER: &[(Refused, &str)] = &[
    (Refused::NoSuchConnection, "N1"),
    (Refused::SessionsFull, "N2"),
    (Refused::Memory, "out of memory"),
];

const OF_CLIENT: &[(ClientFault, &str)] = &[
    (ClientFault::Closed, "C4"),
    (ClientFault::BadPeer, "C6"),
    (ClientFault::Memory, "out of memory"),
];

const OF_SUBMIT: &[(SubmitFault, &str)] = &[
    (SubmitFault::NotAllowed, "C1"),
    (SubmitFault::PipelineFull, "C2"),
    (SubmitFault::Size, "C3"),
    (SubmitFault::Closed, "C4"),
    (SubmitFault::Memory, "out of memory"),
    (
        SubmitFault::Unwritable(Unwritable::Pack(Reason::Depth, 33)),
        "P6 at 33",
    ),
    (SubmitFault::Unwritable(Unwritable::Extra), "M5"),
    (
        SubmitFault::Unwritable(Unwritable::Cell(structures::Reason::NotInVersion, 1)),
        "S6 at 1",
    ),
    (
        SubmitFault::Unwritable(Unwritable::CellPack(Reason::KeyTwice, 3)),
        "P5 at 3",
    ),
];

/// The first text that isn't so.
fn wrong_in<'a>(alloc: Global, rows: &'a [(impl fmt::Display, &'static str)]) -> Option<&'a str> {
    for (fault, wanted) in rows {
        if !prints(alloc, fault, wanted) {
            return Some(wanted);
        }
    }
    None
}

#[test]
fn texts_of_faults(rt: HostRuntime) {
    let alloc = rt.alloc();
    assert!(rt; wrong_in(alloc, OF_PACKSTREAM) == None);
    assert!(rt; wrong_in(alloc, OF_WIRE) == None);
    assert!(rt; wrong_in(alloc, OF_STRUCTURES) == None);
    assert!(rt; wrong_in(alloc, OF_MESSAGES) == None);
    assert!(rt; prints(alloc, &BadMagic, "not the magic of the protocol"));
    assert!(rt; wrong_in(alloc, OF_ENGINE) == None);
    assert!(rt; wrong_in(alloc, OF_SERVER) == None);
    assert!(rt; wrong_in(alloc, OF_CLIENT) == None);
    assert!(rt; wrong_in(alloc, OF_SUBMIT) == None);
}
