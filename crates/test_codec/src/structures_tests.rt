//! Cells and their bytes, at each version.
use crate::answers::gives;
use crate::reader_tests::DEEPEST;
use packstream::decode;
use std::alloc::{AllocError, Global};
use std::test::*;
use structures::*;

fn cell(alloc: Global, version: Version, input: &[u8]) -> Result<Cell, Fail> {
    let packed = decode(alloc, input)?;
    Ok(read(alloc, version, &packed)?)
}

/// The cell of these bytes, None if it is refused.
fn cell_of(alloc: Global, version: Version, input: &[u8]) -> Option<Cell> {
    match decode(alloc, input) {
        Ok(packed) => read(alloc, version, &packed).ok(),
        Err(_) => None,
    }
}

/// Whether the cell is written as these bytes.
fn is_written(alloc: Global, version: Version, cell: &Cell, output: &[u8]) -> bool {
    match write(alloc, version, cell) {
        Ok(packed) => gives(alloc, Ok(packed), output),
        Err(_) => false,
    }
}

/// A node, `A`, of the number 1, at either version.
const OLD_NODE: &[u8] = &[0xB3, 0x4E, 0x01, 0x91, 0x81, 0x41, 0xA0];

const NEW_NODE: &[u8] = &[0xB4, 0x4E, 0x01, 0x91, 0x81, 0x41, 0xA0, 0x81, 0x31];

/// A relationship, `TO`, of the number 7, from the node 1 to the node 2, at either version.
const OLD_RELATIONSHIP: &[u8] = &[0xB5, 0x52, 0x07, 0x01, 0x02, 0x82, 0x54, 0x4F, 0xA0];

const NEW_RELATIONSHIP: &[u8] = &[
    0xB8, 0x52, 0x07, 0x01, 0x02, 0x82, 0x54, 0x4F, 0xA0, 0x81, 0x37, 0x81, 0x31, 0x81, 0x32,
];

/// A path of two nodes, at either version.
const OLD_PATH: &[u8] = &[
    0x91, 0xB3, 0x50, 0x92, 0xB3, 0x4E, 0x01, 0x91, 0x81, 0x41, 0xA0, 0xB3, 0x4E, 0x02, 0x91, 0x81,
    0x42, 0xA0, 0x91, 0xB3, 0x72, 0x07, 0x82, 0x54, 0x4F, 0xA0, 0x92, 0x01, 0x01,
];

const NEW_PATH: &[u8] = &[
    0x91, 0xB3, 0x50, 0x92, 0xB4, 0x4E, 0x01, 0x91, 0x81, 0x41, 0xA0, 0x81, 0x31, 0xB4, 0x4E, 0x02,
    0x91, 0x81, 0x42, 0xA0, 0x81, 0x32, 0x91, 0xB4, 0x72, 0x07, 0x82, 0x54, 0x4F, 0xA0, 0x81, 0x37,
    0x92, 0x01, 0x01,
];

/// The first second of the calendar in a zone of one hour, at either version.
const OLD_MOMENT: &[u8] = &[0xB3, 0x46, 0xC9, 0x0E, 0x10, 0x00, 0xC9, 0x0E, 0x10];

const NEW_MOMENT: &[u8] = &[0xB3, 0x49, 0x00, 0x00, 0xC9, 0x0E, 0x10];

/// A moment in a zone at 4.4.
const ZONED: &[u8] = &[0xB3, 0x66, 0x00, 0x00, 0x83, 0x55, 0x54, 0x43];

/// Bytes of a cell at one version, and what the cell is written as at another, or at the same.
const WRITTEN: &[(Version, &[u8], Version, &[u8])] = &[
    (Version::V44, OLD_NODE, Version::V44, OLD_NODE),
    (Version::V50, NEW_NODE, Version::V50, NEW_NODE),
    (Version::V51, NEW_NODE, Version::V51, NEW_NODE),
    (
        Version::V44,
        OLD_RELATIONSHIP,
        Version::V44,
        OLD_RELATIONSHIP,
    ),
    (
        Version::V51,
        NEW_RELATIONSHIP,
        Version::V51,
        NEW_RELATIONSHIP,
    ),
    (Version::V44, OLD_PATH, Version::V44, OLD_PATH),
    (Version::V51, NEW_PATH, Version::V51, NEW_PATH),
    (Version::V44, OLD_MOMENT, Version::V51, NEW_MOMENT),
    (Version::V44, OLD_MOMENT, Version::V50, NEW_MOMENT),
    (Version::V51, NEW_MOMENT, Version::V44, OLD_MOMENT),
    (Version::V44, ZONED, Version::V44, ZONED),
    (Version::V44, DEEPEST, Version::V44, DEEPEST),
    // days
    (
        Version::V44,
        &[0xB1, 0x44, 0xC9, 0x48, 0xE5],
        Version::V44,
        &[0xB1, 0x44, 0xC9, 0x48, 0xE5],
    ),
    // a duration
    (
        Version::V51,
        &[0xB4, 0x45, 0x01, 0x02, 0x03, 0x04],
        Version::V51,
        &[0xB4, 0x45, 0x01, 0x02, 0x03, 0x04],
    ),
    // a time with its offset
    (
        Version::V44,
        &[0xB2, 0x54, 0x00, 0xCA, 0x00, 0x00, 0xFD, 0x20],
        Version::V44,
        &[0xB2, 0x54, 0x00, 0xCA, 0x00, 0x00, 0xFD, 0x20],
    ),
];

/// Whether a copy of the cell is written as these bytes.
fn is_cloned(alloc: Global, cell: &Cell, to: Version, output: &[u8]) -> bool {
    match cell.clone() {
        Ok(copy) => is_written(alloc, to, &copy, output),
        Err(_) => false,
    }
}

/// Whether a copy of the cell of the bytes is written as these.
fn is_copied(alloc: Global, version: Version, input: &[u8], to: Version, output: &[u8]) -> bool {
    match cell_of(alloc, version, input) {
        Some(cell) => is_cloned(alloc, &cell, to, output),
        None => false,
    }
}

#[test]
fn written(rt: HostRuntime) {
    for (version, input, to, output) in WRITTEN {
        assert!(rt;
            is_copied(rt.alloc(), *version, input, *to, output),
            "at {input:?}"
        );
    }
}

/// Bytes of a cell at one version, and what the cell is written as once it is fitted to another.
const FITTED: &[(Version, &[u8], Version, &[u8])] = &[
    (Version::V44, OLD_NODE, Version::V51, NEW_NODE),
    (Version::V51, NEW_NODE, Version::V44, OLD_NODE),
    (
        Version::V44,
        &[0xB3, 0x4E, 0xC8, 0xEF, 0x90, 0xA0],
        Version::V51,
        &[0xB4, 0x4E, 0xC8, 0xEF, 0x90, 0xA0, 0x83, 0x2D, 0x31, 0x37],
    ),
    (
        Version::V44,
        OLD_RELATIONSHIP,
        Version::V51,
        NEW_RELATIONSHIP,
    ),
    (
        Version::V51,
        NEW_RELATIONSHIP,
        Version::V44,
        OLD_RELATIONSHIP,
    ),
    (Version::V44, OLD_PATH, Version::V51, NEW_PATH),
    (Version::V51, NEW_PATH, Version::V44, OLD_PATH),
];

fn is_fitted(alloc: Global, version: Version, input: &[u8], to: Version, output: &[u8]) -> bool {
    let Some(cell) = cell_of(alloc, version, input) else {
        return false;
    };
    match fit(alloc, cell, to) {
        Ok(fitted) => is_written(alloc, to, &fitted, output),
        Err(_) => false,
    }
}

#[test]
fn fitted(rt: HostRuntime) {
    for (version, input, to, output) in FITTED {
        assert!(rt;
            is_fitted(rt.alloc(), *version, input, *to, output),
            "at {input:?}"
        );
    }
}

/// What a cell of a time holds.
enum Time {
    Days(i64),
    /// Seconds, nanoseconds, and the offset.
    Moment(i64, i64, i64),
}

/// Bytes of times.
const TIMES: &[(Version, &[u8], Time)] = &[
    (Version::V44, OLD_MOMENT, Time::Moment(0, 0, 3600)),
    (Version::V51, NEW_MOMENT, Time::Moment(0, 0, 3600)),
    (
        Version::V51,
        &[0xB1, 0x44, 0xC9, 0x48, 0xE5],
        Time::Days(18_661),
    ),
];

fn is_time(cell: &Cell, time: &Time) -> bool {
    match (cell, time) {
        (Cell::Date { days }, Time::Days(number)) => days == number,
        (Cell::DateTime { utc, nanos, offset }, Time::Moment(seconds, rest, east)) => {
            utc == seconds && nanos == rest && offset == east
        }
        _ => false,
    }
}

#[test]
fn times(rt: HostRuntime) -> Result<(), Fail> {
    for (version, bytes, time) in TIMES {
        let cell = cell(rt.alloc(), *version, bytes)?;
        assert!(rt; is_time(&cell, time), "at {bytes:?}");
    }
    Ok(())
}

fn is_fault(told: &CellFault, wanted: &CellFault) -> bool {
    match (told, wanted) {
        (CellFault::Refused(why, at), CellFault::Refused(reason, number)) => {
            why == reason && at == number
        }
        (CellFault::Pack(why, at), CellFault::Pack(reason, place)) => why == reason && at == place,
        _ => false,
    }
}

/// Bytes of a cell at one version, and its fault at another.
const UNWRITTEN: &[(Version, &[u8], Version, CellFault)] = &[
    (
        Version::V44,
        OLD_NODE,
        Version::V51,
        CellFault::Refused(Reason::NotInVersion, 0),
    ),
    (
        Version::V51,
        NEW_NODE,
        Version::V44,
        CellFault::Refused(Reason::NotInVersion, 0),
    ),
    // a date, and behind it a moment in a zone
    (
        Version::V44,
        &[
            0x92, 0xB1, 0x44, 0x00, 0xB3, 0x66, 0x00, 0x00, 0x83, 0x55, 0x54, 0x43,
        ],
        Version::V51,
        CellFault::Refused(Reason::NotInVersion, 1),
    ),
];

/// Whether writing a cell that was made tells this.
fn is_unwritten(alloc: Global, version: Version, made: Option<Cell>, wanted: &CellFault) -> bool {
    let Some(cell) = made else {
        return false;
    };
    match write(alloc, version, &cell) {
        Ok(_) => false,
        Err(fault) => is_fault(&fault, wanted),
    }
}

#[test]
fn unwritten(rt: HostRuntime) {
    for (version, input, to, fault) in UNWRITTEN {
        let told = is_unwritten(rt.alloc(), *to, cell_of(rt.alloc(), *version, input), fault);
        assert!(rt; told, "at {input:?}");
    }
}

/// One list more around the deepest.
fn too_deep(alloc: Global) -> Option<Cell> {
    let deepest = cell_of(alloc, Version::V44, DEEPEST)?;
    let lists = vec![in alloc; deepest].ok()?;
    Some(Cell::List(lists))
}

/// A dictionary with a key twice.
fn twice(alloc: Global) -> Result<Cell, AllocError> {
    let mut pairs = Vec::new(alloc);
    for number in [1, 2] {
        pairs.push((String::from_str(alloc, "a")?, Cell::Int(number)))?;
    }
    Ok(Cell::Dict(pairs))
}

const LATE: &CellFault = &CellFault::Refused(Reason::Range, 0);

const TOO_DEEP: &CellFault = &CellFault::Pack(packstream::Reason::Depth, 32);

const KEY_TWICE: &CellFault = &CellFault::Pack(packstream::Reason::KeyTwice, 2);

#[test]
fn cells_without_bytes(rt: HostRuntime) {
    let alloc = rt.alloc();
    let late = Cell::LocalTime {
        nanos: 86_400_000_000_000,
    };
    assert!(rt; is_unwritten(alloc, Version::V44, Some(late), LATE));
    assert!(rt; is_unwritten(alloc, Version::V44, too_deep(alloc), TOO_DEEP));
    assert!(rt; is_unwritten(alloc, Version::V51, twice(alloc).ok(), KEY_TWICE));
}
