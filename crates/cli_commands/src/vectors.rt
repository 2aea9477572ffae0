//! Short byte lists, and what each is.
use crate::samples::{failure, is_request, is_written, success, walk};
use bytes::BytesMut;
use packstream::{PackFault, Packed, Reason, decode, encode};
use std::alloc::{AllocError, Global};
use structures::{Cell, CellFault, Reason as CellReason, read};
use wire::Version;

/// What bytes are.
#[derive(Clone, Copy)]
enum Expected {
    /// No value, for this reason at this offset.
    NoValue(Reason, usize),
    /// No cell of the version, for this reason at the structure of this number.
    NoCell(Version, CellReason, usize),
    /// A zoned time of local seconds at 4.4; no cell at 5.1.
    LocalZone,
    /// A request of the version, and what is written of it.
    Request(Version),
    /// What is written of the SUCCESS of a query.
    Success,
    /// What is written of the FAILURE of an unknown text.
    Failure,
    /// What is written of the RECORD of a path at the version.
    Walk(Version),
    /// A value, and its shortest spelling.
    Value,
}

/// Bytes, and what they are.
#[derive(Clone, Copy)]
pub(crate) struct Vector {
    bytes: &'static [u8],
    expected: Expected,
}

/// The vectors of PackStream 1, of structures and of messages, V1 to V16 in order.
pub(crate) fn vectors() -> [Vector; 16] {
    [
        no_value(&[0x81, 0xFF], Reason::Utf8, 0),
        no_value(&[0xA1, 0x01, 0x01], Reason::KeyKind, 1),
        no_value(&[0xC4], Reason::Marker, 0),
        no_value(&[0x92, 0x01], Reason::Short, 2),
        no_value(&[0xA1, 0x81, 0x61], Reason::Short, 3),
        bytes_are(
            &[0xB3, 0x50, 0x90, 0x90, 0x90],
            Expected::NoCell(Version::V44, CellReason::PathShape, 0),
        ),
        bytes_are(
            b"\xB3\x50\x91\xB3\x4E\x01\x90\xA0\x90\x92\x01\x00",
            Expected::NoCell(Version::V44, CellReason::PathShape, 0),
        ),
        bytes_are(
            b"\xB2\x54\xCB\x00\x00\x4E\x94\x91\x4F\x00\x00\x00",
            Expected::NoCell(Version::V51, CellReason::Range, 0),
        ),
        bytes_are(b"\xB3\x66\x00\x00\x83UTC", Expected::LocalZone),
        bytes_are(
            b"\xB1\x01\xA4\x8Auser_agent\x83t/1\x86scheme\x85basic\x89principal\x84user\x8Bcredentials\x84pass",
            Expected::Request(Version::V44),
        ),
        bytes_are(
            b"\xB1j\xA3\x86scheme\x85basic\x89principal\x84user\x8Bcredentials\x84pass",
            Expected::Request(Version::V51),
        ),
        bytes_are(
            b"\xB1p\xA2\x86fields\x91\x81i\x87t_first\x00",
            Expected::Success,
        ),
        bytes_are(
            b"\xB1\x7F\xA2\x84code\xD0%Neo.ClientError.Statement.UnknownText\x87message\x8Cunknown text",
            Expected::Failure,
        ),
        bytes_are(
            b"\xB1q\x91\xB3P\x92\xB3N\x01\x91\x81A\xA0\xB3N\x02\x91\x81B\xA0\x91\xB3r\x07\x82TO\xA0\x92\x01\x01",
            Expected::Walk(Version::V44),
        ),
        bytes_are(
            b"\xB1q\x91\xB3P\x92\xB4N\x01\x91\x81A\xA0\x811\xB4N\x02\x91\x81B\xA0\x812\x91\xB4r\x07\x82TO\xA0\x817\x92\x01\x01",
            Expected::Walk(Version::V51),
        ),
        bytes_are(b"\xA2\x83key\x81a\x85value\x01", Expected::Value),
    ]
}

fn bytes_are(bytes: &'static [u8], expected: Expected) -> Vector {
    Vector { bytes, expected }
}

fn no_value(bytes: &'static [u8], reason: Reason, place: usize) -> Vector {
    bytes_are(bytes, Expected::NoValue(reason, place))
}

/// Whether the bytes are what is expected.
pub(crate) fn passes(alloc: Global, vector: Vector) -> Result<bool, AllocError> {
    match vector.expected {
        Expected::NoValue(reason, place) => is_no_value(alloc, vector.bytes, reason, place),
        Expected::NoCell(version, reason, number) => {
            is_no_cell(alloc, version, vector.bytes, reason, number)
        }
        Expected::LocalZone => is_local_zone(alloc, vector.bytes),
        Expected::Request(version) => is_request(alloc, version, vector.bytes),
        Expected::Success => is_written(alloc, Version::V51, &success(alloc)?, vector.bytes),
        Expected::Failure => is_written(alloc, Version::V51, &failure(alloc)?, vector.bytes),
        Expected::Walk(version) => {
            is_written(alloc, version, &walk(alloc, version)?, vector.bytes)
        }
        Expected::Value => is_spelled(alloc, vector.bytes),
    }
}

/// Whether the bytes are the shortest spelling of a value.
fn is_spelled(alloc: Global, bytes: &[u8]) -> Result<bool, AllocError> {
    let Some(packed) = value_in(alloc, bytes)? else {
        return Ok(false);
    };
    let mut out = BytesMut::new(alloc);
    match encode(&packed, &mut out) {
        Ok(()) => Ok(out.as_slice() == bytes),
        Err(PackFault::Memory) => Err(AllocError),
        Err(_) => Ok(false),
    }
}

fn is_no_value(
    alloc: Global,
    bytes: &[u8],
    reason: Reason,
    place: usize,
) -> Result<bool, AllocError> {
    match decode(alloc, bytes) {
        Ok(_) => Ok(false),
        Err(PackFault::Memory) => Err(AllocError),
        Err(PackFault::Refused(why, at)) => Ok(why == reason && at == place),
    }
}

/// The value of the bytes, if they are one.
fn value_in(alloc: Global, bytes: &[u8]) -> Result<Option<Packed>, AllocError> {
    match decode(alloc, bytes) {
        Ok(packed) => Ok(Some(packed)),
        Err(PackFault::Memory) => Err(AllocError),
        Err(PackFault::Refused(_, _)) => Ok(None),
    }
}

fn is_no_cell(
    alloc: Global,
    version: Version,
    bytes: &[u8],
    reason: CellReason,
    number: usize,
) -> Result<bool, AllocError> {
    let Some(packed) = value_in(alloc, bytes)? else {
        return Ok(false);
    };
    match read(alloc, version, &packed) {
        Ok(_) => Ok(false),
        Err(CellFault::Refused(why, at)) => Ok(why == reason && at == number),
        Err(CellFault::Pack(_, _)) => Ok(false),
        Err(CellFault::Memory) => Err(AllocError),
    }
}

/// Whether the bytes are a moment in a zone by its clock at 4.4.
fn is_zoned(alloc: Global, bytes: &[u8]) -> Result<bool, AllocError> {
    let Some(packed) = value_in(alloc, bytes)? else {
        return Ok(false);
    };
    match read(alloc, Version::V44, &packed) {
        Ok(Cell::ZonedLocal { .. }) => Ok(true),
        Ok(_) => Ok(false),
        Err(CellFault::Memory) => Err(AllocError),
        Err(_) => Ok(false),
    }
}

fn is_local_zone(alloc: Global, bytes: &[u8]) -> Result<bool, AllocError> {
    if is_zoned(alloc, bytes)? {
        is_no_cell(alloc, Version::V51, bytes, CellReason::NotInVersion, 0)
    } else {
        Ok(false)
    }
}
