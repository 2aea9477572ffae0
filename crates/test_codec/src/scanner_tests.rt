//! What goes the short ways: what is scanned and spelled, and what is left to the decoder and the encoder. No clause says that anything is
//! scanned or spelled at all.
use crate::reader_tests::{DEEPEST, MANY_KEYS, TOO_DEEP};
use bytes::BytesMut;
use packstream::decode;
use std::alloc::Global;
use std::test::*;
use structures::{read, same};
use structures_decoder::{scan_cell, scan_dict, scan_int, scan_list, scan_text};
use structures_encoder::{Output, put_list};
use wire::Version;

/// Cells in the fewest bytes and in more.
const SCANNED: &[&[u8]] = &[
    &[0xC0],
    &[0xC2],
    &[0xC3],
    &[0x2A],
    &[0xF0],
    &[0xC8, 0x80],
    &[0xC9, 0x00, 0x01],
    &[0xC9, 0xFF, 0x7F],
    &[0xCA, 0x00, 0x00, 0x80, 0x00],
    &[0xCB, 0x80, 0, 0, 0, 0, 0, 0, 0],
    &[0xC1, 0x7F, 0xF0, 0, 0, 0, 0, 0, 1],
    &[0xCC, 3, 1, 2, 3],
    &[0xCD, 0, 3, 1, 2, 3],
    &[0x80],
    &[0x82, 0xC3, 0xA4],
    &[0xD0, 1, 0x61],
    &[0x90],
    &[0x93, 1, 0xF0, 0xC9, 0x04, 0xD2],
    &[0xD4, 2, 0xC0, 0x91, 0x81, 0x61],
    &[0xA0],
    &[
        0xA2, 0x81, 0x61, 0xA1, 0x81, 0x61, 0xA0, 0x81, 0x62, 0x92, 0x02, 0xC3,
    ],
    &[0xD8, 1, 0x81, 0x61, 1],
    &[0xB1, 0x44, 0xC9, 0x4E, 0x20],
    &[0xB2, 0x54, 1, 0xC9, 0x0E, 0x10],
    &[0xB1, 0x74, 1],
    &[0xB2, 0x64, 1, 2],
    &[0xB4, 0x45, 1, 2, 3, 4],
    &[
        0xB3, 0x58, 0xC9, 0x1C, 0x23, 0xC1, 0x3F, 0xF0, 0, 0, 0, 0, 0, 0, 0xC1, 0x40, 0, 0, 0, 0,
        0, 0, 0,
    ],
    &[
        0xB4, 0x59, 1, 0xC1, 0x3F, 0xF0, 0, 0, 0, 0, 0, 0, 0xC1, 0x40, 0, 0, 0, 0, 0, 0, 0, 0xC1,
        0x40, 8, 0, 0, 0, 0, 0, 0,
    ],
    &[0x92, 0x01, 0xB1, 0x44, 0x00],
    &[0xA1, 0x81, 0x61, 0xB1, 0x44, 0x00],
    DEEPEST,
    MANY_KEYS,
];

/// A cell of each structure, as 5.0 and 5.1 have it: with element ids, and with seconds in UTC.
const SCANNED_AT_5: &[&[u8]] = &[
    &[
        0xB4, 0x4E, 1, 0x91, 0x81, 0x41, 0xA1, 0x81, 0x6B, 0xB1, 0x44, 7, 0x81, 0x31,
    ],
    &[
        0xB8, 0x52, 1, 2, 3, 0x81, 0x52, 0xA0, 0x81, 0x31, 0x81, 0x32, 0x81, 0x33,
    ],
    &[
        0xB4, 0x72, 1, 0x81, 0x52, 0xA1, 0x81, 0x6B, 0x91, 0xC0, 0x81, 0x31,
    ],
    &[
        0xB3, 0x50, 0x92, 0xB4, 0x4E, 1, 0x90, 0xA0, 0x81, 0x31, 0xB4, 0x4E, 2, 0x90, 0xA0, 0x81,
        0x32, 0x91, 0xB4, 0x72, 9, 0x81, 0x52, 0xA0, 0x81, 0x39, 0x92, 0xFF, 1,
    ],
    &[0xB3, 0x49, 0xC9, 0x0E, 0x10, 5, 0xC9, 0x0E, 0x10],
    &[0xB3, 0x69, 1, 2, 0x83, 0x55, 0x54, 0x43],
];

/// The same as 4.4 has them: without element ids, and with local seconds.
const SCANNED_AT_4: &[&[u8]] = &[
    &[
        0xB3, 0x4E, 1, 0x91, 0x81, 0x41, 0xA1, 0x81, 0x6B, 0xB1, 0x44, 7,
    ],
    &[0xB5, 0x52, 1, 2, 3, 0x81, 0x52, 0xA0],
    &[0xB3, 0x72, 1, 0x81, 0x52, 0xA1, 0x81, 0x6B, 0x91, 0xC0],
    &[
        0xB3, 0x50, 0x92, 0xB3, 0x4E, 1, 0x90, 0xA0, 0xB3, 0x4E, 2, 0x90, 0xA0, 0x91, 0xB3, 0x72,
        9, 0x81, 0x52, 0xA0, 0x92, 0xFF, 1,
    ],
    &[0xB3, 0x46, 0xC9, 0x0E, 0x10, 5, 0xC9, 0x0E, 0x10],
    &[0xB3, 0x66, 1, 2, 0x83, 0x55, 0x54, 0x43],
];

/// Whether it is scanned as the cell that is read of its value, up to the byte behind it.
fn is_scanned(alloc: Global, version: Version, bytes: &[u8]) -> Result<bool, Fail> {
    let mut longer = Vec::from_slice(alloc, bytes)?;
    longer.push(0xC0)?;
    let Ok((cell, rest)) = scan_cell(alloc, version, &longer, 32) else {
        return Ok(false);
    };
    let packed = decode(alloc, bytes)?;
    Ok(rest.len() == 1 && same(&cell, &read(alloc, version, &packed)?))
}

#[test]
fn scanned(rt: HostRuntime) -> Result<(), Fail> {
    for bytes in SCANNED {
        for version in [Version::V44, Version::V50, Version::V51] {
            assert!(rt; is_scanned(rt.alloc(), version, bytes)?, "at {bytes:?}");
        }
    }
    Ok(())
}

/// What one version has as a structure's fields or tag another leaves to the decoder.
#[test]
fn structures_scanned(rt: HostRuntime) -> Result<(), Fail> {
    let alloc = rt.alloc();
    for bytes in SCANNED_AT_5 {
        assert!(rt; is_scanned(alloc, Version::V51, bytes)?, "at {bytes:?}");
        assert!(rt; is_scanned(alloc, Version::V50, bytes)?, "at {bytes:?}");
        assert!(rt;
            scan_cell(alloc, Version::V44, bytes, 32).is_err(),
            "at {bytes:?}"
        );
    }
    for bytes in SCANNED_AT_4 {
        assert!(rt; is_scanned(alloc, Version::V44, bytes)?, "at {bytes:?}");
        assert!(rt;
            scan_cell(alloc, Version::V51, bytes, 32).is_err(),
            "at {bytes:?}"
        );
    }
    Ok(())
}

/// Cells in the fewest bytes, the same at each version.
const SPELLED: &[&[u8]] = &[
    &[0xC0],
    &[0xC2],
    &[0xC3],
    &[0x2A],
    &[0xF0],
    &[0xC8, 0x80],
    &[0xC9, 0x04, 0xD2],
    &[0xCA, 0x00, 0x00, 0x80, 0x00],
    &[0xCB, 0x80, 0, 0, 0, 0, 0, 0, 0],
    &[0xC1, 0x7F, 0xF0, 0, 0, 0, 0, 0, 1],
    &[0xCC, 3, 1, 2, 3],
    &[0x80],
    &[0x82, 0xC3, 0xA4],
    &[0x90],
    &[0x92, 0xC0, 0x91, 0x81, 0x61],
    &[0xA0],
    &[
        0xA2, 0x81, 0x61, 0xA1, 0x81, 0x61, 0xA0, 0x81, 0x62, 0x92, 0x02, 0xC3,
    ],
    &[0xB1, 0x44, 0xC9, 0x4E, 0x20],
    &[0xB2, 0x54, 1, 0xC9, 0x0E, 0x10],
    &[0xB1, 0x74, 1],
    &[0xB2, 0x64, 1, 2],
    &[0xB4, 0x45, 1, 2, 3, 4],
    &[
        0xB3, 0x58, 0xC9, 0x1C, 0x23, 0xC1, 0x3F, 0xF0, 0, 0, 0, 0, 0, 0, 0xC1, 0x40, 0, 0, 0, 0,
        0, 0, 0,
    ],
    &[
        0xB4, 0x59, 1, 0xC1, 0x3F, 0xF0, 0, 0, 0, 0, 0, 0, 0xC1, 0x40, 0, 0, 0, 0, 0, 0, 0, 0xC1,
        0x40, 8, 0, 0, 0, 0, 0, 0,
    ],
    &[0xA1, 0x81, 0x61, 0xB1, 0x44, 0x00],
    MANY_KEYS,
];

/// The bytes of a list of the cell that these are at a version, written at another; None if it is left to the encoder.
fn spelled_as(
    alloc: Global,
    read_at: Version,
    version: Version,
    bytes: &[u8],
) -> Result<Option<BytesMut>, Fail> {
    let cell = read(alloc, read_at, &decode(alloc, bytes)?)?;
    let mut out = BytesMut::new(alloc);
    let mut adding = Output::taking(&mut out);
    match put_list(&mut adding, version, &[cell], 32) {
        Ok(()) => Ok(Some(adding.keep())),
        Err(_) => Ok(None),
    }
}

/// Whether the cell that these bytes are is written as them.
fn is_spelled(alloc: Global, version: Version, bytes: &[u8]) -> Result<bool, Fail> {
    match spelled_as(alloc, version, version, bytes)? {
        Some(out) => Ok(out.as_slice().split_first() == Some((&0x91, bytes))),
        None => Ok(false),
    }
}

#[test]
fn spelled(rt: HostRuntime) -> Result<(), Fail> {
    for bytes in SPELLED {
        for version in [Version::V44, Version::V50, Version::V51] {
            assert!(rt; is_spelled(rt.alloc(), version, bytes)?, "at {bytes:?}");
        }
    }
    Ok(())
}

/// What has a form at one version is left to the encoder at another.
#[test]
fn structures_spelled(rt: HostRuntime) -> Result<(), Fail> {
    let alloc = rt.alloc();
    for bytes in SCANNED_AT_5 {
        assert!(rt; is_spelled(alloc, Version::V51, bytes)?, "at {bytes:?}");
        assert!(rt; is_spelled(alloc, Version::V50, bytes)?, "at {bytes:?}");
    }
    for bytes in SCANNED_AT_4 {
        assert!(rt; is_spelled(alloc, Version::V44, bytes)?, "at {bytes:?}");
    }
    let node = SCANNED_AT_4[0];
    assert!(rt; spelled_as(alloc, Version::V44, Version::V51, node)?.is_none());
    Ok(())
}

/// Structures with a fault, what isn't good and what isn't whole.
const LEFT: &[&[u8]] = &[
    &[],
    &[0xB0, 0x0F],
    &[0xB0, 0x44],
    &[0xB2, 0x44, 0, 0],
    &[0xB1, 0x44, 0xC0],
    &[0xB1, 0x44],
    &[0xB1, 0x74, 0xFF],
    &[0xB3, 0x50, 0x90, 0x90, 0x90],
    &[0x92, 0x01, 0xB1, 0x44, 0x80],
    &[0xC4],
    &[0xC9, 0x00],
    &[0xC1, 0, 0, 0, 0, 0, 0, 0],
    &[0xCC, 2, 0],
    &[0x82, 0x61],
    &[0x81, 0xFF],
    &[0x92, 0x01],
    &[0xA1, 0x01, 0x01],
    &[0xA2, 0x81, 0x61, 0x01, 0xD0, 1, 0x61, 0x02],
    TOO_DEEP,
];

#[test]
fn left(rt: HostRuntime) -> Result<(), Fail> {
    for bytes in LEFT {
        assert!(rt;
            scan_cell(rt.alloc(), Version::V51, bytes, 32).is_err(),
            "at {bytes:?}"
        );
    }
    assert!(rt; scan_cell(rt.alloc(), Version::V51, DEEPEST, 31).is_err());
    Ok(())
}

/// Each by itself, and that another kind isn't taken for it.
#[test]
fn kinds(rt: HostRuntime) -> Result<(), Fail> {
    let alloc = rt.alloc();
    assert!(rt;
        scan_list(alloc, Version::V44, &[0x91, 0xC0], 1).is_ok_and(|x| x.0.len() == 1
            && x.1.is_empty())
    );
    assert!(rt; scan_list(alloc, Version::V44, &[0xA0], 1).is_err());
    assert!(rt;
        scan_dict(alloc, Version::V44, &[0xA1, 0x81, 0x61, 1], 1).is_ok_and(|x| x.0.len() == 1
            && x.1.is_empty())
    );
    assert!(rt; scan_dict(alloc, Version::V44, &[0x90], 1).is_err());
    assert!(rt; scan_int(&[0xC9, 0xFF, 0xFE, 0xC0]).is_ok_and(|x| x.0 == -2 && x.1.len() == 1));
    assert!(rt; scan_int(&[0x7F]).is_ok_and(|x| x.0 == 127 && x.1.is_empty()));
    assert!(rt; scan_int(&[0x80]).is_err());
    assert!(rt; scan_text(&[0x82, 0x6F, 0x6B, 0x01]).is_ok_and(|x| x.0 == "ok" && x.1.len() == 1));
    assert!(rt; scan_text(&[0x01]).is_err());
    Ok(())
}
