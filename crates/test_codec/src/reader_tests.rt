// What is read of bytes: by both decoders of packstream, and by the reader.
use crate::answers::{gives, is_refused};
use packstream::{PackFault, Packed, Reason, Value, decode, decode_front};
use packstream_incremental::{Reader, read_piece};
use std::alloc::{AllocError, Global};
use std::test::*;

/// HELLO of version 4.4, whose every head is as short as can be.
const HELLO: &[u8] = &[
    0xB1, 0x01, 0xA4, 0x8A, 0x75, 0x73, 0x65, 0x72, 0x5F, 0x61, 0x67, 0x65, 0x6E, 0x74, 0x83, 0x74,
    0x2F, 0x31, 0x86, 0x73, 0x63, 0x68, 0x65, 0x6D, 0x65, 0x85, 0x62, 0x61, 0x73, 0x69, 0x63, 0x89,
    0x70, 0x72, 0x69, 0x6E, 0x63, 0x69, 0x70, 0x61, 0x6C, 0x84, 0x75, 0x73, 0x65, 0x72, 0x8B, 0x63,
    0x72, 0x65, 0x64, 0x65, 0x6E, 0x74, 0x69, 0x61, 0x6C, 0x73, 0x84, 0x70, 0x61, 0x73, 0x73,
];

/// As many lists around each other as may be.
pub const DEEPEST: &[u8] = &[
    0x91, 0x91, 0x91, 0x91, 0x91, 0x91, 0x91, 0x91, 0x91, 0x91, 0x91, 0x91, 0x91, 0x91, 0x91, 0x91,
    0x91, 0x91, 0x91, 0x91, 0x91, 0x91, 0x91, 0x91, 0x91, 0x91, 0x91, 0x91, 0x91, 0x91, 0x91, 0x90,
];

/// One list more.
pub const TOO_DEEP: &[u8] = &[
    0x91, 0x91, 0x91, 0x91, 0x91, 0x91, 0x91, 0x91, 0x91, 0x91, 0x91, 0x91, 0x91, 0x91, 0x91, 0x91,
    0x91, 0x91, 0x91, 0x91, 0x91, 0x91, 0x91, 0x91, 0x91, 0x91, 0x91, 0x91, 0x91, 0x91, 0x91, 0x91,
    0x90,
];

/// A dictionary of 40 keys.
pub const MANY_KEYS: &[u8] = b"\xD8\x28\
    \x82aa\x01\x82ab\x01\x82ac\x01\x82ad\x01\x82ae\x01\x82af\x01\x82ag\x01\x82ah\x01\x82ai\x01\x82aj\x01\
    \x82ak\x01\x82al\x01\x82am\x01\x82an\x01\x82ao\x01\x82ap\x01\x82ba\x01\x82bb\x01\x82bc\x01\x82bd\x01\
    \x82be\x01\x82bf\x01\x82bg\x01\x82bh\x01\x82bi\x01\x82bj\x01\x82bk\x01\x82bl\x01\x82bm\x01\x82bn\x01\
    \x82bo\x01\x82bp\x01\x82ca\x01\x82cb\x01\x82cc\x01\x82cd\x01\x82ce\x01\x82cf\x01\x82cg\x01\x82ch\x01";

/// A dictionary of 40 keys, the last of which is the fourth too.
const FOURTH_AGAIN: &[u8] = b"\xD8\x28\
    \x82aa\x01\x82ab\x01\x82ac\x01\x82ad\x01\x82ae\x01\x82af\x01\x82ag\x01\x82ah\x01\x82ai\x01\x82aj\x01\
    \x82ak\x01\x82al\x01\x82am\x01\x82an\x01\x82ao\x01\x82ap\x01\x82ba\x01\x82bb\x01\x82bc\x01\x82bd\x01\
    \x82be\x01\x82bf\x01\x82bg\x01\x82bh\x01\x82bi\x01\x82bj\x01\x82bk\x01\x82bl\x01\x82bm\x01\x82bn\x01\
    \x82bo\x01\x82bp\x01\x82ca\x01\x82cb\x01\x82cc\x01\x82cd\x01\x82ce\x01\x82cf\x01\x82cg\x01\x82ad\x01";

/// A dictionary of 17 keys, the last of which is the one before it too.
const LAST_AGAIN: &[u8] = b"\xD8\x11\
    \x82aa\x01\x82ab\x01\x82ac\x01\x82ad\x01\x82ae\x01\x82af\x01\x82ag\x01\x82ah\x01\x82ai\x01\x82aj\x01\
    \x82ak\x01\x82al\x01\x82am\x01\x82an\x01\x82ao\x01\x82ap\x01\x82ap\x01";

/// Values in the fewest bytes.
const SHORTEST: &[&[u8]] = &[
    &[0xF0],
    &[0xC8, 0xEF],
    &[0x7F],
    &[0xC9, 0x00, 0x80],
    &[0xC9, 0xFF, 0x7F],
    &[0xCA, 0x00, 0x00, 0x80, 0x00],
    &[0xC8, 0x80],
    &[0xC9, 0x7F, 0xFF],
    &[0xCB, 0x80, 0, 0, 0, 0, 0, 0, 0],
    &[0xC1, 0x7F, 0xF0, 0, 0, 0, 0, 0, 1],
    &[0xC1, 0x3F, 0xF3, 0xAE, 0x14, 0x7A, 0xE1, 0x47, 0xAE],
    &[0x2A],
    &[0xC9, 0x04, 0xD2],
    &[0xCC, 3, 1, 2, 3],
    &[0x93, 1, 2, 3],
    &[0xA1, 0x83, 0x6F, 0x6E, 0x65, 0x84, 0x65, 0x69, 0x6E, 0x73],
    &[0xB3, 0x4E, 0xC0, 0xC2, 0xC3],
    &[0x92, 0x90, 0xA0],
    &[0xA2, 0x81, 0x61, 0xA1, 0x81, 0x61, 0xA0, 0x81, 0x62, 0x02],
    HELLO,
    DEEPEST,
    MANY_KEYS,
];

/// Values in more bytes than they need, and in the fewest.
const LONGER: &[(&[u8], &[u8])] = &[
    (&[0xC9, 0x00, 0x01], &[0x01]),
    (&[0xCB, 0, 0, 0, 0, 0, 0, 0, 1], &[0x01]),
    (&[0xD0, 1, 0x61], &[0x81, 0x61]),
    (&[0xD8, 1, 0x81, 0x61, 1], &[0xA1, 0x81, 0x61, 1]),
];

/// Whether a copy of the value is written as these bytes.
fn is_cloned(alloc: Global, packed: &Packed, output: &[u8]) -> bool {
    match packed.clone() {
        Ok(copy) => gives(alloc, Ok(copy), output),
        Err(_) => false,
    }
}

/// Whether what is made of a copy is written as these bytes.
fn is_remade(alloc: Global, packed: &Packed, output: &[u8]) -> bool {
    match packed.value().clone() {
        Ok(value) => gives(alloc, Packed::new_in(alloc, value), output),
        Err(_) => false,
    }
}

/// Whether a copy of what the bytes are read as, and what is made of a copy, are written as these.
fn is_copied(alloc: Global, input: &[u8], output: &[u8]) -> bool {
    match decode(alloc, input) {
        Ok(packed) => is_cloned(alloc, &packed, output) && is_remade(alloc, &packed, output),
        Err(_) => false,
    }
}

/// The bytes with one more behind them.
fn one_more(alloc: Global, input: &[u8]) -> Result<Vec<u8>, AllocError> {
    let mut longer = Vec::from_slice(alloc, input)?;
    longer.push(0xC0)?;
    Ok(longer)
}

/// Whether the front of these bytes, of so many, is read as the value that is written as these.
fn is_front(alloc: Global, longer: &[u8], count: usize, output: &[u8]) -> bool {
    match decode_front(alloc, longer) {
        Ok((front, used)) => used == count && gives(alloc, Ok(front), output),
        Err(_) => false,
    }
}

/// Fed byte by byte.
fn by_bytes(alloc: Global, bytes: &[u8]) -> Result<Reader, AllocError> {
    let mut reader = Reader::new(alloc);
    for byte in bytes {
        reader.feed(&[*byte])?;
    }
    Ok(reader)
}

/// Whether the decoder, and the reader, fed byte by byte or as one piece, give the value that is written as these bytes.
fn is_read(alloc: Global, input: &[u8], output: &[u8]) -> bool {
    let is_of_bytes = match by_bytes(alloc, input) {
        Ok(reader) => gives(alloc, reader.finish(), output),
        Err(_) => false,
    };
    is_of_bytes
        && gives(alloc, read_piece(alloc, input), output)
        && gives(alloc, decode(alloc, input), output)
}

/// Whether decoders and reader read the bytes as the value that is written as these.
fn is_spelled(alloc: Global, input: &[u8], output: &[u8]) -> bool {
    let is_front = match one_more(alloc, input) {
        Ok(longer) => is_front(alloc, &longer, input.len(), output),
        Err(_) => false,
    };
    is_front && is_copied(alloc, input, output) && is_read(alloc, input, output)
}

#[test]
fn spellings(rt: HostRuntime) {
    for bytes in SHORTEST {
        assert!(rt; is_spelled(rt.alloc(), bytes, bytes), "at {bytes:?}");
    }
    for (bytes, output) in LONGER {
        assert!(rt; is_spelled(rt.alloc(), bytes, output), "at {bytes:?}");
    }
}

/// What a value is.
enum Wanted {
    Int(i64),
    Float(u64),
    Bytes(&'static [u8]),
    /// A dictionary of one key, with a text.
    Pair(&'static str, &'static str),
}

/// Bytes, and the values that they are read as.
const VALUES: &[(&[u8], Wanted)] = &[
    (&[0xF0], Wanted::Int(-16)),
    (&[0xC8, 0xEF], Wanted::Int(-17)),
    (&[0xC8, 0x80], Wanted::Int(-128)),
    (&[0xC9, 0x7F, 0xFF], Wanted::Int(32_767)),
    (
        &[0xCB, 0x80, 0, 0, 0, 0, 0, 0, 0],
        Wanted::Int(-9_223_372_036_854_775_808),
    ),
    (&[0xC9, 0x00, 0x01], Wanted::Int(1)),
    (&[0x2A], Wanted::Int(42)),
    (&[0xC9, 0x04, 0xD2], Wanted::Int(1_234)),
    (
        &[0xC1, 0x7F, 0xF0, 0, 0, 0, 0, 0, 1],
        Wanted::Float(0x7FF0_0000_0000_0001),
    ),
    (&[0xCC, 3, 1, 2, 3], Wanted::Bytes(&[1, 2, 3])),
    (
        &[0xA1, 0x83, 0x6F, 0x6E, 0x65, 0x84, 0x65, 0x69, 0x6E, 0x73],
        Wanted::Pair("one", "eins"),
    ),
];

fn is_value(value: &Value, wanted: &Wanted) -> bool {
    match (value, wanted) {
        (Value::Int(n), Wanted::Int(number)) => n == number,
        (Value::Float(bits), Wanted::Float(number)) => bits == number,
        (Value::Bytes(held), Wanted::Bytes(bytes)) => held.as_slice() == *bytes,
        (Value::Dict(pairs), Wanted::Pair(key, text)) => match pairs.as_slice() {
            [(name, Value::Text(held))] => name.as_str() == *key && held.as_str() == *text,
            _ => false,
        },
        _ => false,
    }
}

#[test]
fn values(rt: HostRuntime) -> Result<(), Fail> {
    for (bytes, wanted) in VALUES {
        let packed = decode(rt.alloc(), bytes)?;
        assert!(rt; is_value(packed.value(), wanted), "at {bytes:?}");
    }
    Ok(())
}

/// Bytes, what they are refused for, and the place.
const REFUSED: &[(&[u8], Reason, usize)] = &[
    (&[], Reason::Short, 0),
    (&[0xB0], Reason::Short, 0),
    (&[0xCC], Reason::Short, 0),
    (&[0xD0, 5, 0x61], Reason::Short, 0),
    (&[0x82, 0xFF], Reason::Short, 0),
    (&[0xBF, 1], Reason::Short, 2),
    (&[0x92, 1], Reason::Short, 2),
    (&[0x91, 0xC9, 0x01], Reason::Short, 1),
    (&[0xA1, 0x81, 0x61], Reason::Short, 3),
    (&[0xD6, 0, 0x0F, 0x42, 0x40], Reason::Short, 5),
    (&[0xD6, 0xFF, 0xFF, 0xFF, 0xFF], Reason::Short, 5),
    (&[0xDA, 0xFF, 0xFF, 0xFF, 0xFF], Reason::Short, 5),
    (&[0x91; 32], Reason::Short, 32),
    (&[0xC4], Reason::Marker, 0),
    (&[0x91, 0xC4], Reason::Marker, 1),
    (&[0xA1, 0xC4, 1], Reason::Marker, 1),
    (&[0x81, 0xFF], Reason::Utf8, 0),
    (&[0x91, 0x82, 0xC3, 0x28], Reason::Utf8, 1),
    (&[0xA1, 1, 1], Reason::KeyKind, 1),
    (&[0xA1, 1], Reason::KeyKind, 1),
    (&[0xA2, 0x81, 0x61, 1, 0x81, 0x61, 2], Reason::KeyTwice, 4),
    (&[0xA2, 0x81, 0x61, 1, 0x81, 0x61], Reason::KeyTwice, 4),
    (
        &[0xA3, 0x80, 0x01, 0x81, 0x61, 0xA1, 0x80, 0x02, 0x80],
        Reason::KeyTwice,
        8,
    ),
    (FOURTH_AGAIN, Reason::KeyTwice, 158),
    (LAST_AGAIN, Reason::KeyTwice, 66),
    (&[0x91; 33], Reason::Depth, 32),
    (TOO_DEEP, Reason::Depth, 32),
    (&[1, 2], Reason::Trailing, 1),
    (&[0xB0, 0x0F, 0], Reason::Trailing, 2),
];

/// Whether both decoders tell this; what is left over is none of the concern of that of a front.
fn is_undecoded(alloc: Global, input: &[u8], reason: Reason, place: usize) -> bool {
    let is_front = match decode_front(alloc, input) {
        Err(PackFault::Refused(why, at)) => why == reason && at == place,
        Err(PackFault::Memory) => false,
        Ok((_, used)) => reason == Reason::Trailing && used == place,
    };
    is_front && is_refused(decode(alloc, input), reason, place)
}

/// Whether the reader tells this of the whole, and, fed byte by byte, of these bytes and of more, which change only that they are short.
fn is_unread(alloc: Global, input: &[u8], reason: Reason, place: usize) -> bool {
    let Ok(mut reader) = by_bytes(alloc, input) else {
        return false;
    };
    let is_refused_here = is_refused(reader.finish(), reason, place);
    let is_more = reader.feed(HELLO).is_ok();
    let stays = reason == Reason::Short || is_refused(reader.finish(), reason, place);
    let is_refused_whole = is_refused(read_piece(alloc, input), reason, place);
    is_refused_here && is_more && stays && is_refused_whole
}

#[test]
fn refusals(rt: HostRuntime) {
    for (bytes, reason, place) in REFUSED {
        assert!(rt;
            is_undecoded(rt.alloc(), bytes, *reason, *place)
                && is_unread(rt.alloc(), bytes, *reason, *place),
            "at {bytes:?}"
        );
    }
}

/// A dictionary of 400 pairs, of which the last key is this one.
fn many_keys(alloc: Global, last: [u8; 2]) -> Result<Vec<u8>, AllocError> {
    let mut bytes = Vec::from_slice(alloc, &[0xD9, 0x01, 0x90])?;
    for number in 0u16..400 {
        let own = [(number / 100) as u8, (number % 100) as u8];
        let [high, low] = if number == 399 { last } else { own };
        bytes.extend_from_slice(&[0x82, high, low, 0xC0])?;
    }
    Ok(bytes)
}

/// Whether a dictionary with this last key is read, or told to have a key twice.
fn are_keys(alloc: Global, last: [u8; 2], is_good: bool) -> bool {
    match many_keys(alloc, last) {
        Ok(bytes) if is_good => is_read(alloc, &bytes, &bytes),
        Ok(bytes) => is_unread(alloc, &bytes, Reason::KeyTwice, 1599),
        Err(_) => false,
    }
}

#[test]
fn keys_of_a_stranger(rt: HostRuntime) {
    assert!(rt; are_keys(rt.alloc(), [3, 99], true));
    for again in [[0, 0], [1, 50], [3, 98]] {
        assert!(rt; are_keys(rt.alloc(), again, false), "at {again:?}");
    }
}

/// Whether HELLO is read of three pieces. The point behind the first is held, and the reader returns to it from another piece.
fn is_read_in_three(alloc: Global, first: &[u8], second: &[u8], third: &[u8]) -> bool {
    let mut reader = Reader::new(alloc);
    let is_begun = reader.feed(first).is_ok();
    reader.hold();
    let is_left = reader.feed(&[0x84, 0x61, 0xD0, 0xA1, 0x81, 0x61]).is_ok();
    reader.back();
    let is_fed = reader.feed(second).is_ok() && reader.feed(third).is_ok();
    is_begun && is_left && is_fed && gives(alloc, reader.finish(), HELLO)
}

#[test]
fn every_cutting(rt: HostRuntime) {
    for one in 0..HELLO.len() {
        let (first, rest) = HELLO.split_at(one);
        for two in 0..=rest.len() {
            let (second, third) = rest.split_at(two);
            assert!(rt;
                is_read_in_three(rt.alloc(), first, second, third),
                "at {one}, {two}"
            );
        }
    }
}
