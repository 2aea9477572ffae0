// What is made of values, and written.
use crate::answers::is_refused;
use bytes::BytesMut;
use packstream::*;
use std::alloc::{AllocError, Global};
use std::test::*;

/// A value that can't be packed: a dictionary of pairs, a structure of so many fields, and an empty list in so many lists.
enum Bad {
    Pairs(&'static [(&'static str, i64)]),
    Fields(usize),
    Nested(usize),
}

/// Why each can't be, and where; of a dictionary with a key twice, the number of the value under the second of the two.
const UNMADE: &[(Bad, Reason, usize)] = &[
    (Bad::Fields(16), Reason::Size, 0),
    (Bad::Nested(32), Reason::Depth, 32),
    (Bad::Pairs(&[("a", 1), ("a", 2)]), Reason::KeyTwice, 2),
    (
        Bad::Pairs(&[
            ("k0", 0),
            ("k1", 1),
            ("k2", 2),
            ("k3", 3),
            ("k4", 4),
            ("k5", 5),
            ("k6", 6),
            ("k7", 7),
            ("k8", 8),
            ("k9", 9),
            ("k10", 10),
            ("k11", 11),
            ("k12", 12),
            ("k13", 13),
            ("k14", 14),
            ("k15", 15),
            ("k16", 16),
            ("k17", 17),
            ("k2", 2),
            ("k19", 19),
        ]),
        Reason::KeyTwice,
        19,
    ),
];

fn dict_of(alloc: Global, pairs: &[(&str, i64)]) -> Result<Value, AllocError> {
    let mut held = Vec::new(alloc);
    for (key, number) in pairs {
        held.push((String::from_str(alloc, key)?, Value::Int(*number)))?;
    }
    Ok(Value::Dict(held))
}

fn nested(alloc: Global, depth: usize) -> Result<Value, AllocError> {
    let mut value = Value::List(Vec::new(alloc));
    for _ in 0..depth {
        value = Value::List(vec![in alloc; value]?);
    }
    Ok(value)
}

fn made(alloc: Global, bad: &Bad) -> Result<Value, AllocError> {
    match bad {
        Bad::Pairs(pairs) => dict_of(alloc, pairs),
        Bad::Fields(count) => Ok(Value::Struct(0, vec![in alloc; Value::Null; *count]?)),
        Bad::Nested(depth) => nested(alloc, *depth),
    }
}

/// Whether both makers tell this.
fn is_unmade(alloc: Global, bad: &Bad, reason: Reason, place: usize) -> Result<bool, AllocError> {
    let is_alone = is_refused(Packed::new(made(alloc, bad)?), reason, place);
    let is_with_set = is_refused(Packed::new_in(alloc, made(alloc, bad)?), reason, place);
    Ok(is_alone && is_with_set)
}

#[test]
fn unmade_values(rt: HostRuntime) {
    for (row, (bad, reason, place)) in UNMADE.iter().enumerate() {
        let told = is_unmade(rt.alloc(), bad, *reason, *place);
        assert!(rt; told == Ok(true), "row {row}");
    }
}

/// Bytes as a value, so many.
fn bytes_of(alloc: Global, count: usize) -> Option<Packed> {
    let bytes = vec![in alloc; 7u8; count].ok()?;
    Packed::new(Value::Bytes(bytes)).ok()
}

/// A list of twice so many.
fn both(alloc: Global, count: usize) -> Option<Packed> {
    let bytes = vec![in alloc; 7u8; count].ok()?;
    let copy = bytes.clone().ok()?;
    let both = vec![in alloc; Value::Bytes(bytes), Value::Bytes(copy)].ok()?;
    Packed::new(Value::List(both)).ok()
}

/// Whether the value has this size, 65,537 if it is too large, and is put behind what there is; or is refused, and what there is stays.
fn is_put(made: Option<Packed>, out: &mut BytesMut, bytes: usize) -> bool {
    let Some(packed) = made else {
        return false;
    };
    let before = out.len();
    let is_told = match encode(&packed, out) {
        Ok(()) => bytes <= 65_536 && out.len() == before.saturating_add(bytes),
        Err(PackFault::Refused(Reason::Size, 0)) => bytes > 65_536 && out.len() == before,
        Err(_) => false,
    };
    is_told && size(&packed) == bytes
}

/// The largest size; then, behind a byte, sizes past the limit, and one that is none.
#[test]
fn sizes(rt: HostRuntime) {
    let alloc = rt.alloc();
    let mut out = BytesMut::new(alloc);
    assert!(rt; is_put(bytes_of(alloc, 65_533), &mut out, 65_536));
    out.truncate(1);
    assert!(rt; is_put(bytes_of(alloc, 65_534), &mut out, 65_537));
    assert!(rt; is_put(both(alloc, 40_000), &mut out, 65_537));
    assert!(rt; out.as_slice() == [0xCD].as_slice());
    assert!(rt; is_put(bytes_of(alloc, 40_000), &mut out, 40_003));
    assert!(rt; out.as_slice().starts_with(&[0xCD, 0xCD, 0x9C, 0x40, 7]));
}

/// A value written behind nothing, and again behind itself.
const APPENDED: &[&[u8]] = &[
    &[0x92, 1, 0x81, 0x61],
    &[0x92, 1, 0x81, 0x61, 0x92, 1, 0x81, 0x61],
];

#[test]
fn appended(rt: HostRuntime) -> Result<(), Fail> {
    let packed = decode(rt.alloc(), &[0x92, 1, 0x81, 0x61])?;
    let mut out = BytesMut::new(rt.alloc());
    for _ in 0..2 {
        out.clear();
        for wanted in APPENDED {
            assert!(rt; encode(&packed, &mut out).is_ok() && out.as_slice() == *wanted);
        }
    }
    Ok(())
}
