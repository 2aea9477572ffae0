// What no clause says: that the calls succeed with ample memory, and examples by their bytes.
use bytes::{BufMut, BytesMut};
use std::alloc::{AllocError, Global};
use std::test::Fail;
use wire::{
    BadMagic, Chunks, Cut, Dechunk, Part, Piece, Version, WireFault, Wish, choose, offer,
    put_message, put_noop,
};

/// Wishes, the offers of them, and the version that each is answered with.
const OFFERS: &[(Wish, [u8; 20], Version)] = &[
    (
        Wish::Newest,
        [
            0x60, 0x60, 0xB0, 0x17, 0, 1, 1, 5, 0, 0, 4, 4, 0, 0, 0, 0, 0, 0, 0, 0,
        ],
        Version::V51,
    ),
    (
        Wish::Only(Version::V44),
        [
            0x60, 0x60, 0xB0, 0x17, 0, 0, 4, 4, 0, 0, 0, 0, 0, 0, 0, 0, 0, 0, 0, 0,
        ],
        Version::V44,
    ),
    (
        Wish::Only(Version::V50),
        [
            0x60, 0x60, 0xB0, 0x17, 0, 0, 0, 5, 0, 0, 0, 0, 0, 0, 0, 0, 0, 0, 0, 0,
        ],
        Version::V50,
    ),
    (
        Wish::Only(Version::V51),
        [
            0x60, 0x60, 0xB0, 0x17, 0, 0, 1, 5, 0, 0, 0, 0, 0, 0, 0, 0, 0, 0, 0, 0,
        ],
        Version::V51,
    ),
];

/// Offers of others, and their answers: the first proposal that covers a version is taken, and another protocol is told.
const ANSWERS: &[([u8; 20], Result<Option<Version>, BadMagic>)] = &[
    (
        [
            0x60, 0x60, 0xB0, 0x17, 0, 0, 0, 0, 0, 0, 0, 0, 0, 0, 0, 0, 0, 0, 0, 0,
        ],
        Ok(None),
    ),
    (
        [
            0x60, 0x60, 0xB0, 0x17, 0, 0, 0, 5, 0, 0, 4, 4, 0, 0, 0, 0, 0, 0, 0, 0,
        ],
        Ok(Some(Version::V50)),
    ),
    (
        [
            0x60, 0x60, 0xB0, 0x17, 0, 1, 1, 5, 0, 0, 0, 0, 0, 0, 0, 0, 0, 0, 0, 0,
        ],
        Ok(Some(Version::V51)),
    ),
    (
        [
            0x60, 0x60, 0xB0, 0x17, 0, 2, 1, 5, 0, 0, 0, 0, 0, 0, 0, 0, 0, 0, 0, 0,
        ],
        Ok(Some(Version::V51)),
    ),
    (
        [
            0x60, 0x60, 0xB0, 0x17, 0, 0, 1, 5, 0, 0, 4, 4, 0, 0, 0, 0, 0, 0, 0, 0,
        ],
        Ok(Some(Version::V51)),
    ),
    (
        [
            0x60, 0x60, 0xB0, 0x17, 0, 0, 4, 4, 0, 1, 1, 5, 0, 0, 0, 0, 0, 0, 0, 0,
        ],
        Ok(Some(Version::V44)),
    ),
    (
        [
            0x60, 0x60, 0xB0, 0x17, 0, 2, 1, 5, 0, 0, 4, 4, 0, 0, 0, 0, 0, 0, 0, 0,
        ],
        Ok(Some(Version::V51)),
    ),
    (
        [
            0x60, 0x60, 0xB0, 0x17, 1, 2, 1, 5, 0, 2, 6, 4, 0, 0, 0, 0, 0, 0, 0, 0,
        ],
        Ok(Some(Version::V44)),
    ),
    (
        [
            0x60, 0x60, 0xB0, 0x17, 0, 0, 0, 3, 0, 1, 6, 4, 0, 0, 0, 0, 0, 0, 0, 0,
        ],
        Ok(None),
    ),
    ([0; 20], Err(BadMagic)),
    (
        [
            0x60, 0x60, 0xB0, 0x18, 0, 0, 4, 4, 0, 0, 0, 0, 0, 0, 0, 0, 0, 0, 0, 0,
        ],
        Err(BadMagic),
    ),
];

#[test]
fn offers_and_answers(rt: HostRuntime) {
    for (wish, bytes, version) in OFFERS {
        assert!(rt; offer(*wish) == *bytes, "at {bytes:?}");
        assert!(rt; choose(bytes) == Ok(Some(*version)), "at {bytes:?}");
    }
    for (bytes, answer) in ANSWERS {
        assert!(rt; choose(bytes) == *answer, "at {bytes:?}");
    }
}

/// What is told of a piece.
#[derive(Drop)]
enum Told<'a> {
    Nothing,
    Noop,
    Message(&'a [u8]),
    TooBig,
}

fn is_told(piece: &Piece, told: &Told) -> bool {
    match (piece, told) {
        (Piece::Nothing, Told::Nothing) => true,
        (Piece::Noop, Told::Noop) => true,
        (Piece::Message(held), Told::Message(message)) => held.as_slice() == *message,
        _ => false,
    }
}

/// Whether so many bytes of a piece are used, and this is told of it.
fn is_fed(dechunk: &mut Dechunk, piece: &[u8], used: usize, told: &Told) -> bool {
    match dechunk.feed(piece) {
        Ok(fed) => fed.used == used && is_told(&fed.what, told),
        Err(WireFault::TooBig { used: at }) => at == used && matches!(told, Told::TooBig),
        Err(WireFault::Memory) => false,
    }
}

/// A no-op, then RESET in two chunks, byte by byte, and what ends with each byte.
const RESET_BY_BYTES: &[(u8, Told)] = &[
    (0, Told::Nothing),
    (0, Told::Noop),
    (0, Told::Nothing),
    (1, Told::Nothing),
    (0xB0, Told::Nothing),
    (0, Told::Nothing),
    (1, Told::Nothing),
    (0x0F, Told::Nothing),
    (0, Told::Nothing),
    (0, Told::Message(&[0xB0, 0x0F])),
];

#[test]
fn reads_byte_by_byte(rt: HostRuntime) {
    let mut dechunk = Dechunk::new(rt.alloc());
    for (at, (byte, told)) in RESET_BY_BYTES.iter().enumerate() {
        assert!(rt; is_fed(&mut dechunk, &[*byte], 1, told), "at {at}");
    }
}

#[test]
fn stops_at_each_item(rt: HostRuntime) -> Result<(), Fail> {
    let mut dechunk = Dechunk::new(rt.alloc());
    let reset = [0, 0, 0, 1, 0xB0, 0, 1, 0x0F, 0, 0];
    assert!(rt; is_fed(&mut dechunk, &reset, 2, &Told::Noop));
    assert!(rt; is_fed(&mut dechunk, &reset[2..6], 4, &Told::Nothing));
    let mut twin = dechunk.clone()?;
    let (reset, goodbye) = (Told::Message(&[0xB0, 0x0F]), Told::Message(&[0xB0, 0x02]));
    assert!(rt; is_fed(&mut dechunk, &[1, 0x0F, 0, 0, 7, 7], 4, &reset));
    assert!(rt; is_fed(&mut twin, &[1, 0x02, 0, 0, 7, 7], 4, &goodbye));
    Ok(())
}

/// Pieces one after the other, and what of them is taken as what.
const PARTS: &[(&[u8], usize, Part)] = &[
    (&[], 0, Part::Head),
    (&[0, 0, 0, 1, 0xB0, 0, 1, 0x0F, 0, 0], 2, Part::Noop),
    (&[0, 1, 0xB0, 0, 1, 0x0F, 0, 0], 2, Part::Head),
    (&[0xB0, 0, 1, 0x0F, 0, 0], 1, Part::Data),
    (&[0], 1, Part::Head),
    (&[1, 0x0F, 0, 0], 1, Part::Head),
    (&[0x0F, 0, 0], 1, Part::Data),
    (&[0, 0], 2, Part::End),
];

#[test]
fn cuts_parts(rt: HostRuntime) {
    let mut chunks = Chunks::new();
    for (piece, used, what) in PARTS {
        let cut = Cut {
            used: *used,
            what: *what,
        };
        assert!(rt; chunks.next(piece) == cut, "at {piece:?}");
    }
}

#[test]
fn cuts_no_more_than_a_message(rt: HostRuntime) {
    let longest = [7; 65535];
    let parts = [
        ([0xFF, 0xFF].as_slice(), 2, Part::Head),
        (longest.as_slice(), 65535, Part::Data),
        ([0, 2, 7].as_slice(), 2, Part::TooBig),
        ([0, 2, 7].as_slice(), 0, Part::TooBig),
    ];
    let mut chunks = Chunks::new();
    for (piece, used, what) in parts {
        assert!(rt; chunks.next(piece) == Cut { used, what });
    }
}

#[test]
fn the_longest_message(rt: HostRuntime) -> Result<(), Fail> {
    let longest = vec![in rt.alloc(); 7u8; 65536]?;
    let mut out = BytesMut::new(rt.alloc());
    assert!(rt; put_message(&longest, &mut out).is_ok() && out.len() == 65542);
    assert!(rt; out.as_slice().starts_with(&[0xFF, 0xFF, 7]));
    assert!(rt; out.as_slice().ends_with(&[0, 1, 7, 0, 0]));
    let mut dechunk = Dechunk::new(rt.alloc());
    assert!(rt;
        is_fed(
            &mut dechunk,
            out.as_slice(),
            65542,
            &Told::Message(&longest)
        )
    );
    Ok(())
}

#[test]
fn writes_no_longer_message(rt: HostRuntime) -> Result<(), Fail> {
    let past = vec![in rt.alloc(); 7u8; 65537]?;
    let mut out = BytesMut::new(rt.alloc());
    assert!(rt; put_noop(&mut out).is_ok() && out.len() == 2);
    let told = put_message(&past, &mut out);
    assert!(rt; matches!(told, Err(WireFault::TooBig { used: 0 })) && out.len() == 2);
    Ok(())
}

/// The longest chunk, and the header of one more.
fn past_the_limit(alloc: Global) -> Result<BytesMut, AllocError> {
    let mut bytes = BytesMut::new(alloc);
    bytes.extend_from_slice(&[0xFF, 0xFF])?;
    bytes.put_bytes(7, 65535)?;
    bytes.extend_from_slice(&[0, 2, 7, 7])?;
    Ok(bytes)
}

#[test]
fn refuses_at_the_header(rt: HostRuntime) -> Result<(), Fail> {
    let bytes = past_the_limit(rt.alloc())?;
    let mut dechunk = Dechunk::new(rt.alloc());
    assert!(rt; is_fed(&mut dechunk, bytes.as_slice(), 65539, &Told::TooBig));
    assert!(rt; is_fed(&mut dechunk, &[0, 0], 0, &Told::TooBig));
    assert!(rt; is_fed(&mut dechunk, &[], 0, &Told::TooBig));
    Ok(())
}
