//! Many connections at once over peers in memory.
use crate::crowd::{After, Crowd, Ends, Guest};
use crate::streams_of::server;
use server::Cause;
use server_event_loop::{Limits, Parting, Stopped, serve};
use std::alloc::Global;
use std::test::Fail;

/// A handshake for 5.1 alone, and a HELLO.
const HELLO: &[u8] =
    b"\x60\x60\xB0\x17\x00\x00\x01\x05\x00\x00\x00\x00\x00\x00\x00\x00\x00\x00\x00\x00\x00\x12\xB1\x01\xA1\x8Auser_agent\x83t/1\x00\x00";

const LOGON: &[u8] =
    b"\x00\x30\xB1\x6A\xA3\x86scheme\x85basic\x89principal\x84user\x8Bcredentials\x84pass\x00\x00";

/// RUN of ROWS with 127 rows, and PULL of all: some 1,300 bytes are answered.
const RUN: &[u8] =
    b"\x00\x0C\xB3\x10\x84ROWS\xA1\x81n\x7F\xA0\x00\x00\x00\x06\xB1\x3F\xA1\x81n\xFF\x00\x00";

const GOODBYE: &[u8] = b"\x00\x02\xB0\x02\x00\x00";

/// What a HELLO and a LOGON are answered by the first connection, in which `bolt-0` is.
const GREETED: &[u8] =
    b"\x00\x00\x01\x05\x00\x2B\xB1\x70\xA2\x86server\x8BBoltTable/1\x8Dconnection_id\x86bolt-0\x00\x00\x00\x03\xB1\x70\xA0\x00\x00";

/// Where the digit of the connection stands in it.
const DIGIT: usize = 48;

/// The most rounds of a run; more are taken only where one takes rounds for nothing.
const MOST_TURNS: u32 = 600;

fn limits() -> Limits {
    Limits {
        steps: 64,
        reads: 4,
        silence: 60_000,
        arrival: 10_000,
        last: 1_000,
    }
}

/// One that comes, and what becomes of it.
#[derive(Clone, Copy)]
struct Row {
    parts: &'static [&'static [u8]],
    step: usize,
    takes: usize,
    after: After,
    cause: Cause,
    /// Whether it is told what a HELLO and a LOGON are answered; else nothing.
    is_greeted: bool,
}

fn rows() -> [Row; 9] {
    [
        // It sends a byte at a time, and then takes one at a time.
        make_row(
            &[HELLO, LOGON, GOODBYE],
            1,
            100,
            After::Ends,
            Cause::Goodbye,
            true,
        ),
        make_row(
            &[HELLO, LOGON, GOODBYE],
            100,
            1,
            After::Ends,
            Cause::Goodbye,
            true,
        ),
        make_row(
            &[HELLO, LOGON, GOODBYE],
            4096,
            4096,
            After::Waits,
            Cause::Goodbye,
            true,
        ),
        // It is silent, or ends at once.
        make_row(&[], 1, 1, After::Waits, Cause::Lost, false),
        make_row(&[], 1, 1, After::Ends, Cause::Lost, false),
        make_row(
            &[b"GET / HTTP/1.1 and so on"],
            7,
            7,
            After::Waits,
            Cause::BadMagic,
            false,
        ),
        // It closes its half, and is answered whole.
        make_row(&[HELLO, LOGON], 4096, 7, After::Ends, Cause::Lost, true),
        make_row(&[HELLO, LOGON], 4096, 7, After::Breaks, Cause::Lost, false),
        // It is silent, and never reads.
        make_row(&[HELLO, LOGON], 4096, 0, After::Waits, Cause::Lost, false),
    ]
}

fn make_row(
    parts: &'static [&'static [u8]],
    step: usize,
    takes: usize,
    after: After,
    cause: Cause,
    is_greeted: bool,
) -> Row {
    Row {
        parts,
        step,
        takes,
        after,
        cause,
        is_greeted,
    }
}

/// Serves a crowd until nothing is ready and nobody's time is up: the crowd, and the ends that were told.
fn served(alloc: Global, guests: Vec<Guest>) -> Result<(Crowd, Ends), Fail> {
    let mut server = server(alloc)?;
    let mut crowd = Crowd::new(guests);
    let mut ends = Ends {
        ends: Vec::new(alloc),
    };
    let stopped = serve(alloc, &mut server, &mut crowd, &mut ends, &limits());
    match stopped {
        Stopped::Failed => Ok((crowd, ends)),
        Stopped::Memory => Err(Fail::new("no memory to begin")),
    }
}

/// How the connection of this number was told to end, where it was told once and all that its session had said was taken out.
fn cause_of(ends: &Ends, conn: usize) -> Option<Cause> {
    let mut found = None;
    for (number, parting) in ends.ends.iter() {
        if *number != conn as u64 {
            continue;
        }
        match (found, *parting) {
            (None, Parting::Whole(cause)) => found = Some(cause),
            _ => return None,
        }
    }
    found
}

/// What a HELLO and a LOGON are answered by the connection with this digit.
fn greeted(alloc: Global, digit: u8) -> Result<Vec<u8>, Fail> {
    let mut told = Vec::new(alloc);
    told.extend_from_slice(&GREETED[..DIGIT])?;
    told.push(digit)?;
    told.extend_from_slice(&GREETED[DIGIT + 1..])?;
    Ok(told)
}

#[test]
fn serves_each_of_many(rt: HostRuntime) -> Result<(), Fail> {
    let alloc = rt.alloc();
    let rows = rows();
    let mut guests = Vec::new(alloc);
    for row in rows.iter() {
        guests.push(Guest::new(alloc, row.parts, row.step, row.takes, row.after)?)?;
    }
    let (crowd, ends) = served(alloc, guests)?;
    assert!(rt; ends.ends.len() == rows.len());
    for (at, (row, guest)) in rows.iter().zip(crowd.guests().iter()).enumerate() {
        assert!(rt; cause_of(&ends, at) == Some(row.cause), "the cause of {at}");
        let wanted = greeted(alloc, b'0'.wrapping_add(at as u8))?;
        let is_told = guest.told() == wanted.as_slice();
        assert!(rt; is_told == row.is_greeted, "what {at} is told");
        assert!(rt; is_told || guest.told().is_empty(), "what {at} is told");
        assert!(rt; guest.is_closed(), "{at} isn't closed");
    }
    // Each is waited for twice at most: until it is given up, and until it is drained.
    assert!(rt; crowd.naps() <= 2 * rows.len() as u32);
    assert!(rt; crowd.turns() <= MOST_TURNS);
    Ok(())
}

/// Seventeen at once: the last is served as well, once there is room.
#[test]
fn serves_one_who_waits(rt: HostRuntime) -> Result<(), Fail> {
    let alloc = rt.alloc();
    let mut guests = Vec::new(alloc);
    for _ in 0..17 {
        guests.push(Guest::new(alloc, &[HELLO, LOGON, GOODBYE], 30, 9, After::Ends)?)?;
    }
    let (crowd, ends) = served(alloc, guests)?;
    assert!(rt; ends.ends.len() == 17);
    for (at, guest) in crowd.guests().iter().enumerate() {
        assert!(rt;
            cause_of(&ends, at) == Some(Cause::Goodbye),
            "the cause of {at}"
        );
        assert!(rt; guest.told().ends_with(b"\x00\x03\xB1\x70\xA0\x00\x00"));
        assert!(rt; guest.is_closed(), "{at} isn't closed");
    }
    Ok(())
}

/// One that asks for more than is kept of it and never reads takes no turns once it is full, and is given up for its silence.
#[test]
fn waits_for_one_that_never_reads(rt: HostRuntime) -> Result<(), Fail> {
    let alloc = rt.alloc();
    let mut parts = Vec::new(alloc);
    parts.push(HELLO)?;
    parts.push(LOGON)?;
    for _ in 0..300 {
        parts.push(RUN)?;
    }
    let mut guests = Vec::new(alloc);
    guests.push(Guest::new(alloc, parts.as_slice(), 4096, 0, After::Waits)?)?;
    let (crowd, ends) = served(alloc, guests)?;
    assert!(rt; cause_of(&ends, 0) == Some(Cause::Lost));
    assert!(rt;
        crowd
            .guests()
            .iter()
            .all(|guest| guest.is_closed() && guest.told().is_empty())
    );
    assert!(rt; crowd.naps() <= 2);
    assert!(rt; crowd.turns() <= MOST_TURNS);
    Ok(())
}

/// Where nobody comes, nothing is done.
#[test]
fn waits_for_somebody(rt: HostRuntime) -> Result<(), Fail> {
    let (crowd, ends) = served(rt.alloc(), Vec::new(rt.alloc()))?;
    assert!(rt; ends.ends.is_empty() && crowd.naps() == 0 && crowd.turns() == 0);
    Ok(())
}
