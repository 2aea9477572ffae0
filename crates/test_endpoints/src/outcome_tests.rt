//! What a client tells, refuses and loses.

use crate::calls::Asked::*;
use crate::calls::Step::*;
use crate::calls::{
    AT_5_0, FAILURE, IGNORED, MORE, MORE_OF_ONE, NEW, OLD, ROW, SUCCESS, Step, Told, plays,
};
use client::*;
use machine::Phase;
use std::test::*;
use wire::{Version, Wish};

const OLD_ALONE: Wish = Wish::Only(Version::V44);

const ALONE_AT_5_0: Wish = Wish::Only(Version::V50);

/// A client of 4.4 is logged on.
const LOGS_ON: &[Step] = &[
    Feeds(OLD, Told::Version(Version::V44)),
    Asks(Old("hello"), "accepted"),
    Hears(SUCCESS, Told::Summary(0, Outcome::Done, Phase::Ready)),
];

const ANOTHER_VERSION: &[Step] = &[Feeds(NEW, Told::BadPeer), Feeds(NEW, Told::Closed)];

const AN_OLDER_VERSION: &[Step] = &[Feeds(OLD, Told::BadPeer), Feeds(OLD, Told::Closed)];

const VERSION_5_0: &[Step] = &[Feeds(AT_5_0, Told::BadPeer), Feeds(AT_5_0, Told::Closed)];

const A_STRANGE_VERSION: &[Step] = &[Feeds(&[0, 1, 1, 5], Told::BadPeer)];

const NO_VERSION: &[Step] = &[
    Feeds(&[0, 0], Told::Nothing(2)),
    Asks(Line("reset"), "C1"),
    Feeds(&[0, 0, 9], Told::NoVersion),
    Feeds(&[0, 0, 9], Told::Closed),
    Asks(Line("reset"), "C4"),
    Takes(100, 20),
];

const OFFERS: &[Step] = &[
    TakesOut(6, &[0x60, 0x60, 0xB0, 0x17, 0, 1]),
    TakesOut(100, &[1, 5, 0, 0, 4, 4, 0, 0, 0, 0, 0, 0, 0, 0]),
    Feeds(&[0, 0, 4, 4, 1], Told::Version(Version::V44)),
    Asks(Line("hello"), "M5"),
    Takes(100, 0),
    Asks(Line("goodbye"), "accepted"),
    Stands(1, Phase::Fresh),
    TakesOut(100, &[0, 2, 0xB0, 2, 0, 0]),
];

/// At 5.0 a HELLO has the login, and there are no LOGON and LOGOFF.
const LOGS_ON_AT_5_0: &[Step] = &[
    Takes(100, 20),
    Feeds(AT_5_0, Told::Version(Version::V50)),
    Asks(Line("hello"), "M5"),
    Asks(Line("logon"), "C1"),
    Asks(Old("hello"), "accepted"),
    Asks(Line("logon"), "C1"),
    Takes(100, 67),
    Hears(SUCCESS, Told::Summary(0, Outcome::Done, Phase::Ready)),
    Asks(Line("logoff"), "C1"),
];

/// A session at 5.1, with a result in two parts.
const SESSION: &[Step] = &[
    Feeds(NEW, Told::Version(Version::V51)),
    Asks(Line("hello"), "accepted"),
    Asks(Line("reset"), "C1"),
    Hears(SUCCESS, Told::Summary(0, Outcome::Done, Phase::Unauth)),
    Asks(Line("logon"), "accepted"),
    Hears(SUCCESS, Told::Summary(1, Outcome::Done, Phase::Ready)),
    Asks(Line("run ONE A0"), "accepted"),
    Asks(Line("pull 2"), "accepted"),
    Asks(Line("run ONE A0"), "C1"),
    Hears(SUCCESS, Told::Summary(2, Outcome::Done, Phase::Streaming)),
    Asks(Line("run ONE A0"), "C1"),
    Hears(ROW, Told::Row),
    Hears(MORE, Told::Summary(3, Outcome::Done, Phase::Streaming)),
    Asks(Line("pull -1"), "accepted"),
    Asks(Line("run ONE A0"), "accepted"),
    Stands(2, Phase::Streaming),
    Hears(
        MORE_OF_ONE,
        Told::Summary(4, Outcome::Committed, Phase::Ready),
    ),
    Stands(1, Phase::Ready),
];

const LOGGED_OFF: &[Step] = &[
    Feeds(NEW, Told::Version(Version::V51)),
    Asks(Line("hello"), "accepted"),
    Asks(Line("logon"), "accepted"),
    Hears(SUCCESS, Told::Summary(0, Outcome::Done, Phase::Unauth)),
    Hears(SUCCESS, Told::Summary(1, Outcome::Done, Phase::Ready)),
    Asks(Line("logoff"), "accepted"),
    Asks(Line("reset"), "C1"),
];

const LENDS_ITS_READER: &[Step] = &[
    Feeds(NEW, Told::Version(Version::V51)),
    Asks(Line("hello"), "accepted"),
    Feeds(&[0, 2, 0xB1, 0x70], Told::Nothing(4)),
    Reads(false),
    Feeds(&[0, 1, 0xA0], Told::Nothing(3)),
    Reads(true),
    Feeds(&[0, 0], Told::Summary(0, Outcome::Done, Phase::Unauth)),
    Reads(false),
];

/// A message that can't be a value is a bad answer with its last byte, and not before.
const BAD_AT_ITS_END: &[Step] = &[
    Feeds(NEW, Told::Version(Version::V51)),
    Asks(Line("hello"), "accepted"),
    Feeds(&[0, 2, 0xC4, 0xC4], Told::Nothing(4)),
    Feeds(&[0, 1, 0xC4, 0], Told::Nothing(4)),
    Feeds(&[0], Told::BadPeer),
    Feeds(&[0], Told::Closed),
];

const ROW_FOR_A_RUN: &[Step] = &[
    Asks(Line("run ONE A0"), "accepted"),
    Hears(ROW, Told::BadPeer),
    Hears(ROW, Told::Closed),
];

const MORE_WITHOUT_A_ROW: &[Step] = &[
    Asks(Line("run ONE A0"), "accepted"),
    Asks(Line("pull -1"), "accepted"),
    Hears(SUCCESS, Told::Summary(1, Outcome::Done, Phase::Streaming)),
    Hears(MORE, Told::BadPeer),
];

const IGNORED_RESET: &[Step] = &[
    Asks(Line("reset"), "accepted"),
    Hears(IGNORED, Told::BadPeer),
];

const IGNORED_GOODBYE: &[Step] = &[
    Asks(Line("goodbye"), "accepted"),
    Hears(IGNORED, Told::BadPeer),
    Asks(Line("reset"), "C4"),
];

const UNASKED: &[Step] = &[Hears(SUCCESS, Told::BadPeer)];

const UNREADABLE: &[Step] = &[
    Asks(Line("reset"), "accepted"),
    Hears(&[0xC0], Told::BadPeer),
];

const GOODBYE: &[Step] = &[
    Awaits(false),
    Asks(Line("reset"), "accepted"),
    Awaits(true),
    Hears(SUCCESS, Told::Summary(1, Outcome::Done, Phase::Ready)),
    Asks(Line("goodbye"), "accepted"),
    Awaits(false),
    Asks(Line("reset"), "C1"),
    Loses(&[(2, Outcome::Lost)]),
    Stands(0, Phase::Ready),
    Loses(&[]),
    Feeds(&[0, 0], Told::Closed),
    Takes(1000, 99),
];

/// A transaction in one pipeline.
const TRANSACTION: &[Step] = &[
    Asks(Line("begin"), "accepted"),
    Asks(Line("run ONE A0"), "accepted"),
    Asks(Line("pull -1"), "accepted"),
    Asks(Line("commit"), "accepted"),
];

const UNHEARD: &[Step] = &[Loses(&[
    (1, Outcome::Lost),
    (2, Outcome::Lost),
    (3, Outcome::Lost),
    (4, Outcome::Unknown),
])];

const FAILED: &[Step] = &[
    Hears(SUCCESS, Told::Summary(1, Outcome::Done, Phase::TxReady)),
    Hears(FAILURE, Told::Summary(2, Outcome::Refused, Phase::Halted)),
    Loses(&[(3, Outcome::Lost), (4, Outcome::Lost)]),
];

const IGNORED_AFTER_A_FAILURE: &[Step] = &[
    Asks(Line("begin"), "accepted"),
    Asks(Line("run ONE A0"), "accepted"),
    Asks(Line("pull -1"), "accepted"),
    Asks(Line("reset"), "accepted"),
    Hears(SUCCESS, Told::Summary(1, Outcome::Done, Phase::TxReady)),
    Hears(FAILURE, Told::Summary(2, Outcome::Refused, Phase::Halted)),
    Hears(IGNORED, Told::Summary(3, Outcome::Ignored, Phase::Halted)),
    Hears(SUCCESS, Told::Summary(4, Outcome::Done, Phase::Ready)),
];

const IGNORED_BEFORE_A_RESET: &[Step] = &[
    Asks(Line("run ONE A0"), "accepted"),
    Asks(Line("reset"), "accepted"),
    Hears(IGNORED, Told::Summary(1, Outcome::Ignored, Phase::Halted)),
];

const IGNORED_ALONE: &[Step] = &[
    Asks(Line("run ONE A0"), "accepted"),
    Hears(IGNORED, Told::BadPeer),
];

const ASKS_A_RESET: Step = Asks(Line("reset"), "accepted");

const FULL: &[Step] = &[
    Asks(Line("reset"), "C2"),
    Asks(Line("commit"), "C1"),
    Hears(SUCCESS, Told::Summary(1, Outcome::Done, Phase::Ready)),
    Asks(Line("pull 0"), "C1"),
    Asks(Line("reset"), "accepted"),
];

const SIZES: &[Step] = &[
    Takes(1000, 87),
    Asks(Echo(65523), "C3"),
    Asks(Echo(65522), "accepted"),
    Takes(100_000, 65542),
];

/// What can't be written, each time with why and where; nothing of it goes out.
const UNWRITABLE: &[Step] = &[
    Takes(1000, 87),
    Asks(Nested(31), "P6 at 33"),
    Asks(Nested(32), "P6 at 32"),
    Asks(Twice, "P5 at 2"),
    Asks(Line("run ECHO A18178B369000083555443"), "S6 at 0"),
    Asks(BeginUnder(0), "M5"),
    Asks(BeginUnder(65), "M5"),
    Stands(0, Phase::Ready),
    Takes(1000, 0),
    Asks(Nested(30), "accepted"),
];

/// A message between no-ops, in pieces of one to four bytes.
const IN_SMALL_PIECES: &[Step] = &[
    Asks(Line("reset"), "accepted"),
    Feeds(&[0], Told::Nothing(1)),
    Feeds(&[0], Told::Nothing(1)),
    Feeds(&[0], Told::Nothing(1)),
    Feeds(&[1], Told::Nothing(1)),
    Feeds(&[0xB1], Told::Nothing(1)),
    Feeds(&[0, 2], Told::Nothing(2)),
    Feeds(&[0x70, 0xA0, 0], Told::Nothing(3)),
    Feeds(&[0, 0, 0], Told::Summary(1, Outcome::Done, Phase::Ready)),
    Feeds(&[0, 0, 0, 0], Told::Nothing(2)),
];

/// A message past the limit.
const TOO_BIG: &[Step] = &[
    Feeds(NEW, Told::Version(Version::V51)),
    FeedsTheLongest(Told::Nothing(65537)),
    Feeds(&[0, 2], Told::BadPeer),
    Feeds(&[0, 2], Told::Closed),
];

/// The answer to its HELLO has come, after a no-op, and its BEGIN and COMMIT are sent: it is lost then.
const LOST_AFTER_A_COMMIT: &[Step] = &[
    Takes(usize::MAX, 20),
    FeedsAll(OLD, 0),
    Asks(Old("hello"), "accepted"),
    FeedsAll(&[0, 0, 0, 3, 0xB1, 0x70, 0xA0, 0, 0], 1),
    Asks(Line("begin"), "accepted"),
    Asks(Line("commit"), "accepted"),
    Takes(usize::MAX, 80),
    First(1),
    Loses(&[(1, Outcome::Lost), (2, Outcome::Unknown)]),
];

/// Calls of a client: a name, what it offers, and the calls in parts.
const PLAYED: &[(&str, Wish, &[&[Step]])] = &[
    ("another version", OLD_ALONE, &[ANOTHER_VERSION]),
    ("a strange version", Wish::Newest, &[A_STRANGE_VERSION]),
    ("no version", Wish::Newest, &[NO_VERSION]),
    ("offers", Wish::Newest, &[OFFERS]),
    ("session", Wish::Newest, &[SESSION]),
    ("logged off", Wish::Newest, &[LOGGED_OFF]),
    ("lends its reader", Wish::Newest, &[LENDS_ITS_READER]),
    ("bad at its end", Wish::Newest, &[BAD_AT_ITS_END]),
    ("sizes", OLD_ALONE, &[LOGS_ON, SIZES]),
    ("unwritable", OLD_ALONE, &[LOGS_ON, UNWRITABLE]),
    ("in small pieces", OLD_ALONE, &[LOGS_ON, IN_SMALL_PIECES]),
    ("too big", Wish::Newest, &[TOO_BIG]),
    ("unreadable", OLD_ALONE, &[LOGS_ON, UNREADABLE]),
];

/// Those in which it is logged on, and hears what it didn't ask for, or loses what it did.
const PLAYED_ON: &[(&str, Wish, &[&[Step]])] = &[
    ("a row for a RUN", OLD_ALONE, &[LOGS_ON, ROW_FOR_A_RUN]),
    (
        "more without a row",
        OLD_ALONE,
        &[LOGS_ON, MORE_WITHOUT_A_ROW],
    ),
    ("an ignored RESET", OLD_ALONE, &[LOGS_ON, IGNORED_RESET]),
    ("an ignored GOODBYE", OLD_ALONE, &[LOGS_ON, IGNORED_GOODBYE]),
    ("unasked", OLD_ALONE, &[LOGS_ON, UNASKED]),
    ("goodbye", OLD_ALONE, &[LOGS_ON, GOODBYE]),
    ("lost unheard", OLD_ALONE, &[LOGS_ON, TRANSACTION, UNHEARD]),
    (
        "lost after a failure",
        OLD_ALONE,
        &[LOGS_ON, TRANSACTION, FAILED],
    ),
    (
        "ignored after a failure",
        OLD_ALONE,
        &[LOGS_ON, IGNORED_AFTER_A_FAILURE],
    ),
    (
        "ignored before a RESET",
        OLD_ALONE,
        &[LOGS_ON, IGNORED_BEFORE_A_RESET],
    ),
    ("ignored alone", OLD_ALONE, &[LOGS_ON, IGNORED_ALONE]),
    ("full", OLD_ALONE, &[LOGS_ON, &[ASKS_A_RESET; 32], FULL]),
    ("lost after a COMMIT", OLD_ALONE, &[LOST_AFTER_A_COMMIT]),
];

/// Those with an answer of 5.0, or a wish of it.
const PLAYED_AT_5_0: &[(&str, Wish, &[&[Step]])] = &[
    ("5.0 for 4.4", OLD_ALONE, &[VERSION_5_0]),
    ("5.1 for 5.0", ALONE_AT_5_0, &[ANOTHER_VERSION]),
    ("4.4 for 5.0", ALONE_AT_5_0, &[AN_OLDER_VERSION]),
    ("5.0 for 5.1", Wish::Only(Version::V51), &[VERSION_5_0]),
    ("wished 5.0", ALONE_AT_5_0, &[LOGS_ON_AT_5_0]),
    ("5.0 of all", Wish::Newest, &[LOGS_ON_AT_5_0]),
];

#[test]
fn answers(rt: HostRuntime) -> Result<(), Fail> {
    for (name, wish, parts) in PLAYED {
        plays(&rt, name, *wish, parts)?;
    }
    Ok(())
}

#[test]
fn answers_on(rt: HostRuntime) -> Result<(), Fail> {
    for (name, wish, parts) in PLAYED_ON {
        plays(&rt, name, *wish, parts)?;
    }
    Ok(())
}

#[test]
fn answers_at_5_0(rt: HostRuntime) -> Result<(), Fail> {
    for (name, wish, parts) in PLAYED_AT_5_0 {
        plays(&rt, name, *wish, parts)?;
    }
    Ok(())
}
