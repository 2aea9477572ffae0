//! What is asked of the fixed table, and what it answers.

use Plain::*;
use Step::*;
use Told::*;
use engine::Commit::*;
use engine::*;

/// A value of a parameter or of a row.
pub enum Plain {
    Int(i64),
    Text(&'static str),
    /// A path from node 1 over relationship 7 to node 2.
    Path,
}

/// Names and their values.
pub type Named = &'static [(&'static str, Plain)];

/// What a query is answered.
pub enum Told {
    /// One column of this name, with these values.
    Column(&'static str, &'static [Plain]),
    /// So many rows.
    Rows(usize),
    /// No column, no row, and the write of 1 for the key `a`.
    PutsOne,
    Refused(EngineFault),
}

/// A call of a table, and what it tells.
pub enum Step {
    /// Values of keys are committed, under a token or under none.
    Commits(EntryId, Option<&'static str>, Named, Commit),
    /// What is known of a token and values of keys.
    Knows(&'static str, Named, Option<Commit>),
    Entries(usize),
    /// The table's pairs, in their order.
    Pairs(Named),
    /// A query in a transaction of these writes, by its text, its parameters and its mode.
    Asks(Named, &'static str, Named, Mode, Told),
    /// A commit, and GET after it with these parameters.
    CommitsAndGets(Named, Named, Told),
    /// A commit of no writes, and KEYS after it.
    CommitsAndRuns(Told),
}

/// Who commits: the first request of connection 0, its fifth, and two requests of connection 1.
pub const FIRST: EntryId = EntryId {
    conn: 0,
    ordinal: 0,
};

const FIFTH: EntryId = EntryId {
    conn: 0,
    ordinal: 4,
};

pub const OTHER: EntryId = EntryId {
    conn: 1,
    ordinal: 7,
};

pub const CALLER: EntryId = EntryId {
    conn: 1,
    ordinal: 3,
};

/// Entries that put b 1, a 2 and b 3.
const THREE_PUTS: &[Step] = &[
    Commits(FIRST, None, &[("b", Int(1))], Added(1)),
    Commits(FIRST, None, &[("a", Int(2))], Added(2)),
    Commits(FIRST, None, &[("b", Int(3))], Added(3)),
];

const KEYS_AND_VALUES: &[Step] = &[
    Asks(
        &[],
        "KEYS",
        &[],
        Mode::Read,
        Column("key", &[Text("b"), Text("a")]),
    ),
    Asks(
        &[],
        "GET",
        &[("key", Text("b"))],
        Mode::Read,
        Column("value", &[Int(3)]),
    ),
];

const OWN_WRITES: &[Step] = &[
    Asks(
        &[("c", Int(4))],
        "KEYS",
        &[],
        Mode::Write,
        Column("key", &[Text("b"), Text("a"), Text("c")]),
    ),
    Asks(
        &[],
        "GET",
        &[("key", Text("c"))],
        Mode::Read,
        Column("value", &[]),
    ),
    Entries(3),
];

const KEY_TWICE_IN_A_COMMIT: &[Step] = &[
    Commits(
        FIFTH,
        None,
        &[("a", Int(1)), ("b", Int(2)), ("a", Int(3))],
        Added(1),
    ),
    Pairs(&[("a", Int(3)), ("b", Int(2))]),
];

const COMMIT_OF_NO_WRITES: &[Step] = &[Commits(OTHER, None, &[], Added(4)), Entries(4)];

const TOKENS: &[Step] = &[
    Commits(FIRST, Some("t"), &[("a", Int(1))], Added(1)),
    Commits(OTHER, Some("t"), &[("a", Int(1))], Repeat(1)),
    Commits(FIFTH, Some("t"), &[("a", Int(2))], Clash),
    Knows("t", &[("a", Int(1))], Some(Repeat(1))),
    Knows("t", &[("a", Int(1)), ("a", Int(1))], Some(Clash)),
    Knows("u", &[("a", Int(1))], None),
    Commits(FIFTH, Some("u"), &[], Added(2)),
    Commits(OTHER, Some("u"), &[], Repeat(2)),
    Commits(OTHER, Some("u"), &[("a", Int(1))], Clash),
    Commits(OTHER, Some("t"), &[("a", Int(1))], Repeat(1)),
    Commits(FIRST, Some("t"), &[], Clash),
    Commits(FIFTH, None, &[("a", Int(3))], Added(3)),
    Commits(FIFTH, None, &[("a", Int(3))], Added(4)),
    Entries(4),
    Pairs(&[("a", Int(3))]),
];

// Tokens of which a fixed table makes one number, as a stranger can choose them.
const ONE: Option<&str> = Some("retry-0000003192WrlaP@#3--first-");

const TWO: Option<&str> = Some("retry-0000003192WrlaP@#3-second-");

const THREE: Option<&str> = Some("retry-0000003192WrlaP@#3--third-");

const TOKENS_OF_A_STRANGER: &[Step] = &[
    Commits(FIRST, ONE, &[("a", Int(1))], Added(1)),
    Commits(FIRST, TWO, &[("a", Int(2))], Added(2)),
    Commits(OTHER, THREE, &[], Added(3)),
    Commits(OTHER, ONE, &[("a", Int(1))], Repeat(1)),
    Commits(OTHER, TWO, &[("a", Int(2))], Repeat(2)),
    Commits(OTHER, THREE, &[], Repeat(3)),
    Commits(OTHER, ONE, &[("a", Int(2))], Clash),
    Commits(OTHER, TWO, &[("a", Int(1))], Clash),
    Entries(3),
];

const ROWS: &[Step] = &[
    Asks(
        &[],
        "ROWS",
        &[("n", Int(3))],
        Mode::Read,
        Column("i", &[Int(1), Int(2), Int(3)]),
    ),
    Asks(&[], "ROWS", &[("n", Int(0))], Mode::Read, Column("i", &[])),
    Asks(&[], "ROWS", &[("n", Int(1024))], Mode::Read, Rows(1024)),
];

const BAD_COUNTS: &[Step] = &[
    Asks(
        &[],
        "ROWS",
        &[("n", Int(1025))],
        Mode::Read,
        Refused(EngineFault::TooManyRows),
    ),
    Asks(
        &[],
        "ROWS",
        &[("n", Int(-1))],
        Mode::Read,
        Refused(EngineFault::Parameter),
    ),
];

const FAULTS_IN_ORDER: &[Step] = &[
    Asks(&[], "PUT", &[], Mode::Read, Refused(EngineFault::ReadOnly)),
    Asks(
        &[],
        "PUT",
        &[],
        Mode::Write,
        Refused(EngineFault::Parameter),
    ),
    Asks(
        &[],
        "NOPE",
        &[],
        Mode::Read,
        Refused(EngineFault::UnknownText),
    ),
    Asks(
        &[],
        "ROWS",
        &[],
        Mode::Read,
        Refused(EngineFault::Parameter),
    ),
];

const VALUES_IN_AND_OUT: &[Step] = &[
    Asks(&[], "ONE", &[], Mode::Read, Column("one", &[Int(1)])),
    Asks(
        &[],
        "ECHO",
        &[("x", Text("hi"))],
        Mode::Read,
        Column("x", &[Text("hi")]),
    ),
    Asks(&[], "WALK", &[], Mode::Read, Column("p", &[Path])),
];

const PUT: &[Step] = &[Asks(
    &[],
    "PUT",
    &[("key", Text("a")), ("value", Int(1))],
    Mode::Write,
    PutsOne,
)];

const CALLERS: &[Step] = &[
    CommitsAndGets(
        &[("a", Int(5))],
        &[("key", Text("a"))],
        Column("value", &[Int(5)]),
    ),
    CommitsAndRuns(Column("key", &[Text("b"), Text("a")])),
];

/// What is asked of a table of its own: a name, what comes before, and the steps.
pub const ASKED: &[(&str, &[Step], &[Step])] = &[
    ("keys and values", THREE_PUTS, KEYS_AND_VALUES),
    ("own writes", THREE_PUTS, OWN_WRITES),
    ("a key twice in a commit", &[], KEY_TWICE_IN_A_COMMIT),
    ("a commit of no writes", THREE_PUTS, COMMIT_OF_NO_WRITES),
    ("tokens", &[], TOKENS),
    ("tokens of a stranger", &[], TOKENS_OF_A_STRANGER),
    ("rows", &[], ROWS),
    ("bad counts", &[], BAD_COUNTS),
    ("faults in order", &[], FAULTS_IN_ORDER),
    ("values in and out", &[], VALUES_IN_AND_OUT),
    ("put", &[], PUT),
    ("callers", THREE_PUTS, CALLERS),
];
