//! Cells.

/// A cell: a value of PackStream 1, or one of the structures that Bolt's structure semantics give.
/// Nanoseconds count from the second or from midnight, an offset is in seconds east of UTC, and a float is 64
/// opaque bits.
///
/// Nothing bounds how deep a program nests one, and a level takes a call: writing, fitting, cloning and dropping one that is
/// many thousands deep runs out of stack. What `read` gives is at most 32 deep.
///
/// ```rust
/// let packed = decode(alloc, input)?;
/// Ok(read(alloc, version, &packed)?)
/// ```
#[derive(Debug, Drop)]
#[cycle(cells)]
pub enum Cell {
    Null,
    Bool(bool),
    Int(i64),
    /// The 64 bits of a float.
    Float(u64),
    Bytes(Vec<u8>),
    Text(String),
    List(Vec<Cell>),
    /// The entries in their order.
    Dict(Vec<(String, Cell)>),
    Node(Box<Node>),
    Relationship(Box<Relationship>),
    UnboundRelationship(Box<UnboundRelationship>),
    Path(Box<Path>),
    /// Days since 1970-01-01.
    Date {
        days: i64,
    },
    /// Nanoseconds since midnight, with an offset.
    Time {
        nanos: i64,
        offset: i64,
    },
    /// Nanoseconds since midnight.
    LocalTime {
        nanos: i64,
    },
    /// Seconds since 1970-01-01 without a zone.
    LocalDateTime {
        seconds: i64,
        nanos: i64,
    },
    /// Seconds since 1970-01-01 UTC, at each version, with an offset.
    DateTime {
        utc: i64,
        nanos: i64,
        offset: i64,
    },
    /// Local seconds in a named zone, if a version has no UTC times.
    ZonedLocal {
        seconds: i64,
        nanos: i64,
        zone: String,
    },
    /// UTC seconds in a named zone, if a version has UTC times.
    ZonedUtc {
        seconds: i64,
        nanos: i64,
        zone: String,
    },
    /// Months, days, seconds, and nanoseconds of a second.
    Duration {
        months: i64,
        days: i64,
        seconds: i64,
        nanos: i64,
    },
    /// Coordinates as the bits of floats.
    Point2D {
        srid: i64,
        x: u64,
        y: u64,
    },
    /// Coordinates as the bits of floats.
    Point3D {
        srid: i64,
        x: u64,
        y: u64,
        z: u64,
    },
}

/// A node. Its element id is there in the form of a version that has element ids, and else absent.
#[derive(Debug, Drop)]
#[cycle(cells)]
pub struct Node {
    pub id: i64,
    pub labels: Vec<String>,
    pub properties: Vec<(String, Cell)>,
    pub element_id: Option<String>,
}

/// A relationship with the ids of its nodes. Its element ids are there in the form of a version that has them, and else absent.
#[derive(Debug, Drop)]
#[cycle(cells)]
pub struct Relationship {
    pub id: i64,
    pub start: i64,
    pub end: i64,
    pub kind: String,
    pub properties: Vec<(String, Cell)>,
    pub element_ids: Option<ElementIds>,
}

/// A relationship without its ends, as a path has it. Its element id is as a node's.
#[derive(Debug, Drop)]
#[cycle(cells)]
pub struct UnboundRelationship {
    pub id: i64,
    pub kind: String,
    pub properties: Vec<(String, Cell)>,
    pub element_id: Option<String>,
}

/// A walk from node 0. `indices` has in turn the number of a relationship, from 1, negative if it is
/// walked against its direction, and the number of the node that it leads to, from 0.
#[derive(Debug, Drop)]
#[cycle(cells)]
pub struct Path {
    pub nodes: Vec<Node>,
    pub relationships: Vec<UnboundRelationship>,
    pub indices: Vec<i64>,
}

/// The element ids of a relationship, its start and its end.
#[derive(Debug, PartialEq, Drop)]
pub struct ElementIds {
    pub own: String,
    pub start: String,
    pub end: String,
}
