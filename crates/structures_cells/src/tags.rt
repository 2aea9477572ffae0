//! The tags of the structures. A date with a time and an offset, or a zone, has one for seconds in UTC, and a legacy one for
//! local seconds (Bolt structure semantics).

/// A node.
pub const NODE: u8 = 0x4E;

/// A relationship, with the ids of the nodes at its ends.
pub const RELATIONSHIP: u8 = 0x52;

/// A relationship in a path, without the nodes at its ends.
pub const UNBOUND_RELATIONSHIP: u8 = 0x72;

/// A path: nodes, relationships, and the indices of a walk over them.
pub const PATH: u8 = 0x50;

/// A date, as days since 1970-01-01.
pub const DATE: u8 = 0x44;

/// A time of day with an offset.
pub const TIME: u8 = 0x54;

/// A time of day without an offset.
pub const LOCAL_TIME: u8 = 0x74;

/// A date with a time, without an offset or a zone.
pub const LOCAL_DATE_TIME: u8 = 0x64;

/// A date with a time and an offset, in local seconds.
pub const LEGACY_DATE_TIME: u8 = 0x46;

/// A date with a time and an offset, in seconds in UTC.
pub const DATE_TIME: u8 = 0x49;

/// A date with a time and a named zone, in local seconds.
pub const LEGACY_ZONED: u8 = 0x66;

/// A date with a time and a named zone, in seconds in UTC.
pub const ZONED: u8 = 0x69;

/// A duration: months, days, seconds and nanoseconds.
pub const DURATION: u8 = 0x45;

/// A point of two coordinates, with the number of their reference system.
pub const POINT_2D: u8 = 0x58;

/// A point of three coordinates, with the number of their reference system.
pub const POINT_3D: u8 = 0x59;
