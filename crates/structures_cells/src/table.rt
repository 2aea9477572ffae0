//! The form table: what the fields of each structure hold.
ghost use Rattle.std.specs.Prelude.{◌≡◌, MatchResult};
ghost use Rattle.structures_cells.specs.Table.{kinds};

use crate::fault::Reason;
use crate::tags;
use wire::Version;

/// What a field holds, and in which range.
#[derive(Clone, Copy, Debug, PartialEq, Eq)]
pub enum Field {
    /// An integer of 64 bits.
    Integer,
    /// A nanosecond of a second.
    Nanosecond,
    /// A nanosecond of a day.
    DayNanosecond,
    /// Seconds east of UTC, at most 18 hours of them either way.
    Offset,
    /// Seconds since 1970-01-01 UTC, at most 10^17 of them either way.
    UtcSecond,
    /// A float of any bits.
    Float,
    /// A text.
    Text,
    /// A list of texts.
    Labels,
    /// A dictionary.
    Properties,
    /// A list of nodes.
    Nodes,
    /// A list of relationships without their ends.
    Relationships,
    /// A list of integers.
    Indices,
}

/// The fields of a structure with this tag at this version.
pub(crate) fn kinds_of(version: Version, tag: u8) -> Result<&'static [Field], Reason>
    ensures { MatchResult result (λ fs. kinds version tag ≡ Ok fs.now)
        (λ r. kinds version tag ≡ Err r) }
{
    use Field::*;
    match (tag, version.has_element_ids(), version.has_utc_times()) {
        (tags::NODE, false, _) => Ok(&[Integer, Labels, Properties]),
        (tags::NODE, true, _) => Ok(&[Integer, Labels, Properties, Text]),
        (tags::RELATIONSHIP, false, _) => Ok(&[Integer, Integer, Integer, Text, Properties]),
        (tags::RELATIONSHIP, true, _) => Ok(&[
            Integer, Integer, Integer, Text, Properties, Text, Text, Text,
        ]),
        (tags::UNBOUND_RELATIONSHIP, false, _) => Ok(&[Integer, Text, Properties]),
        (tags::UNBOUND_RELATIONSHIP, true, _) => Ok(&[Integer, Text, Properties, Text]),
        (tags::PATH, _, _) => Ok(&[Nodes, Relationships, Indices]),
        (tags::DATE, _, _) => Ok(&[Integer]),
        (tags::TIME, _, _) => Ok(&[DayNanosecond, Offset]),
        (tags::LOCAL_TIME, _, _) => Ok(&[DayNanosecond]),
        (tags::LOCAL_DATE_TIME, _, _) => Ok(&[Integer, Nanosecond]),
        (tags::LEGACY_DATE_TIME, _, false) | (tags::DATE_TIME, _, true) => Ok(&[
            UtcSecond, Nanosecond, Offset,
        ]),
        (tags::LEGACY_ZONED, _, false) | (tags::ZONED, _, true) => Ok(&[Integer, Nanosecond, Text]),
        (tags::LEGACY_DATE_TIME | tags::LEGACY_ZONED, _, true) => Err(Reason::NotInVersion),
        (tags::DATE_TIME | tags::ZONED, _, false) => Err(Reason::NotInVersion),
        (tags::DURATION, _, _) => Ok(&[Integer, Integer, Integer, Nanosecond]),
        (tags::POINT_2D, _, _) => Ok(&[Integer, Float, Float]),
        (tags::POINT_3D, _, _) => Ok(&[Integer, Float, Float, Float]),
        _ => Err(Reason::UnknownTag),
    }
}
