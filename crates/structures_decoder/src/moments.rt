//! Dates, times, durations and points, behind their tag.
ghost use Rattle.std.specs.Prelude.{ℕ, IfOk};
ghost use Rattle.structures_decoder.specs.Prelude.{shape, HasFields};

use crate::fault::{Decoded, Unscanned};
use crate::fields::string_in;
use crate::plain::{float_in, int_in};
use crate::scope::Scope;
use packstream::source::Source;
use structures_cells::{Cell, tags};

/// A structure without cells inside, behind its tag: its fields are of their kinds, and a DateTime is of the version.
#[tactic(auto, unfolding(packstream::specs::Reading::struct_at, packstream::specs::Reading::items_at))]
pub(crate) fn moment_of<S: Source>(scope: Scope, tag: u8, count: u64, source: S) -> Decoded<Cell, S>
    ensures { (room : ℕ)
        → IfOk result (λ x. HasFields scope room count tag (shape x.0) (S.left source) (S.left x.1)) }
{
    match (tag, count) {
        (tags::DATE, 1) => {
            let (days, rest) = int_in(source)?;
            Ok((Cell::Date { days }, rest))
        }
        (tags::TIME, 2) => {
            let (nanos, rest) = int_in(source)?;
            let (offset, rest) = int_in(rest)?;
            Ok((Cell::Time { nanos, offset }, rest))
        }
        (tags::LOCAL_TIME, 1) => {
            let (nanos, rest) = int_in(source)?;
            Ok((Cell::LocalTime { nanos }, rest))
        }
        (tags::LOCAL_DATE_TIME, 2) => {
            let (seconds, rest) = int_in(source)?;
            let (nanos, rest) = int_in(rest)?;
            Ok((Cell::LocalDateTime { seconds, nanos }, rest))
        }
        (tags::DURATION, 4) => {
            let (months, rest) = int_in(source)?;
            let (days, rest) = int_in(rest)?;
            let (seconds, rest) = int_in(rest)?;
            let (nanos, rest) = int_in(rest)?;
            let duration = Cell::Duration {
                months,
                days,
                seconds,
                nanos,
            };
            Ok((duration, rest))
        }
        (tags::POINT_2D, 3) => {
            let (srid, rest) = int_in(source)?;
            let (x, rest) = float_in(rest)?;
            let (y, rest) = float_in(rest)?;
            Ok((Cell::Point2D { srid, x, y }, rest))
        }
        (tags::POINT_3D, 4) => {
            let (srid, rest) = int_in(source)?;
            let (x, rest) = float_in(rest)?;
            let (y, rest) = float_in(rest)?;
            let (z, rest) = float_in(rest)?;
            Ok((Cell::Point3D { srid, x, y, z }, rest))
        }
        _ => date_time_of(scope, tag, count, source),
    }
}

/// A date with a time and an offset or a zone. A DateTime has local seconds where the version has no UTC times; the cell has its seconds in UTC.
#[tactic(auto, unfolding(packstream::specs::Reading::struct_at, packstream::specs::Reading::items_at))]
fn date_time_of<S: Source>(scope: Scope, tag: u8, count: u64, source: S) -> Decoded<Cell, S>
    ensures { (room : ℕ)
        → IfOk result (λ x. HasFields scope room count tag (shape x.0) (S.left source) (S.left x.1)) }
{
    if count != 3 {
        return Err(Unscanned);
    }
    let (seconds, rest) = int_in(source)?;
    let (nanos, rest) = int_in(rest)?;
    match tag {
        tags::DATE_TIME if scope.version.has_utc_times() => {
            let (offset, rest) = int_in(rest)?;
            let utc = seconds;
            Ok((Cell::DateTime { utc, nanos, offset }, rest))
        }
        tags::LEGACY_DATE_TIME if !scope.version.has_utc_times() => {
            let (offset, rest) = int_in(rest)?;
            let Some(utc) = seconds.checked_sub(offset) else {
                return Err(Unscanned);
            };
            Ok((Cell::DateTime { utc, nanos, offset }, rest))
        }
        tags::LEGACY_ZONED => {
            let (zone, rest) = string_in(scope.alloc, rest)?;
            let zoned = Cell::ZonedLocal {
                seconds,
                nanos,
                zone,
            };
            Ok((zoned, rest))
        }
        tags::ZONED => {
            let (zone, rest) = string_in(scope.alloc, rest)?;
            let zoned = Cell::ZonedUtc {
                seconds,
                nanos,
                zone,
            };
            Ok((zoned, rest))
        }
        _ => Err(Unscanned),
    }
}
