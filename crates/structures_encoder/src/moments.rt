//! Times, durations and points.
ghost use Rattle.std.specs.Prelude.{◌≤◌, length, map};
ghost use Rattle.structures_encoder.specs.Prelude.{int, structure, no_trees, tree_then, trees_of, shape, text_of, date_time_tag, AddsTree, Spells, SpellsAnywhere, Puts};

use crate::fault::{Spelled, Unspelled};
use crate::scope::Scope;
use crate::texts::{put_bits, put_number, put_opening, put_string};
use packstream::writing::Output;
use structures_cells::{Cell, tags};

/// Spells integers, one after the other.
pub(crate) fn put_ints(out: &mut Output, numbers: &[i64]) -> Spelled<()>
    ensures { Puts (SpellsAnywhere (trees_of (map int numbers.now))) out.old out.new result }
{
    for number in numbers {
        put_number(out, *number)?;
    }
    Ok(())
}

/// Spells a structure of integers.
fn put_numbers(out: &mut Output, scope: Scope, tag: u8, numbers: &[i64]) -> Spelled<()>
    requires { length numbers.now ≤ 15 }
    ensures { Puts (AddsTree scope (structure tag (trees_of (map int numbers.now))))
        out.old out.new result }
{
    put_opening(out, scope, numbers.len() as u8, tag)?;
    put_ints(out, numbers)
}

/// Spells a structure of two integers and the name of a zone.
#[tactic(auto, using(crate::proofs::Adding::structure_added, crate::proofs::Adding::none, crate::proofs::Adding::then))]
fn put_zoned(
    out: &mut Output,
    scope: Scope,
    tag: u8,
    seconds: i64,
    nanos: i64,
    zone: &String,
) -> Spelled<()>
    ensures { Puts (AddsTree scope (structure tag (tree_then (int seconds)
        (tree_then (int nanos) (tree_then (text_of zone.now) no_trees))))) out.old out.new result }
{
    put_opening(out, scope, 3, tag)?;
    put_number(out, seconds)?;
    put_number(out, nanos)?;
    put_string(out, zone)
}

/// Spells a DateTime, with local seconds if the version has no UTC times.
fn put_date_time(out: &mut Output, scope: Scope, utc: i64, nanos: i64, offset: i64) -> Spelled<()>
    ensures { Puts (Spells scope (structure date_time_tag (tree_then (int utc)
        (tree_then (int nanos) (tree_then (int offset) no_trees))))) out.old out.new result }
{
    if scope.version.has_utc_times() {
        return put_numbers(out, scope, tags::DATE_TIME, &[utc, nanos, offset]);
    }
    let local = utc.checked_add(offset).ok_or(Unspelled)?;
    put_numbers(out, scope, tags::LEGACY_DATE_TIME, &[local, nanos, offset])
}

/// Spells a time, a duration or a point whose structure has no fault.
pub(crate) fn put_moment(out: &mut Output, scope: Scope, cell: &Cell) -> Spelled<()>
    ensures { Puts (Spells scope (shape cell.now)) out.old out.new result }
{
    match cell {
        Cell::Date { days } => put_numbers(out, scope, tags::DATE, &[*days]),
        Cell::Time { nanos, offset } => put_numbers(out, scope, tags::TIME, &[*nanos, *offset]),
        Cell::LocalTime { nanos } => put_numbers(out, scope, tags::LOCAL_TIME, &[*nanos]),
        Cell::LocalDateTime { seconds, nanos } => {
            put_numbers(out, scope, tags::LOCAL_DATE_TIME, &[*seconds, *nanos])
        }
        Cell::DateTime { utc, nanos, offset } => put_date_time(out, scope, *utc, *nanos, *offset),
        Cell::ZonedLocal {
            seconds,
            nanos,
            zone,
        } => put_zoned(out, scope, tags::LEGACY_ZONED, *seconds, *nanos, zone),
        Cell::ZonedUtc {
            seconds,
            nanos,
            zone,
        } => put_zoned(out, scope, tags::ZONED, *seconds, *nanos, zone),
        Cell::Duration {
            months,
            days,
            seconds,
            nanos,
        } => put_numbers(
            out,
            scope,
            tags::DURATION,
            &[*months, *days, *seconds, *nanos],
        ),
        Cell::Point2D { srid, x, y } => {
            put_opening(out, scope, 3, tags::POINT_2D)?;
            put_number(out, *srid)?;
            put_bits(out, *x)?;
            put_bits(out, *y)
        }
        Cell::Point3D { srid, x, y, z } => {
            put_opening(out, scope, 4, tags::POINT_3D)?;
            put_number(out, *srid)?;
            put_bits(out, *x)?;
            put_bits(out, *y)?;
            put_bits(out, *z)
        }
        _ => Err(Unspelled),
    }
}
