//! What is wrong with one structure.
ghost use Rattle.std.specs.Prelude.{◌≡◌, ◌∷◌, [], length, IsTrue, cond, ◌==◌, true};
ghost use Rattle.packstream.specs.Tree.{int};
ghost use Rattle.packstream.specs.View.{tree, trees, trees_of};
ghost use Rattle.structures_cells.specs.Faults.{fault, moment_fields, are_kinds, are_in_range, to_utc, utc_fields, is_path};
ghost use Rattle.structures_cells.specs.Table.{path_tag, legacy_date_time_tag};

use crate::fault::Reason;
use crate::kinds::{all_hold, all_within, is_within};
use crate::path::is_shaped;
use crate::table::{Field, kinds_of};
use crate::tags;
use packstream::Value;
use wire::Version;

/// The ranges of UTC seconds, nanoseconds and offset.
fn is_dated_at(utc: i64, nanos: &Value, offset: &Value) -> bool
    ensures { result ≡ are_in_range moment_fields
        (trees_of (int utc ∷ tree nanos.now ∷ tree offset.now ∷ [])) }
{
    if !is_within(Field::UtcSecond, &Value::Int(utc)) {
        return false;
    }
    if !is_within(Field::Nanosecond, nanos) {
        return false;
    }
    is_within(Field::Offset, offset)
}

/// The ranges of local seconds, nanoseconds and offset.
fn is_dated(local: &Value, nanos: &Value, offset: &Value) -> bool
    requires { IsTrue (are_kinds moment_fields
        (trees_of (tree local.now ∷ tree nanos.now ∷ tree offset.now ∷ []))) }
    ensures { result ≡ are_in_range moment_fields
        (to_utc (trees_of (tree local.now ∷ tree nanos.now ∷ tree offset.now ∷ []))) }
{
    let (Value::Int(local), Value::Int(east)) = (local, offset) else {
        return true
    };
    match local.checked_sub(*east) {
        Some(utc) => is_dated_at(utc, nanos, offset),
        None => false,
    }
}

/// The ranges, those of local seconds at UTC.
fn in_ranges(kinds: &[Field], tag: u8, fields: &[Value]) -> bool
    requires same_length { length fields.now ≡ length kinds.now }
    requires kinds { IsTrue (are_kinds kinds.now (trees_of (trees fields.now))) }
    requires dated { tag ≡ legacy_date_time_tag → kinds.now ≡ moment_fields }
    ensures { result ≡ are_in_range kinds.now (utc_fields tag (trees_of (trees fields.now))) }
{
    if tag == tags::LEGACY_DATE_TIME {
        is_dated(&fields[0], &fields[1], &fields[2])
    } else {
        all_within(kinds, fields)
    }
}

fn is_shaped_at(tag: u8, fields: &[Value]) -> bool
    ensures { result ≡ cond (tag == path_tag) (is_path (trees_of (trees fields.now))) true }
{
    tag != tags::PATH || is_shaped(fields)
}

pub(crate) fn fault_of(version: Version, tag: u8, fields: &[Value]) -> Option<Reason>
    ensures { result ≡ fault version tag (trees_of (trees fields.now)) }
{
    let kinds = match kinds_of(version, tag) {
        Ok(kinds) => kinds,
        Err(reason) => return Some(reason),
    };
    if fields.len() != kinds.len() {
        Some(Reason::FieldCount)
    } else if !all_hold(kinds, fields) {
        Some(Reason::FieldKind)
    } else if !in_ranges(kinds, tag, fields) {
        Some(Reason::Range)
    } else if !is_shaped_at(tag, fields) {
        Some(Reason::PathShape)
    } else {
        None
    }
}
