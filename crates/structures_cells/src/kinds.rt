//! What the fields of a structure hold.
ghost use Rattle.std.specs.Prelude.{◌≡◌, length};
ghost use Rattle.packstream.specs.View.{tree, trees, trees_of};
ghost use Rattle.structures_cells.specs.Faults.{is_kind, is_int, is_text, has_tag, each, are_kinds, in_range, are_in_range};

use crate::table::Field;
use crate::tags;
use packstream::Value;

fn holds_text(value: &Value) -> bool
    ensures { result ≡ is_text (tree value.now) }
{
    matches!(value, Value::Text(_))
}

fn holds_int(value: &Value) -> bool
    ensures { result ≡ is_int (tree value.now) }
{
    matches!(value, Value::Int(_))
}

fn holds_tag(tag: u8, value: &Value) -> bool
    ensures { result ≡ has_tag tag (tree value.now) }
{
    match value {
        Value::Struct(own, _) => *own == tag,
        _ => false,
    }
}

fn all_texts(members: &[Value]) -> bool
    ensures { result ≡ each is_text (trees_of (trees members.now)) }
{
    for member in members {
        if !holds_text(member) {
            return false;
        }
    }
    true
}

fn all_ints(members: &[Value]) -> bool
    ensures { result ≡ each is_int (trees_of (trees members.now)) }
{
    for member in members {
        if !holds_int(member) {
            return false;
        }
    }
    true
}

fn all_tagged(tag: u8, members: &[Value]) -> bool
    ensures { result ≡ each (has_tag tag) (trees_of (trees members.now)) }
{
    for member in members {
        if !holds_tag(tag, member) {
            return false;
        }
    }
    true
}

pub(crate) fn holds(field: Field, value: &Value) -> bool
    ensures { result ≡ is_kind field (tree value.now) }
{
    match (field, value) {
        (Field::Float, Value::Float(_)) => true,
        (Field::Text, Value::Text(_)) => true,
        (Field::Properties, Value::Dict(_)) => true,
        (Field::Labels, Value::List(members)) => all_texts(members),
        (Field::Nodes, Value::List(members)) => all_tagged(tags::NODE, members),
        (Field::Relationships, Value::List(members)) => all_tagged(
            tags::UNBOUND_RELATIONSHIP,
            members,
        ),
        (Field::Indices, Value::List(members)) => all_ints(members),
        (
            Field::Integer
            | Field::Nanosecond
            | Field::DayNanosecond
            | Field::Offset
            | Field::UtcSecond,
            Value::Int(_),
        ) => true,
        _ => false,
    }
}

pub(crate) fn all_hold(kinds: &[Field], fields: &[Value]) -> bool
    requires { length fields.now ≡ length kinds.now }
    ensures { result ≡ are_kinds kinds.now (trees_of (trees fields.now)) }
{
    for (i, kind) in kinds.iter().enumerate() {
        if !holds(*kind, &fields[i]) {
            return false;
        }
    }
    true
}

pub(crate) fn is_within(field: Field, value: &Value) -> bool
    ensures { result ≡ in_range field (tree value.now) }
{
    match (field, value) {
        (Field::Nanosecond, Value::Int(n)) => 0 <= *n && *n <= 999_999_999,
        (Field::DayNanosecond, Value::Int(n)) => 0 <= *n && *n <= 86_399_999_999_999,
        (Field::Offset, Value::Int(n)) => -64_800 <= *n && *n <= 64_800,
        (Field::UtcSecond, Value::Int(n)) => -100_000_000_000_000_000 <= *n
            && *n <= 100_000_000_000_000_000,
        _ => true,
    }
}

pub(crate) fn all_within(kinds: &[Field], fields: &[Value]) -> bool
    requires { length fields.now ≡ length kinds.now }
    ensures { result ≡ are_in_range kinds.now (trees_of (trees fields.now)) }
{
    for (i, kind) in kinds.iter().enumerate() {
        if !is_within(*kind, &fields[i]) {
            return false;
        }
    }
    true
}
