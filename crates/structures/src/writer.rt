//! Values of cells.
ghost use Rattle.std.specs.Prelude.{◌≡◌, IfOk, map, None};
ghost use Rattle.packstream.specs.Prelude.{int, float, list, dict, structure, no_trees, tree_then, tree, trees, trees_of, entries_of, entries as seen_entries};
ghost use Rattle.structures_cells.specs.Prelude.{fault_of_structure, shape, shapes, entries, node_shape, unbound_shape, relationship_shape, path_shape, text_of, texts_of, element_of, elements_of, relationship_tag, date_time_tag};
ghost use Rattle.structures.specs.Prelude.{form, form_entry, AreEach, Passes, date_time_fields};

use crate::scope::{Made, Scope};
use packstream::Value;
use std::alloc::Global;
use structures_cells::{Cell, ElementIds, Node, Path, Relationship, UnboundRelationship, tags};

/// Numbers as values.
fn int_values(alloc: Global, ints: &[i64]) -> Made<Vec<Value>>
    ensures { IfOk result (λ v. trees v.items ≡ map int ints.now) }
{
    let mut values = Vec::with_capacity(alloc, ints.len())?;
    for n in ints {
        values.push(Value::Int(*n))?;
    }
    Ok(values)
}

/// A structure of numbers.
fn of_ints(alloc: Global, tag: u8, ints: &[i64]) -> Made<Value>
    ensures { IfOk result (λ w. tree w ≡ structure tag (trees_of (map int ints.now))) }
{
    Ok(Value::Struct(tag, int_values(alloc, ints)?))
}

/// A list of texts.
fn list_of_texts(alloc: Global, texts: &Vec<String>) -> Made<Value>
    ensures { IfOk result (λ w. tree w ≡ texts_of texts.now.items) }
{
    let mut members = Vec::with_capacity(alloc, texts.len())?;
    for text in texts {
        members.push(Value::Text(text.clone()?))?;
    }
    Ok(Value::List(members))
}

/// Two numbers and a zone.
fn of_zoned(alloc: Global, tag: u8, seconds: i64, nanos: i64, zone: &String) -> Made<Value>
    ensures { IfOk result (λ w. tree w
        ≡ structure tag (tree_then (int seconds)
        (tree_then (int nanos) (tree_then (text_of zone.now) no_trees)))) }
{
    let zone = Value::Text(zone.clone()?);
    let fields = vec![in alloc; Value::Int(seconds), Value::Int(nanos), zone]?;
    Ok(Value::Struct(tag, fields))
}

/// Three fields, and the element id if it is there.
fn of_named(
    alloc: Global,
    tag: u8,
    first: Value,
    second: Value,
    third: Value,
    id: &Option<String>,
) -> Made<Value>
    ensures { IfOk result (λ w. tree w
        ≡ structure tag (tree_then (tree first)
        (tree_then (tree second) (tree_then (tree third) (element_of id.now))))) }
{
    match id {
        None => Ok(Value::Struct(tag, vec![in alloc; first, second, third]?)),
        Some(id) => {
            let fourth = Value::Text(id.clone()?);
            Ok(Value::Struct(tag, vec![in alloc; first, second, third, fourth]?))
        }
    }
}

/// The fields of a DateTime, with local seconds if the version has no UTC times.
fn of_moment(scope: Scope, utc: i64, nanos: i64, offset: i64) -> Made<Value>
    requires { fault_of_structure scope.version date_time_tag (date_time_fields utc nanos offset)
        ≡ None }
    ensures { IfOk result (λ w. tree w
        ≡ form scope.version (structure date_time_tag (date_time_fields utc nanos offset))) }
{
    let alloc = scope.alloc;
    if scope.version.has_utc_times() {
        of_ints(alloc, tags::DATE_TIME, &[utc, nanos, offset])
    } else {
        let local = utc + offset;
        of_ints(alloc, tags::LEGACY_DATE_TIME, &[local, nanos, offset])
    }
}

#[cycle(write)]
pub(crate) fn value_of(scope: Scope, cell: &Cell) -> Made<Value>
    requires { Passes scope.version (shape cell.now) }
    ensures { IfOk result (λ w. tree w ≡ form scope.version (shape cell.now)) }
{
    let alloc = scope.alloc;
    match cell {
        Cell::Null => Ok(Value::Null),
        Cell::Bool(b) => Ok(Value::Bool(*b)),
        Cell::Int(n) => Ok(Value::Int(*n)),
        Cell::Float(bits) => Ok(Value::Float(*bits)),
        Cell::Bytes(bytes) => Ok(Value::Bytes(bytes.clone()?)),
        Cell::Text(text) => Ok(Value::Text(text.clone()?)),
        Cell::List(members) => Ok(Value::List(values_of(scope, members)?)),
        Cell::Dict(pairs) => Ok(Value::Dict(pair_values(scope, pairs)?)),
        Cell::Node(node) => node_value(scope, node),
        Cell::UnboundRelationship(unbound) => unbound_value(scope, unbound),
        Cell::Relationship(relationship) => relationship_value(scope, relationship),
        Cell::Path(path) => path_value(scope, path),
        Cell::Date { days } => of_ints(alloc, tags::DATE, &[*days]),
        Cell::Time { nanos, offset } => of_ints(alloc, tags::TIME, &[*nanos, *offset]),
        Cell::LocalTime { nanos } => of_ints(alloc, tags::LOCAL_TIME, &[*nanos]),
        Cell::LocalDateTime { seconds, nanos } => {
            of_ints(alloc, tags::LOCAL_DATE_TIME, &[*seconds, *nanos])
        }
        Cell::DateTime { utc, nanos, offset } => of_moment(scope, *utc, *nanos, *offset),
        Cell::ZonedLocal {
            seconds,
            nanos,
            zone,
        } => of_zoned(alloc, tags::LEGACY_ZONED, *seconds, *nanos, zone),
        Cell::ZonedUtc {
            seconds,
            nanos,
            zone,
        } => of_zoned(alloc, tags::ZONED, *seconds, *nanos, zone),
        Cell::Duration {
            months,
            days,
            seconds,
            nanos,
        } => of_ints(alloc, tags::DURATION, &[*months, *days, *seconds, *nanos]),
        Cell::Point2D { srid, x, y } => {
            let fields = vec![in alloc; Value::Int(*srid), Value::Float(*x), Value::Float(*y)]?;
            Ok(Value::Struct(tags::POINT_2D, fields))
        }
        Cell::Point3D { srid, x, y, z } => {
            let (srid, x) = (Value::Int(*srid), Value::Float(*x));
            let fields = vec![in alloc; srid, x, Value::Float(*y), Value::Float(*z)]?;
            Ok(Value::Struct(tags::POINT_3D, fields))
        }
    }
}

#[cycle(write)]
pub(crate) fn values_of(scope: Scope, members: &Vec<Cell>) -> Made<Vec<Value>>
    requires { Passes scope.version (list (trees_of (shapes members.now.items))) }
    ensures { IfOk result (λ v. AreEach (form scope.version) (shapes members.now.items) (trees v.items)) }
{
    let mut values = Vec::with_capacity(scope.alloc, members.len())?;
    for member in members {
        values.push(value_of(scope, member)?)?;
    }
    Ok(values)
}

#[cycle(write)]
pub(crate) fn pair_values(scope: Scope, pairs: &Vec<(String, Cell)>) -> Made<Vec<(String, Value)>>
    requires { Passes scope.version (dict (entries_of (entries pairs.now.items))) }
    ensures { IfOk result (λ v. AreEach (form_entry scope.version) (entries pairs.now.items) (seen_entries v.items)) }
{
    let mut values = Vec::with_capacity(scope.alloc, pairs.len())?;
    for (key, cell) in pairs {
        let name = key.clone()?;
        values.push((name, value_of(scope, cell)?))?;
    }
    Ok(values)
}

#[cycle(write)]
fn node_value(scope: Scope, node: &Node) -> Made<Value>
    requires { Passes scope.version (node_shape node.now) }
    ensures { IfOk result (λ w. tree w ≡ form scope.version (node_shape node.now)) }
{
    let alloc = scope.alloc;
    let id = Value::Int(node.id);
    let labels = list_of_texts(alloc, &node.labels)?;
    let properties = Value::Dict(pair_values(scope, &node.properties)?);
    Ok(of_named(alloc, tags::NODE, id, labels, properties, &node.element_id)?)
}

#[cycle(write)]
fn unbound_value(scope: Scope, unbound: &UnboundRelationship) -> Made<Value>
    requires { Passes scope.version (unbound_shape unbound.now) }
    ensures { IfOk result (λ w. tree w ≡ form scope.version (unbound_shape unbound.now)) }
{
    let (alloc, tag) = (scope.alloc, tags::UNBOUND_RELATIONSHIP);
    let id = Value::Int(unbound.id);
    let kind = Value::Text(unbound.kind.clone()?);
    let properties = Value::Dict(pair_values(scope, &unbound.properties)?);
    Ok(of_named(alloc, tag, id, kind, properties, &unbound.element_id)?)
}

#[cycle(write)]
fn relationship_value(scope: Scope, relationship: &Relationship) -> Made<Value>
    requires { Passes scope.version (relationship_shape relationship.now) }
    ensures { IfOk result (λ w. tree w ≡ form scope.version (relationship_shape relationship.now)) }
{
    let (alloc, tag) = (scope.alloc, tags::RELATIONSHIP);
    let id = Value::Int(relationship.id);
    let (start, end) = (Value::Int(relationship.start), Value::Int(relationship.end));
    let kind = Value::Text(relationship.kind.clone()?);
    let properties = Value::Dict(pair_values(scope, &relationship.properties)?);
    match &relationship.element_ids {
        None => Ok(Value::Struct(tag, vec![in alloc; id, start, end, kind, properties]?)),
        Some(ids) => {
            let own = Value::Text(ids.own.clone()?);
            let first = Value::Text(ids.start.clone()?);
            let last = Value::Text(ids.end.clone()?);
            let fields = vec![in alloc; id, start, end, kind, properties, own, first, last]?;
            Ok(Value::Struct(tag, fields))
        }
    }
}

#[cycle(write)]
fn path_value(scope: Scope, path: &Path) -> Made<Value>
    requires { Passes scope.version (path_shape path.now) }
    ensures { IfOk result (λ w. tree w ≡ form scope.version (path_shape path.now)) }
{
    let places = Value::List(node_values(scope, &path.nodes)?);
    let ways = Value::List(unbound_values(scope, &path.relationships)?);
    let steps = Value::List(int_values(scope.alloc, &path.indices)?);
    Ok(of_named(scope.alloc, tags::PATH, places, ways, steps, &None)?)
}

#[cycle(write)]
fn node_values(scope: Scope, nodes: &Vec<Node>) -> Made<Vec<Value>>
    requires { Passes scope.version (list (trees_of (map node_shape nodes.now.items))) }
    ensures { IfOk result (λ v. AreEach (form scope.version) (map node_shape nodes.now.items) (trees v.items)) }
{
    let mut values = Vec::with_capacity(scope.alloc, nodes.len())?;
    for node in nodes {
        values.push(node_value(scope, node)?)?;
    }
    Ok(values)
}

#[cycle(write)]
fn unbound_values(scope: Scope, relationships: &Vec<UnboundRelationship>) -> Made<Vec<Value>>
    requires { Passes scope.version (list (trees_of (map unbound_shape relationships.now.items))) }
    ensures { IfOk result (λ v. AreEach (form scope.version) (map unbound_shape relationships.now.items) (trees v.items)) }
{
    let mut values = Vec::with_capacity(scope.alloc, relationships.len())?;
    for unbound in relationships {
        values.push(unbound_value(scope, unbound)?)?;
    }
    Ok(values)
}
