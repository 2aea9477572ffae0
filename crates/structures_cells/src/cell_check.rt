//! The first typed cell that can't be written.
ghost use Rattle.std.specs.Prelude.{◌≡◌, ◌≤◌, Ok, length, map, true};
ghost use Rattle.packstream.specs.View.{trees_of, entries_of};
ghost use Rattle.structures_cells.specs.Faults.{scan, fault_or_rest, next, structures, structures_in, structures_under};
ghost use Rattle.packstream.specs.Good.{count};
ghost use Rattle.structures_cells.specs.Shape.{element_of, elements_of, shape, shapes, entries, node_shape, unbound_shape, relationship_shape, path_shape};
ghost use Rattle.structures_cells.specs.Writing.{fault_of_structure, tag_at};
ghost use Rattle.structures_cells.specs.Steps.{range_fault, numbers_in_range, walk_fault};

use crate::cell::{Cell, ElementIds, Node, Path, Relationship, UnboundRelationship};
use crate::fault::Reason;
use crate::kinds::is_within;
use crate::path::indices_walk;
use crate::table::{Field, kinds_of};
use crate::tags;
use packstream::Value;
use wire::Version;

/// The tag under which a version writes a structure.
fn tag_of(version: Version, tag: u8) -> u8
    ensures { result ≡ tag_at version tag }
{
    if tag == tags::DATE_TIME && !version.has_utc_times() {
        tags::LEGACY_DATE_TIME
    } else {
        tag
    }
}

fn are_within(kinds: &[Field], numbers: &[i64]) -> bool
    requires { length numbers.now ≤ length kinds.now }
    ensures { result ≡ numbers_in_range numbers.now kinds.now }
{
    for (i, number) in numbers.iter().enumerate() {
        if !is_within(kinds[i], &Value::Int(*number)) {
            return false;
        }
    }
    true
}

/// The fault of a typed cell by its number of fields and the numbers that they begin with.
fn fault_by(version: Version, tag: u8, count: usize, numbers: &[i64]) -> Option<Reason>
    requires { length numbers.now ≤ count }
    ensures { result ≡ range_fault version tag count numbers.now }
{
    let kinds = match kinds_of(version, tag_of(version, tag)) {
        Ok(kinds) => kinds,
        Err(reason) => return Some(reason),
    };
    if count != kinds.len() {
        return Some(Reason::NotInVersion);
    }
    if !are_within(kinds, numbers) {
        return Some(Reason::Range);
    }
    None
}

fn judge(
    version: Version,
    tag: u8,
    count: usize,
    numbers: &[i64],
    seen: usize,
) -> Result<usize, (Reason, usize)>
    requires { length numbers.now ≤ count }
    ensures { result ≡ fault_or_rest (range_fault version tag count numbers.now) seen
        (Ok (next seen)) }
{
    match fault_by(version, tag, count, numbers) {
        Some(reason) => Err((reason, seen)),
        None => Ok(seen.saturating_add(1)),
    }
}

fn element_count(id: &Option<String>) -> usize
    ensures counted { result ≡ count (element_of id.now) }
    ensures few { result ≤ 1 }
{
    match id {
        None => 0,
        Some(_) => 1,
    }
}

fn elements_count(ids: &Option<ElementIds>) -> usize
    ensures counted { result ≡ count (elements_of ids.now) }
    ensures few { result ≤ 3 }
{
    match ids {
        None => 0,
        Some(_) => 3,
    }
}

/// Looks at the typed cells in preorder, the first with this number; answers the number after them, or of the first that can't be
/// written the fault (`NotInVersion`, `Range` or `PathShape`) and the number.
#[cycle(judge)]
#[tactic(auto, using(crate::proofs::Views::dicts))]
pub fn check_cell(version: Version, cell: &Cell, seen: usize) -> Result<usize, (Reason, usize)>
    ensures { result ≡ scan (fault_of_structure version) seen (structures (shape cell.now)) }
{
    match cell {
        Cell::Null
        | Cell::Bool(_)
        | Cell::Int(_)
        | Cell::Float(_)
        | Cell::Bytes(_)
        | Cell::Text(_) => Ok(seen),
        Cell::List(members) => check_cells(version, members, seen),
        Cell::Dict(pairs) => check_entries(version, pairs, seen),
        Cell::Node(node) => check_node(version, node, seen),
        Cell::Relationship(relationship) => check_relationship(version, relationship, seen),
        Cell::UnboundRelationship(unbound) => check_unbound(version, unbound, seen),
        Cell::Path(path) => check_path(version, path, seen),
        Cell::Date { days } => judge(version, tags::DATE, 1, &[*days], seen),
        Cell::Time { nanos, offset } => judge(version, tags::TIME, 2, &[*nanos, *offset], seen),
        Cell::LocalTime { nanos } => judge(version, tags::LOCAL_TIME, 1, &[*nanos], seen),
        Cell::LocalDateTime { seconds, nanos } => judge(
            version,
            tags::LOCAL_DATE_TIME,
            2,
            &[*seconds, *nanos],
            seen,
        ),
        Cell::DateTime { utc, nanos, offset } => judge(
            version,
            tags::DATE_TIME,
            3,
            &[*utc, *nanos, *offset],
            seen,
        ),
        Cell::ZonedLocal { seconds, nanos, .. } => judge(
            version,
            tags::LEGACY_ZONED,
            3,
            &[*seconds, *nanos],
            seen,
        ),
        Cell::ZonedUtc { seconds, nanos, .. } => judge(
            version,
            tags::ZONED,
            3,
            &[*seconds, *nanos],
            seen,
        ),
        Cell::Duration {
            months,
            days,
            seconds,
            nanos,
        } => judge(
            version,
            tags::DURATION,
            4,
            &[*months, *days, *seconds, *nanos],
            seen,
        ),
        Cell::Point2D { srid, .. } => judge(version, tags::POINT_2D, 3, &[*srid], seen),
        Cell::Point3D { srid, .. } => judge(version, tags::POINT_3D, 4, &[*srid], seen),
    }
}

fn check_walk(
    nodes: usize,
    relationships: usize,
    indices: &[i64],
    seen: usize,
) -> Result<usize, (Reason, usize)>
    ensures { result ≡ fault_or_rest (walk_fault nodes relationships indices.now) seen
        (Ok (next seen)) }
{
    if 0 < nodes && indices_walk(nodes, relationships, indices) {
        return Ok(seen.saturating_add(1));
    }
    Err((Reason::PathShape, seen))
}

/// Looks at each cell of a list, as `check_cell` does of one.
#[cycle(judge)]
pub fn check_cells(
    version: Version,
    members: &Vec<Cell>,
    seen: usize,
) -> Result<usize, (Reason, usize)>
    ensures { result ≡ scan (fault_of_structure version) seen
        (structures_in (trees_of (shapes members.now.items))) }
{
    let mut number = seen;
    for member in members {
        number = check_cell(version, member, number)?;
    }
    Ok(number)
}

/// Looks at the cell of each entry of a dictionary, as `check_cell` does of one.
#[cycle(judge)]
pub fn check_entries(
    version: Version,
    pairs: &Vec<(String, Cell)>,
    seen: usize,
) -> Result<usize, (Reason, usize)>
    ensures { result ≡ scan (fault_of_structure version) seen
        (structures_under (entries_of (entries pairs.now.items))) }
{
    let mut number = seen;
    for pair in pairs {
        number = check_cell(version, &pair.1, number)?;
    }
    Ok(number)
}

#[cycle(judge)]
fn check_node(version: Version, node: &Node, seen: usize) -> Result<usize, (Reason, usize)>
    ensures { result ≡ scan (fault_of_structure version) seen (structures (node_shape node.now)) }
{
    let count = 3 + element_count(&node.element_id);
    let number = judge(version, tags::NODE, count, &[node.id], seen)?;
    check_entries(version, &node.properties, number)
}

#[cycle(judge)]
fn check_unbound(
    version: Version,
    unbound: &UnboundRelationship,
    seen: usize,
) -> Result<usize, (Reason, usize)>
    ensures { result ≡ scan (fault_of_structure version) seen
        (structures (unbound_shape unbound.now)) }
{
    let count = 3 + element_count(&unbound.element_id);
    let number = judge(
        version,
        tags::UNBOUND_RELATIONSHIP,
        count,
        &[unbound.id],
        seen,
    )?;
    check_entries(version, &unbound.properties, number)
}

#[cycle(judge)]
fn check_relationship(
    version: Version,
    relationship: &Relationship,
    seen: usize,
) -> Result<usize, (Reason, usize)>
    ensures { result ≡ scan (fault_of_structure version) seen
        (structures (relationship_shape relationship.now)) }
{
    let count = 5 + elements_count(&relationship.element_ids);
    let numbers = [relationship.id, relationship.start, relationship.end];
    let number = judge(version, tags::RELATIONSHIP, count, &numbers, seen)?;
    check_entries(version, &relationship.properties, number)
}

#[cycle(judge)]
fn check_path(version: Version, path: &Path, seen: usize) -> Result<usize, (Reason, usize)>
    ensures { result ≡ scan (fault_of_structure version) seen (structures (path_shape path.now)) }
{
    let number = check_walk(
        path.nodes.len(),
        path.relationships.len(),
        &path.indices,
        seen,
    )?;
    let number = check_nodes(version, &path.nodes, number)?;
    check_unbounds(version, &path.relationships, number)
}

#[cycle(judge)]
fn check_nodes(version: Version, nodes: &Vec<Node>, seen: usize) -> Result<usize, (Reason, usize)>
    ensures { result ≡ scan (fault_of_structure version) seen
        (structures_in (trees_of (map node_shape nodes.now.items))) }
{
    let mut number = seen;
    for node in nodes {
        number = check_node(version, node, number)?;
    }
    Ok(number)
}

#[cycle(judge)]
fn check_unbounds(
    version: Version,
    unbounds: &Vec<UnboundRelationship>,
    seen: usize,
) -> Result<usize, (Reason, usize)>
    ensures { result ≡ scan (fault_of_structure version) seen
        (structures_in (trees_of (map unbound_shape unbounds.now.items))) }
{
    let mut number = seen;
    for unbound in unbounds {
        number = check_unbound(version, unbound, number)?;
    }
    Ok(number)
}
