//! `clone`, written out since a derived one says nothing of types that hold each other.
ghost use Rattle.std.specs.Prelude.{◌≡◌, IfOk, map};
ghost use Rattle.structures_cells.specs.Shape.{shape, node_shape, unbound_shape, relationship_shape, path_shape, entries, shapes};

use crate::cell::{Cell, Node, Path, Relationship, UnboundRelationship};
use crate::parts::{copy_element, copy_elements, copy_texts};
use std::alloc::AllocError;

impl Clone for Cell {
    ghost is_clone = { λ c d. shape d ≡ shape c };

    fn clone(&self) -> Result<Cell, AllocError> {
        copy(self)
    }
}

/// A copy of a cell. An integer's is made where it is asked for.
#[cycle(copy)]
#[inline(always)]
fn copy(cell: &Cell) -> Result<Cell, AllocError>
    ensures { IfOk result (λ c. shape c ≡ shape cell.now) }
{
    match cell {
        Cell::Int(n) => Ok(Cell::Int(*n)),
        _ => copy_other(cell),
    }
}

/// A copy of any cell.
#[cycle(copy)]
#[tactic(auto, using(crate::proofs::Views::dicts))]
fn copy_other(cell: &Cell) -> Result<Cell, AllocError>
    ensures { IfOk result (λ c. shape c ≡ shape cell.now) }
{
    match cell {
        Cell::Null => Ok(Cell::Null),
        Cell::Bool(b) => Ok(Cell::Bool(*b)),
        Cell::Int(n) => Ok(Cell::Int(*n)),
        Cell::Float(bits) => Ok(Cell::Float(*bits)),
        Cell::Bytes(bytes) => Ok(Cell::Bytes(bytes.clone()?)),
        Cell::Text(text) => Ok(Cell::Text(text.clone()?)),
        Cell::List(members) => Ok(Cell::List(copy_members(members)?)),
        Cell::Dict(pairs) => Ok(Cell::Dict(copy_pairs(pairs)?)),
        Cell::Node(node) => {
            let copied = copy_node(node)?;
            Ok(Cell::Node(Box::new(*node.labels.allocator(), copied)?))
        }
        Cell::Relationship(relationship) => {
            let copied = copy_relationship(relationship)?;
            Ok(Cell::Relationship(Box::new(*relationship.properties.allocator(), copied)?))
        }
        Cell::UnboundRelationship(unbound) => {
            let copied = copy_unbound(unbound)?;
            Ok(Cell::UnboundRelationship(Box::new(*unbound.properties.allocator(), copied)?))
        }
        Cell::Path(path) => {
            let copied = copy_path(path)?;
            Ok(Cell::Path(Box::new(*path.nodes.allocator(), copied)?))
        }
        Cell::Date { days } => Ok(Cell::Date { days: *days }),
        Cell::Time { nanos, offset } => Ok(Cell::Time {
            nanos: *nanos,
            offset: *offset,
        }),
        Cell::LocalTime { nanos } => Ok(Cell::LocalTime { nanos: *nanos }),
        Cell::LocalDateTime { seconds, nanos } => Ok(Cell::LocalDateTime {
            seconds: *seconds,
            nanos: *nanos,
        }),
        Cell::DateTime { utc, nanos, offset } => Ok(Cell::DateTime {
            utc: *utc,
            nanos: *nanos,
            offset: *offset,
        }),
        Cell::ZonedLocal {
            seconds,
            nanos,
            zone,
        } => Ok(Cell::ZonedLocal {
            seconds: *seconds,
            nanos: *nanos,
            zone: zone.clone()?,
        }),
        Cell::ZonedUtc {
            seconds,
            nanos,
            zone,
        } => Ok(Cell::ZonedUtc {
            seconds: *seconds,
            nanos: *nanos,
            zone: zone.clone()?,
        }),
        Cell::Duration {
            months,
            days,
            seconds,
            nanos,
        } => Ok(Cell::Duration {
            months: *months,
            days: *days,
            seconds: *seconds,
            nanos: *nanos,
        }),
        Cell::Point2D { srid, x, y } => Ok(Cell::Point2D {
            srid: *srid,
            x: *x,
            y: *y,
        }),
        Cell::Point3D { srid, x, y, z } => Ok(Cell::Point3D {
            srid: *srid,
            x: *x,
            y: *y,
            z: *z,
        }),
    }
}

#[cycle(copy)]
fn copy_members(members: &Vec<Cell>) -> Result<Vec<Cell>, AllocError>
    ensures { IfOk result (λ v. shapes v.items ≡ shapes members.now.items) }
{
    let mut copies = Vec::with_capacity(*members.allocator(), members.len())?;
    for member in members {
        match member {
            Cell::Int(n) => copies.push(Cell::Int(*n))?,
            _ => copies.push(copy_other(member)?)?,
        }
    }
    Ok(copies)
}

#[cycle(copy)]
fn copy_pairs(pairs: &Vec<(String, Cell)>) -> Result<Vec<(String, Cell)>, AllocError>
    ensures { IfOk result (λ v. entries v.items ≡ entries pairs.now.items) }
{
    let mut copies = Vec::with_capacity(*pairs.allocator(), pairs.len())?;
    for (key, cell) in pairs {
        let name = key.clone()?;
        copies.push((name, copy(cell)?))?;
    }
    Ok(copies)
}

#[cycle(copy)]
fn copy_nodes(nodes: &Vec<Node>) -> Result<Vec<Node>, AllocError>
    ensures { IfOk result (λ v. map node_shape v.items ≡ map node_shape nodes.now.items) }
{
    let mut copies = Vec::with_capacity(*nodes.allocator(), nodes.len())?;
    for node in nodes {
        copies.push(copy_node(node)?)?;
    }
    Ok(copies)
}

#[cycle(copy)]
fn copy_unbounds(
    relationships: &Vec<UnboundRelationship>,
) -> Result<Vec<UnboundRelationship>, AllocError>
    ensures { IfOk result (λ v. map unbound_shape v.items
        ≡ map unbound_shape relationships.now.items) }
{
    let mut copies = Vec::with_capacity(*relationships.allocator(), relationships.len())?;
    for unbound in relationships {
        copies.push(copy_unbound(unbound)?)?;
    }
    Ok(copies)
}

#[cycle(copy)]
fn copy_node(node: &Node) -> Result<Node, AllocError>
    ensures { IfOk result (λ n. node_shape n ≡ node_shape node.now) }
{
    let labels = copy_texts(&node.labels)?;
    let properties = copy_pairs(&node.properties)?;
    let element_id = copy_element(&node.element_id)?;
    Ok(Node {
        id: node.id,
        labels,
        properties,
        element_id,
    })
}

#[cycle(copy)]
fn copy_unbound(unbound: &UnboundRelationship) -> Result<UnboundRelationship, AllocError>
    ensures { IfOk result (λ r. unbound_shape r ≡ unbound_shape unbound.now) }
{
    let kind = unbound.kind.clone()?;
    let properties = copy_pairs(&unbound.properties)?;
    let element_id = copy_element(&unbound.element_id)?;
    Ok(UnboundRelationship {
        id: unbound.id,
        kind,
        properties,
        element_id,
    })
}

#[cycle(copy)]
fn copy_relationship(relationship: &Relationship) -> Result<Relationship, AllocError>
    ensures { IfOk result (λ r. relationship_shape r ≡ relationship_shape relationship.now) }
{
    let kind = relationship.kind.clone()?;
    let properties = copy_pairs(&relationship.properties)?;
    let element_ids = copy_elements(&relationship.element_ids)?;
    Ok(Relationship {
        id: relationship.id,
        start: relationship.start,
        end: relationship.end,
        kind,
        properties,
        element_ids,
    })
}

#[cycle(copy)]
#[tactic(auto, using(crate::proofs::Views::same_path, std::proofs::lemmas::List::Elements::same_from_all_zip))]
fn copy_path(path: &Path) -> Result<Path, AllocError>
    ensures { IfOk result (λ p. path_shape p ≡ path_shape path.now) }
{
    let nodes = copy_nodes(&path.nodes)?;
    let relationships = copy_unbounds(&path.relationships)?;
    let indices = path.indices.clone()?;
    Ok(Path {
        nodes,
        relationships,
        indices,
    })
}
