//! Whether two cells are equal.
ghost use Rattle.std.specs.Prelude.{◌≡◌, ◌↔◌, ◌&&◌, IsTrue, map};
ghost use Rattle.packstream.specs.View.{trees_of, entries_of};
ghost use Rattle.structures_cells.specs.Same.{same_tree, same_trees, same_entries};
ghost use Rattle.structures_cells.specs.Shape.{shape, shapes, entries, node_shape, unbound_shape, relationship_shape, path_shape};

use crate::cell::{Cell, Node, Path, Relationship, UnboundRelationship};

/// Whether two cells are equal: of one kind, with equal parts in the same order, a float by its bits. Takes no memory.
pub fn same(one: &Cell, other: &Cell) -> bool
    ensures exact { result ≡ same_tree (shape one.now) (shape other.now) }
    ensures equal { IsTrue result ↔ (shape one.now ≡ shape other.now) }
{
    same_cell(one, other)
}

#[cycle(same_cell)]
#[tactic(auto, using(crate::proofs::Views::dicts))]
fn same_cell(one: &Cell, other: &Cell) -> bool
    ensures { result ≡ same_tree (shape one.now) (shape other.now) }
{
    match (one, other) {
        (Cell::Null, Cell::Null) => true,
        (Cell::Bool(one), Cell::Bool(other)) => *one == *other,
        (Cell::Int(one), Cell::Int(other)) => *one == *other,
        (Cell::Float(one), Cell::Float(other)) => *one == *other,
        (Cell::Bytes(one), Cell::Bytes(other)) => one == other,
        (Cell::Text(one), Cell::Text(other)) => one == other,
        (Cell::List(one), Cell::List(other)) => same_members(one, other),
        (Cell::Dict(one), Cell::Dict(other)) => same_pairs(one, other),
        (Cell::Node(one), Cell::Node(other)) => same_node(one, other),
        (Cell::Relationship(one), Cell::Relationship(other)) => same_relationship(one, other),
        (Cell::UnboundRelationship(one), Cell::UnboundRelationship(other)) => same_unbound(
            one, other,
        ),
        (Cell::Path(one), Cell::Path(other)) => same_path(one, other),
        (Cell::Date { days: one }, Cell::Date { days: other }) => *one == *other,
        (
            Cell::Time {
                nanos: one,
                offset: one_offset,
            },
            Cell::Time {
                nanos: other,
                offset: other_offset,
            },
        ) => [*one, *one_offset] == [*other, *other_offset],
        (Cell::LocalTime { nanos: one }, Cell::LocalTime { nanos: other }) => *one == *other,
        (
            Cell::LocalDateTime {
                seconds: one,
                nanos: one_nanos,
            },
            Cell::LocalDateTime {
                seconds: other,
                nanos: other_nanos,
            },
        ) => [*one, *one_nanos] == [*other, *other_nanos],
        (
            Cell::DateTime {
                utc: one,
                nanos: one_nanos,
                offset: one_offset,
            },
            Cell::DateTime {
                utc: other,
                nanos: other_nanos,
                offset: other_offset,
            },
        ) => [*one, *one_nanos, *one_offset] == [*other, *other_nanos, *other_offset],
        (
            Cell::ZonedLocal {
                seconds: one,
                nanos: one_nanos,
                zone: one_zone,
            },
            Cell::ZonedLocal {
                seconds: other,
                nanos: other_nanos,
                zone: other_zone,
            },
        ) => [*one, *one_nanos] == [*other, *other_nanos] && one_zone == other_zone,
        (
            Cell::ZonedUtc {
                seconds: one,
                nanos: one_nanos,
                zone: one_zone,
            },
            Cell::ZonedUtc {
                seconds: other,
                nanos: other_nanos,
                zone: other_zone,
            },
        ) => [*one, *one_nanos] == [*other, *other_nanos] && one_zone == other_zone,
        (
            Cell::Duration {
                months: one,
                days: one_days,
                seconds: one_seconds,
                nanos: one_nanos,
            },
            Cell::Duration {
                months: other,
                days: other_days,
                seconds: other_seconds,
                nanos: other_nanos,
            },
        ) => [*one, *one_days, *one_seconds, *one_nanos]
            == [*other, *other_days, *other_seconds, *other_nanos],
        (
            Cell::Point2D {
                srid: one,
                x: one_x,
                y: one_y,
            },
            Cell::Point2D {
                srid: other,
                x: other_x,
                y: other_y,
            },
        ) => *one == *other && [*one_x, *one_y] == [*other_x, *other_y],
        (
            Cell::Point3D {
                srid: one,
                x: one_x,
                y: one_y,
                z: one_z,
            },
            Cell::Point3D {
                srid: other,
                x: other_x,
                y: other_y,
                z: other_z,
            },
        ) => *one == *other && [*one_x, *one_y, *one_z] == [*other_x, *other_y, *other_z],
        _ => false,
    }
}

#[cycle(same_cell)]
#[tactic(auto, using(crate::proofs::Walking::members_apart))]
fn same_members(some: &Vec<Cell>, others: &Vec<Cell>) -> bool
    ensures { result
        ≡ same_trees (trees_of (shapes some.now.items)) (trees_of (shapes others.now.items)) }
{
    if some.len() != others.len() {
        return false;
    }
    for (i, member) in some.iter().enumerate() {
        if !same_cell(member, &others[i]) {
            return false;
        }
    }
    true
}

#[cycle(same_cell)]
#[tactic(auto, using(crate::proofs::Walking::pairs_apart))]
fn same_pairs(some: &Vec<(String, Cell)>, others: &Vec<(String, Cell)>) -> bool
    ensures { result ≡ same_entries (entries_of (entries some.now.items))
        (entries_of (entries others.now.items)) }
{
    if some.len() != others.len() {
        return false;
    }
    for (i, pair) in some.iter().enumerate() {
        let other = &others[i];
        if pair.0 != other.0 || !same_cell(&pair.1, &other.1) {
            return false;
        }
    }
    true
}

#[cycle(same_cell)]
#[tactic(auto, using(crate::proofs::Walking::members_apart))]
fn same_nodes(some: &Vec<Node>, others: &Vec<Node>) -> bool
    ensures { result ≡ same_trees (trees_of (map node_shape some.now.items))
        (trees_of (map node_shape others.now.items)) }
{
    if some.len() != others.len() {
        return false;
    }
    for (i, node) in some.iter().enumerate() {
        if !same_node(node, &others[i]) {
            return false;
        }
    }
    true
}

#[cycle(same_cell)]
#[tactic(auto, using(crate::proofs::Walking::members_apart))]
fn same_unbounds(some: &Vec<UnboundRelationship>, others: &Vec<UnboundRelationship>) -> bool
    ensures { result ≡ same_trees (trees_of (map unbound_shape some.now.items))
        (trees_of (map unbound_shape others.now.items)) }
{
    if some.len() != others.len() {
        return false;
    }
    for (i, unbound) in some.iter().enumerate() {
        if !same_unbound(unbound, &others[i]) {
            return false;
        }
    }
    true
}

#[cycle(same_cell)]
#[tactic(auto, using(crate::proofs::Alike::node_alike))]
fn same_node(one: &Node, other: &Node) -> bool
    ensures { result ≡ same_tree (node_shape one.now) (node_shape other.now) }
{
    if one.id != other.id {
        return false;
    }
    if one.labels != other.labels {
        return false;
    }
    if !same_pairs(&one.properties, &other.properties) {
        return false;
    }
    one.element_id == other.element_id
}

#[cycle(same_cell)]
#[tactic(auto, using(crate::proofs::Alike::unbound_alike))]
fn same_unbound(one: &UnboundRelationship, other: &UnboundRelationship) -> bool
    ensures { result ≡ same_tree (unbound_shape one.now) (unbound_shape other.now) }
{
    if one.id != other.id {
        return false;
    }
    if one.kind != other.kind {
        return false;
    }
    if !same_pairs(&one.properties, &other.properties) {
        return false;
    }
    one.element_id == other.element_id
}

#[cycle(same_cell)]
fn same_relationship(one: &Relationship, other: &Relationship) -> bool
    ensures { result ≡ same_tree (relationship_shape one.now) (relationship_shape other.now) }
{
    if [one.id, one.start, one.end] != [other.id, other.start, other.end] {
        return false;
    }
    if one.kind != other.kind {
        return false;
    }
    if !same_pairs(&one.properties, &other.properties) {
        return false;
    }
    one.element_ids == other.element_ids
}

#[cycle(same_cell)]
#[tactic(auto, using(crate::proofs::Alike::path_alike))]
fn same_path(one: &Path, other: &Path) -> bool
    ensures { result ≡ same_tree (path_shape one.now) (path_shape other.now) }
{
    if !same_nodes(&one.nodes, &other.nodes) {
        return false;
    }
    if !same_unbounds(&one.relationships, &other.relationships) {
        return false;
    }
    one.indices == other.indices
}
