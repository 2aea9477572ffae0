//! Structures, and of them nodes, relationships and paths, behind their tag.
ghost use Rattle.std.specs.Prelude.{IfOk, map};
ghost use Rattle.structures_decoder.specs.Prelude.{list, trees_of, shape, node_shape, unbound_shape, relationship_shape, path_shape, node_tag, relationship_tag, unbound_tag, path_tag, form, IsRead, HasFields};

use crate::dictionaries::dict_in;
use crate::fault::{Decoded, Unscanned};
use crate::fields::{
    element_in, elements_in, indices_in, labels_in, list_head, string_in, structure_head,
};
use crate::moments::moment_of;
use crate::plain::int_in;
use crate::scope::Scope;
use packstream::reading::first_room;
use packstream::source::Source;
use structures_cells::{Cell, Node, Path, Relationship, UnboundRelationship, tags};

/// The cell of a structure, behind its tag: its fields are of their kinds, and a DateTime is of the version.
#[cycle(scanner)]
pub(crate) fn made_of<S: Source>(
    scope: Scope,
    room: u8,
    tag: u8,
    count: u64,
    source: S,
) -> Decoded<Cell, S>
    ensures { IfOk result (λ x. HasFields scope room count tag (shape x.0) (S.left source) (S.left x.1)) }
{
    match tag {
        tags::NODE => {
            let (node, rest) = node_of(scope, room, count, source)?;
            Ok((Cell::Node(Box::new(scope.alloc, node)?), rest))
        }
        tags::RELATIONSHIP => {
            let (relationship, rest) = relationship_of(scope, room, count, source)?;
            let relationship = Box::new(scope.alloc, relationship)?;
            Ok((Cell::Relationship(relationship), rest))
        }
        tags::UNBOUND_RELATIONSHIP => {
            let (unbound, rest) = unbound_of(scope, room, count, source)?;
            let unbound = Box::new(scope.alloc, unbound)?;
            Ok((Cell::UnboundRelationship(unbound), rest))
        }
        tags::PATH => {
            let (path, rest) = path_of(scope, room, count, source)?;
            Ok((Cell::Path(Box::new(scope.alloc, path)?), rest))
        }
        _ => moment_of(scope, tag, count, source),
    }
}

/// A node: its id, labels and properties, and the element id if there are four fields.
#[cycle(scanner)]
fn node_of<S: Source>(scope: Scope, room: u8, count: u64, source: S) -> Decoded<Node, S>
    ensures { IfOk result
        (λ x. HasFields scope room count node_tag (node_shape x.0) (S.left source) (S.left x.1)) }
{
    let (id, rest) = int_in(source)?;
    let (labels, rest) = labels_in(scope, room, rest)?;
    let (properties, rest) = dict_in(scope, room, rest)?;
    let (element_id, rest) = element_in(scope, count, rest)?;
    let node = Node {
        id,
        labels,
        properties,
        element_id,
    };
    Ok((node, rest))
}

/// A relationship without its ends: its id, type and properties, and the element id if there are four fields.
#[cycle(scanner)]
fn unbound_of<S: Source>(
    scope: Scope,
    room: u8,
    count: u64,
    source: S,
) -> Decoded<UnboundRelationship, S>
    ensures { IfOk result
        (λ x. HasFields scope room count unbound_tag (unbound_shape x.0) (S.left source) (S.left x.1)) }
{
    let (id, rest) = int_in(source)?;
    let (kind, rest) = string_in(scope.alloc, rest)?;
    let (properties, rest) = dict_in(scope, room, rest)?;
    let (element_id, rest) = element_in(scope, count, rest)?;
    let unbound = UnboundRelationship {
        id,
        kind,
        properties,
        element_id,
    };
    Ok((unbound, rest))
}

/// A relationship: the three ids, its type and properties, and the element ids if there are eight fields.
#[cycle(scanner)]
fn relationship_of<S: Source>(
    scope: Scope,
    room: u8,
    count: u64,
    source: S,
) -> Decoded<Relationship, S>
    ensures { IfOk result (λ x. HasFields scope room count relationship_tag
        (relationship_shape x.0) (S.left source) (S.left x.1)) }
{
    let (id, rest) = int_in(source)?;
    let (start, rest) = int_in(rest)?;
    let (end, rest) = int_in(rest)?;
    let (kind, rest) = string_in(scope.alloc, rest)?;
    let (properties, rest) = dict_in(scope, room, rest)?;
    let (element_ids, rest) = elements_in(scope, count, rest)?;
    let relationship = Relationship {
        id,
        start,
        end,
        kind,
        properties,
        element_ids,
    };
    Ok((relationship, rest))
}

/// A path: its nodes, its relationships, and the indices of its walk.
#[cycle(scanner)]
fn path_of<S: Source>(scope: Scope, room: u8, count: u64, source: S) -> Decoded<Path, S>
    ensures { IfOk result
        (λ x. HasFields scope room count path_tag (path_shape x.0) (S.left source) (S.left x.1)) }
{
    if count != 3 {
        return Err(Unscanned);
    }
    let (nodes, rest) = nodes_in(scope, room, source)?;
    let (relationships, rest) = unbounds_in(scope, room, rest)?;
    let (indices, rest) = indices_in(scope, room, rest)?;
    let path = Path {
        nodes,
        relationships,
        indices,
    };
    Ok((path, rest))
}

/// A list of nodes.
#[cycle(scanner)]
#[tactic(auto, using(crate::proofs::Laid::members), unfolding(packstream::specs::Reading::items_at, packstream::specs::Reading::struct_at))]
fn nodes_in<S: Source>(scope: Scope, room: u8, source: S) -> Decoded<Vec<Node>, S>
    ensures { IfOk result (λ x. IsRead room
        (form scope.version (list (trees_of (map node_shape x.0.items)))) (S.left source) (S.left x.1)) }
{
    let (count, mut rest) = list_head(room, source)?;
    let mut nodes = Vec::with_capacity(scope.alloc, first_room(count, rest.heads()))?;
    for _ in 0..count {
        let (fields, inside) = structure_head(room - 1, tags::NODE, rest)?;
        let (node, after) = node_of(scope, room - 2, fields, inside)?;
        nodes.push(node)?;
        rest = after;
    }
    Ok((nodes, rest))
}

/// A list of relationships without their ends.
#[cycle(scanner)]
#[tactic(auto, using(crate::proofs::Laid::members), unfolding(packstream::specs::Reading::items_at, packstream::specs::Reading::struct_at))]
fn unbounds_in<S: Source>(scope: Scope, room: u8, source: S) -> Decoded<Vec<UnboundRelationship>, S>
    ensures { IfOk result (λ x. IsRead room
        (form scope.version (list (trees_of (map unbound_shape x.0.items)))) (S.left source) (S.left x.1)) }
{
    let (count, mut rest) = list_head(room, source)?;
    let mut unbounds = Vec::with_capacity(scope.alloc, first_room(count, rest.heads()))?;
    for _ in 0..count {
        let (fields, inside) = structure_head(room - 1, tags::UNBOUND_RELATIONSHIP, rest)?;
        let (unbound, after) = unbound_of(scope, room - 2, fields, inside)?;
        unbounds.push(unbound)?;
        rest = after;
    }
    Ok((unbounds, rest))
}
