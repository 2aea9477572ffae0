//! Cells of values whose structures have no fault.
ghost use Rattle.std.specs.Prelude.{◌≡◌, IfOk, map, true};
ghost use Rattle.packstream.specs.Prelude.{dict, list, tree, trees, trees_of, entries_of, entries as seen_entries};
ghost use Rattle.structures_cells.specs.Prelude.{is_kind, shape, shapes, node_shape, unbound_shape, relationship_shape, path_shape, entries, node_tag, relationship_tag, unbound_tag, path_tag};
ghost use Rattle.structures.specs.Prelude.{typed, typed_entry, IsSound, ReadsAs, ReadsAt, IsRead, with_fields, AreSound};

use crate::fields::{element_at, elements_at, int_at, ints_of, text_at, texts_at};
use crate::plain::plain_of;
use crate::scope::Made;
use packstream::Value;
use std::alloc::Global;
use structures_cells::{Cell, Field, Node, Path, Relationship, UnboundRelationship, tags};

#[cycle(read)]
pub(crate) fn cell_of(alloc: Global, value: &Value) -> Made<Cell>
    requires { IsSound (tree value.now) }
    ensures { IfOk result (λ c. shape c ≡ typed (tree value.now)) }
{
    match value {
        Value::Null => Ok(Cell::Null),
        Value::Bool(b) => Ok(Cell::Bool(*b)),
        Value::Int(n) => Ok(Cell::Int(*n)),
        Value::Float(bits) => Ok(Cell::Float(*bits)),
        Value::Bytes(bytes) => Ok(Cell::Bytes(bytes.clone()?)),
        Value::Text(text) => Ok(Cell::Text(text.clone()?)),
        Value::List(members) => Ok(Cell::List(cells_of(alloc, members)?)),
        Value::Dict(pairs) => Ok(Cell::Dict(pairs_of(alloc, pairs)?)),
        Value::Struct(tag, fields) => structure_of(alloc, *tag, fields),
    }
}

#[cycle(read)]
fn cells_of(alloc: Global, members: &Vec<Value>) -> Made<Vec<Cell>>
    requires { AreSound members.now.items }
    ensures { IfOk result (λ v. shapes v.items ≡ map typed (trees members.now.items)) }
{
    let mut cells = Vec::with_capacity(alloc, members.len())?;
    for member in members {
        match member {
            Value::Int(n) => cells.push(Cell::Int(*n))?,
            _ => cells.push(cell_of(alloc, member)?)?,
        }
    }
    Ok(cells)
}

#[cycle(read)]
fn pairs_of(alloc: Global, pairs: &Vec<(String, Value)>) -> Made<Vec<(String, Cell)>>
    requires { IsSound (dict (entries_of (seen_entries pairs.now.items))) }
    ensures { IfOk result (λ v. entries v.items ≡ map typed_entry (seen_entries pairs.now.items)) }
{
    let mut cells = Vec::with_capacity(alloc, pairs.len())?;
    for (key, value) in pairs {
        let name = key.clone()?;
        cells.push((name, cell_of(alloc, value)?))?;
    }
    Ok(cells)
}

#[cycle(read)]
fn structure_of(alloc: Global, tag: u8, fields: &Vec<Value>) -> Made<Cell>
    requires { IsSound (with_fields tag fields.now.items) }
    ensures { IfOk result (λ c. IsRead tag fields.now.items (shape c)) }
{
    match tag {
        tags::NODE => Ok(Cell::Node(Box::new(alloc, node_of(alloc, fields)?)?)),
        tags::UNBOUND_RELATIONSHIP => {
            Ok(Cell::UnboundRelationship(Box::new(alloc, unbound_of(alloc, fields)?)?))
        }
        tags::RELATIONSHIP => {
            Ok(Cell::Relationship(Box::new(alloc, relationship_of(alloc, fields)?)?))
        }
        tags::PATH => Ok(Cell::Path(Box::new(alloc, path_of(alloc, fields)?)?)),
        _ => plain_of(alloc, tag, fields),
    }
}

#[cycle(read)]
fn node_of(alloc: Global, fields: &Vec<Value>) -> Made<Node>
    requires { IsSound (with_fields node_tag fields.now.items) }
    ensures { IfOk result (λ n. IsRead node_tag fields.now.items (node_shape n)) }
{
    Ok(Node {
        id: int_at(fields, 0),
        labels: texts_at(alloc, fields, 1)?,
        properties: properties_of(alloc, fields, 2)?,
        element_id: element_at(alloc, fields, 3)?,
    })
}

#[cycle(read)]
fn unbound_of(alloc: Global, fields: &Vec<Value>) -> Made<UnboundRelationship>
    requires { IsSound (with_fields unbound_tag fields.now.items) }
    ensures { IfOk result (λ n. IsRead unbound_tag fields.now.items (unbound_shape n)) }
{
    Ok(UnboundRelationship {
        id: int_at(fields, 0),
        kind: text_at(alloc, fields, 1)?,
        properties: properties_of(alloc, fields, 2)?,
        element_id: element_at(alloc, fields, 3)?,
    })
}

#[cycle(read)]
fn relationship_of(alloc: Global, fields: &Vec<Value>) -> Made<Relationship>
    requires { IsSound (with_fields relationship_tag fields.now.items) }
    ensures { IfOk result (λ n. IsRead relationship_tag fields.now.items (relationship_shape n)) }
{
    Ok(Relationship {
        id: int_at(fields, 0),
        start: int_at(fields, 1),
        end: int_at(fields, 2),
        kind: text_at(alloc, fields, 3)?,
        properties: properties_of(alloc, fields, 4)?,
        element_ids: elements_at(alloc, fields)?,
    })
}

#[cycle(read)]
#[tactic(auto, using(crate::proofs::Got::path_length))]
fn path_of(alloc: Global, fields: &Vec<Value>) -> Made<Path>
    requires { IsSound (with_fields path_tag fields.now.items) }
    ensures { IfOk result (λ p. IsRead path_tag fields.now.items (path_shape p)) }
{
    Ok(Path {
        nodes: nodes_of(alloc, &fields[0])?,
        relationships: unbounds_of(alloc, &fields[1])?,
        indices: ints_of(alloc, &fields[2])?,
    })
}

#[cycle(read)]
fn nodes_of(alloc: Global, value: &Value) -> Made<Vec<Node>>
    requires sound { IsSound (tree value.now) }
    requires kind { is_kind Field.Nodes (tree value.now) ≡ true }
    ensures { IfOk result (λ v. list (trees_of (map node_shape v.items)) ≡ typed (tree value.now)) }
{
    let Value::List(members) = value else {
        unreachable!()
    };
    let mut nodes = Vec::with_capacity(alloc, members.len())?;
    for member in members {
        let Value::Struct(_, fields) = member else {
            unreachable!()
        };
        nodes.push(node_of(alloc, fields)?)?;
    }
    Ok(nodes)
}

#[cycle(read)]
fn unbounds_of(alloc: Global, value: &Value) -> Made<Vec<UnboundRelationship>>
    requires sound { IsSound (tree value.now) }
    requires kind { is_kind Field.Relationships (tree value.now) ≡ true }
    ensures { IfOk result (λ v. list (trees_of (map unbound_shape v.items)) ≡ typed (tree value.now)) }
{
    let Value::List(members) = value else {
        unreachable!()
    };
    let mut relationships = Vec::with_capacity(alloc, members.len())?;
    for member in members {
        let Value::Struct(_, fields) = member else {
            unreachable!()
        };
        relationships.push(unbound_of(alloc, fields)?)?;
    }
    Ok(relationships)
}

/// The entries in a field, none where it holds no dictionary.
#[cycle(read)]
#[tactic(auto, using(crate::proofs::Got::at_some, crate::proofs::Got::at_none, packstream::specs::declared::value::Value::the_lemmas))]
fn properties_of(alloc: Global, fields: &Vec<Value>, i: usize) -> Made<Vec<(String, Cell)>>
    requires { AreSound fields.now.items }
    ensures { IfOk result (λ v. ReadsAt Field.Properties fields.now.items i
        (dict (entries_of (entries v.items)))) }
{
    match fields.get(i) {
        Some(value) => match value {
            Value::Dict(pairs) => pairs_of(alloc, pairs),
            _ => Ok(Vec::new(alloc)),
        },
        None => Ok(Vec::new(alloc)),
    }
}
