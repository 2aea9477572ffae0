//! Structures: nodes, relationships and paths, and what of them is looked for first.
ghost use Rattle.std.specs.Prelude.{◌≡◌, ◌≤◌, OnOk};
ghost use Rattle.structures_encoder.specs.Prelude.{count, int, shape, text_of, element_of, elements_of, node_shape, unbound_shape, relationship_shape, path_shape, Spells, SpellsAnywhere, Puts, IsPassed, list_of};

use crate::fault::{Spelled, Unspelled};
use crate::moments::{put_ints, put_moment};
use crate::scope::{Inside, Scope};
use crate::spelling::put_entries;
use crate::texts::{put_list_head, put_number, put_opening, put_string};
use packstream::writing::Output;
use structures_cells::{
    Cell, ElementIds, Node, Path, Relationship, UnboundRelationship, check_cell, tags,
};

/// Spells a list of texts.
fn put_texts(out: &mut Output, scope: Scope, texts: &[String]) -> Spelled<()>
    ensures { Puts (Spells scope (list_of text_of texts.now)) out.old out.new result }
{
    put_list_head(out, scope, texts.len())?;
    for text in texts {
        put_string(out, text)?;
    }
    Ok(())
}

/// Spells a list of integers.
fn put_number_list(out: &mut Output, scope: Scope, numbers: &[i64]) -> Spelled<()>
    ensures { Puts (Spells scope (list_of int numbers.now)) out.old out.new result }
{
    put_list_head(out, scope, numbers.len())?;
    put_ints(out, numbers)
}

fn element_count(id: &Option<String>) -> u8
    ensures counted { result ≡ count (element_of id.now) }
    ensures few { result ≤ 1 }
{
    match id {
        None => 0,
        Some(_) => 1,
    }
}

/// Spells the element id if it is there.
#[tactic(auto, using(crate::proofs::Adding::none, crate::proofs::Adding::then))]
fn put_element(out: &mut Output, id: &Option<String>) -> Spelled<()>
    ensures { Puts (SpellsAnywhere (element_of id.now)) out.old out.new result }
{
    match id {
        None => Ok(()),
        Some(id) => put_string(out, id),
    }
}

fn elements_count(ids: &Option<ElementIds>) -> u8
    ensures counted { result ≡ count (elements_of ids.now) }
    ensures few { result ≤ 3 }
{
    match ids {
        None => 0,
        Some(_) => 3,
    }
}

/// Spells the element ids of a relationship and its ends if they are there.
#[tactic(auto, using(crate::proofs::Adding::none, crate::proofs::Adding::then))]
fn put_elements(out: &mut Output, ids: &Option<ElementIds>) -> Spelled<()>
    ensures { Puts (SpellsAnywhere (elements_of ids.now)) out.old out.new result }
{
    match ids {
        None => Ok(()),
        Some(ids) => {
            put_string(out, &ids.own)?;
            put_string(out, &ids.start)?;
            put_string(out, &ids.end)
        }
    }
}

/// Spells a structure, whose faults and those of what it holds are looked for first and once.
#[cycle(speller)]
#[tactic(auto, using(crate::proofs::Flat::passed))]
#[inline(never)]
pub(crate) fn put_structure(out: &mut Output, mut scope: Scope, cell: &Cell) -> Spelled<()>
    ensures spelled { Puts (Spells scope (shape cell.now)) out.old out.new result }
    ensures fine { OnOk result (IsPassed scope (shape cell.now)) }
{
    if let Inside::Unchecked = scope.inside {
        check_cell(scope.version, cell, 0).or(Err(Unspelled))?;
    }
    scope.inside = Inside::Fine;
    match cell {
        Cell::Node(node) => put_node(out, scope, node),
        Cell::Relationship(relationship) => put_relationship(out, scope, relationship),
        Cell::UnboundRelationship(unbound) => put_unbound(out, scope, unbound),
        Cell::Path(path) => put_path(out, scope, path),
        _ => put_moment(out, scope, cell),
    }
}

/// Spells a node.
#[cycle(speller)]
fn put_node(out: &mut Output, scope: Scope, node: &Node) -> Spelled<()>
    ensures { Puts (Spells scope (node_shape node.now)) out.old out.new result }
{
    let fields = 3 + element_count(&node.element_id);
    let inner = put_opening(out, scope, fields, tags::NODE)?;
    put_number(out, node.id)?;
    put_texts(out, inner, &node.labels)?;
    put_entries(out, inner, &node.properties)?;
    put_element(out, &node.element_id)
}

/// Spells a relationship as a path has it.
#[cycle(speller)]
fn put_unbound(out: &mut Output, scope: Scope, unbound: &UnboundRelationship) -> Spelled<()>
    ensures { Puts (Spells scope (unbound_shape unbound.now)) out.old out.new result }
{
    let fields = 3 + element_count(&unbound.element_id);
    let inner = put_opening(out, scope, fields, tags::UNBOUND_RELATIONSHIP)?;
    put_number(out, unbound.id)?;
    put_string(out, &unbound.kind)?;
    put_entries(out, inner, &unbound.properties)?;
    put_element(out, &unbound.element_id)
}

/// Spells a relationship.
#[cycle(speller)]
fn put_relationship(out: &mut Output, scope: Scope, relationship: &Relationship) -> Spelled<()>
    ensures { Puts (Spells scope (relationship_shape relationship.now)) out.old out.new result }
{
    let fields = 5 + elements_count(&relationship.element_ids);
    let inner = put_opening(out, scope, fields, tags::RELATIONSHIP)?;
    put_number(out, relationship.id)?;
    put_number(out, relationship.start)?;
    put_number(out, relationship.end)?;
    put_string(out, &relationship.kind)?;
    put_entries(out, inner, &relationship.properties)?;
    put_elements(out, &relationship.element_ids)
}

/// Spells a path: the list of its nodes, that of its relationships, and the indices of its walk.
#[cycle(speller)]
fn put_path(out: &mut Output, scope: Scope, path: &Path) -> Spelled<()>
    ensures { Puts (Spells scope (path_shape path.now)) out.old out.new result }
{
    let inner = put_opening(out, scope, 3, tags::PATH)?;
    let among = put_list_head(out, inner, path.nodes.len())?;
    for node in &path.nodes {
        put_node(out, among, node)?;
    }
    let between = put_list_head(out, inner, path.relationships.len())?;
    for unbound in &path.relationships {
        put_unbound(out, between, unbound)?;
    }
    put_number_list(out, inner, &path.indices)
}
