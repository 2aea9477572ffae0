//! Cells in the form of a version.
ghost use Rattle.std.specs.Prelude.{◌≡◌, IfOk, map};
ghost use Rattle.structures_cells.specs.Shape.{shape, node_shape, unbound_shape, relationship_shape, path_shape, element_of, elements_of, entries, shapes};
ghost use Rattle.structures.specs.Fitting.{fitted, fitted_entry, element_at, elements_at, Fits};
ghost use Rattle.structures.specs.Steps.{AreEach};

use crate::fault::CellFault;
use crate::scope::{Made, Scope};
use std::alloc::Global;
use structures_cells::{Cell, ElementIds, Node, Path, Relationship, UnboundRelationship};
use wire::Version;

/// The cell in the form of a version: without element ids if it has none, and else with the decimal texts of the
/// ids where element ids were absent, in the whole of the cell. It refuses for want of memory alone, and takes memory for
/// the texts of ids alone.
pub fn fit(alloc: Global, cell: Cell, version: Version) -> Result<Cell, CellFault>
    ensures { Fits version (shape cell) result }
{
    let mut fitted = cell;
    fit_cell(Scope { alloc, version }, &mut fitted)?;
    Ok(fitted)
}

/// The element id of a node or of a relationship in a path.
fn fit_element(scope: Scope, id: i64, element_id: &mut Option<String>) -> Made<()>
    ensures { IfOk result (λ _. element_of element_id.new
        ≡ element_at scope.version id (element_of element_id.old)) }
{
    if !scope.version.has_element_ids() {
        *element_id = None;
    } else if element_id.is_none() {
        *element_id = Some(id.to_string(scope.alloc)?);
    }
    Ok(())
}

/// The element ids of a relationship.
fn fit_ids(scope: Scope, id: i64, start: i64, end: i64, ids: &mut Option<ElementIds>) -> Made<()>
    ensures { IfOk result (λ _. elements_of ids.new
        ≡ elements_at scope.version id start end (elements_of ids.old)) }
{
    if !scope.version.has_element_ids() {
        *ids = None;
    } else if ids.is_none() {
        let own = id.to_string(scope.alloc)?;
        let start = start.to_string(scope.alloc)?;
        let end = end.to_string(scope.alloc)?;
        *ids = Some(ElementIds { own, start, end });
    }
    Ok(())
}

#[cycle(fitting)]
#[tactic(auto, using(crate::proofs::Fitted::fit_list_is, crate::proofs::Fitted::fit_dict_is))]
fn fit_cell(scope: Scope, cell: &mut Cell) -> Made<()>
    ensures { IfOk result (λ _. shape cell.new ≡ fitted scope.version (shape cell.old)) }
{
    match cell {
        Cell::List(members) => fit_members(scope, members)?,
        Cell::Dict(pairs) => fit_pairs(scope, pairs)?,
        Cell::Node(node) => fit_node(scope, node)?,
        Cell::Relationship(relationship) => fit_relationship(scope, relationship)?,
        Cell::UnboundRelationship(unbound) => fit_unbound(scope, unbound)?,
        Cell::Path(path) => fit_path(scope, path)?,
        _ => {}
    }
    Ok(())
}

#[cycle(fitting)]
fn fit_members(scope: Scope, members: &mut Vec<Cell>) -> Made<()>
    ensures { IfOk result (λ _. AreEach (fitted scope.version) (shapes members.old.items) (shapes members.new.items)) }
{
    for i in 0..members.len() {
        match &mut members[i] {
            Cell::Int(_) => {}
            member => fit_cell(scope, member)?,
        }
    }
    Ok(())
}

#[cycle(fitting)]
fn fit_pairs(scope: Scope, pairs: &mut Vec<(String, Cell)>) -> Made<()>
    ensures { IfOk result (λ _. AreEach (fitted_entry scope.version) (entries pairs.old.items) (entries pairs.new.items)) }
{
    for i in 0..pairs.len() {
        fit_cell(scope, &mut pairs[i].1)?;
    }
    Ok(())
}

#[cycle(fitting)]
fn fit_nodes(scope: Scope, nodes: &mut Vec<Node>) -> Made<()>
    ensures { IfOk result (λ _. AreEach (fitted scope.version) (map node_shape nodes.old.items) (map node_shape nodes.new.items)) }
{
    for i in 0..nodes.len() {
        fit_node(scope, &mut nodes[i])?;
    }
    Ok(())
}

#[cycle(fitting)]
fn fit_unbounds(scope: Scope, unbounds: &mut Vec<UnboundRelationship>) -> Made<()>
    ensures { IfOk result (λ _. AreEach (fitted scope.version) (map unbound_shape unbounds.old.items) (map unbound_shape unbounds.new.items)) }
{
    for i in 0..unbounds.len() {
        fit_unbound(scope, &mut unbounds[i])?;
    }
    Ok(())
}

#[cycle(fitting)]
fn fit_path(scope: Scope, path: &mut Path) -> Made<()>
    ensures { IfOk result (λ _. path_shape path.new ≡ fitted scope.version (path_shape path.old)) }
{
    fit_nodes(scope, &mut path.nodes)?;
    fit_unbounds(scope, &mut path.relationships)
}

#[cycle(fitting)]
fn fit_node(scope: Scope, node: &mut Node) -> Made<()>
    ensures { IfOk result (λ _. node_shape node.new ≡ fitted scope.version (node_shape node.old)) }
{
    fit_pairs(scope, &mut node.properties)?;
    fit_element(scope, node.id, &mut node.element_id)
}

#[cycle(fitting)]
fn fit_unbound(scope: Scope, unbound: &mut UnboundRelationship) -> Made<()>
    ensures { IfOk result (λ _. unbound_shape unbound.new
        ≡ fitted scope.version (unbound_shape unbound.old)) }
{
    fit_pairs(scope, &mut unbound.properties)?;
    fit_element(scope, unbound.id, &mut unbound.element_id)
}

#[cycle(fitting)]
fn fit_relationship(scope: Scope, relationship: &mut Relationship) -> Made<()>
    ensures { IfOk result (λ _. relationship_shape relationship.new
        ≡ fitted scope.version (relationship_shape relationship.old)) }
{
    fit_pairs(scope, &mut relationship.properties)?;
    let (id, start, end) = (relationship.id, relationship.start, relationship.end);
    fit_ids(scope, id, start, end, &mut relationship.element_ids)
}
