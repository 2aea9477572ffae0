//! The shape of a path.
ghost use Rattle.std.specs.Prelude.{◌≡◌, true, [], ◌∷◌, map};
ghost use Rattle.packstream.specs.Tree.{int};
ghost use Rattle.packstream.specs.View.{tree, trees, trees_of};
ghost use Rattle.structures_cells.specs.Faults.{is_relationship, is_place, is_walk, is_path};

use packstream::Value;

fn reaches_relationship(relationships: usize, step: &Value) -> bool
    ensures { result ≡ is_relationship relationships (tree step.now) }
{
    match step {
        Value::Int(n) => {
            let size = n.unsigned_abs();
            0 < size && size <= relationships as u64
        }
        _ => true,
    }
}

fn reaches_node(nodes: usize, step: &Value) -> bool
    ensures { result ≡ is_place nodes (tree step.now) }
{
    match step {
        Value::Int(n) => 0 <= *n && (*n as u64) < nodes as u64,
        _ => false,
    }
}

fn walks(nodes: usize, relationships: usize, steps: &[Value]) -> bool
    ensures { result ≡ is_walk nodes relationships true (trees_of (trees steps.now)) }
{
    let mut even = true;
    for step in steps {
        let reaches = if even {
            reaches_relationship(relationships, step)
        } else {
            reaches_node(nodes, step)
        };
        if !reaches {
            return false;
        }
        even = !even;
    }
    even
}

pub(crate) fn indices_walk(nodes: usize, relationships: usize, indices: &[i64]) -> bool
    ensures { result ≡ is_walk nodes relationships true (trees_of (map int indices.now)) }
{
    let mut even = true;
    for index in indices {
        let step = Value::Int(*index);
        let reaches = if even {
            reaches_relationship(relationships, &step)
        } else {
            reaches_node(nodes, &step)
        };
        if !reaches {
            return false;
        }
        even = !even;
    }
    even
}

fn is_shaped_by(nodes: &Value, relationships: &Value, steps: &Value) -> bool
    ensures { result ≡ is_path
        (trees_of (tree nodes.now ∷ tree relationships.now ∷ tree steps.now ∷ [])) }
{
    match (nodes, relationships, steps) {
        (Value::List(nodes), Value::List(relationships), Value::List(steps)) => nodes.len() > 0
            && walks(nodes.len(), relationships.len(), steps),
        _ => true,
    }
}

#[tactic(auto, using(crate::proofs::Faulty::other_path, packstream::proofs::Putting::len_trees))]
pub(crate) fn is_shaped(fields: &[Value]) -> bool
    ensures { result ≡ is_path (trees_of (trees fields.now)) }
{
    if fields.len() != 3 {
        return true;
    }
    is_shaped_by(&fields[0], &fields[1], &fields[2])
}
