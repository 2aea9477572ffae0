//! The first structure with a fault.
ghost use Rattle.std.specs.Prelude.{◌≡◌};
ghost use Rattle.packstream.specs.View.{tree, trees, trees_of, entries, entries_of};
ghost use Rattle.structures_cells.specs.Faults.{scan, structures, structures_in, structures_under, fault};

use crate::fault::Reason;
use crate::wrong::fault_of;
use packstream::Value;
use wire::Version;

/// Looks at the structures of a value in preorder, the first with this number; answers the number after them, or the first
/// fault and the number of its structure.
#[cycle(check)]
pub fn check_value(version: Version, value: &Value, seen: usize) -> Result<usize, (Reason, usize)>
    ensures { result ≡ scan (fault version) seen (structures (tree value.now)) }
{
    match value {
        Value::List(members) => check_members(version, members, seen),
        Value::Dict(pairs) => check_pairs(version, pairs, seen),
        Value::Struct(tag, fields) => match fault_of(version, *tag, fields) {
            Some(reason) => Err((reason, seen)),
            None => check_members(version, fields, seen.saturating_add(1)),
        },
        _ => Ok(seen),
    }
}

#[cycle(check)]
fn check_members(
    version: Version,
    members: &Vec<Value>,
    seen: usize,
) -> Result<usize, (Reason, usize)>
    ensures { result ≡ scan (fault version) seen
        (structures_in (trees_of (trees members.now.items))) }
{
    let mut number = seen;
    for member in members {
        number = check_value(version, member, number)?;
    }
    Ok(number)
}

#[cycle(check)]
fn check_pairs(
    version: Version,
    pairs: &Vec<(String, Value)>,
    seen: usize,
) -> Result<usize, (Reason, usize)>
    ensures { result ≡ scan (fault version) seen
        (structures_under (entries_of (entries pairs.now.items))) }
{
    let mut number = seen;
    for pair in pairs {
        number = check_value(version, &pair.1, number)?;
    }
    Ok(number)
}
