//! Lists and dictionaries of cells.
ghost use Rattle.std.specs.Prelude.{◌≡◌, ◌≤◌, ◌++◌, OnOk};
ghost use Rattle.structures_encoder.specs.Prelude.{canon, IsGood, depth, shape, IsWritable, form, list_of, dict_of};

use crate::fault::Spelled;
use crate::scope::{Inside, Scope};
use crate::spelling::{put_cells, put_entries};
use packstream::writing::Output;
use structures_cells::Cell;
use wire::Version;

/// Adds the shortest spelling of a list of these cells in the form of the version, which can be written there, is good and nests at most
/// `room` deep.
#[tactic(auto, using(crate::proofs::Sure::all_sure, structures_cells::proofs::Fine::scan_fine))]
#[inline(always)]
pub fn put_list(out: &mut Output, version: Version, members: &[Cell], room: u8) -> Spelled<()>
    requires { room ≤ 32 }
    ensures before { out.new.before ≡ out.old.before }
    ensures spelled { OnOk result (out.new.more
        ≡ out.old.more ++ canon (form version (list_of shape members.now))) }
    ensures good { OnOk result (IsGood (form version (list_of shape members.now))) }
    ensures deep { OnOk result (depth (form version (list_of shape members.now)) ≤ room) }
    ensures writable { OnOk result (IsWritable version (list_of shape members.now)) }
{
    let scope = Scope {
        version,
        room,
        inside: Inside::Unchecked,
    };
    put_cells(out, scope, members)?;
    Ok(())
}

/// Adds the shortest spelling of a dictionary of these entries, as `put_list` that of a list.
#[tactic(auto, using(crate::proofs::Sure::under_sure, structures_cells::proofs::Fine::scan_fine))]
pub fn put_dict(
    out: &mut Output,
    version: Version,
    pairs: &[(String, Cell)],
    room: u8,
) -> Spelled<()>
    requires { room ≤ 32 }
    ensures before { out.new.before ≡ out.old.before }
    ensures spelled { OnOk result (out.new.more
        ≡ out.old.more ++ canon (form version (dict_of pairs.now))) }
    ensures good { OnOk result (IsGood (form version (dict_of pairs.now))) }
    ensures deep { OnOk result (depth (form version (dict_of pairs.now)) ≤ room) }
    ensures writable { OnOk result (IsWritable version (dict_of pairs.now)) }
{
    let scope = Scope {
        version,
        room,
        inside: Inside::Unchecked,
    };
    put_entries(out, scope, pairs)?;
    Ok(())
}
