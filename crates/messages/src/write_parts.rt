//! Parts of a message that are written of requests and of responses.
ghost use Rattle.std.specs.Prelude.{◌≡◌, true, false, ◌∷◌, [], ◌++◌, Ok, IfOk, OnOk, ◌≤◌, ◌+◌, length, map};
ghost use Rattle.messages.specs.Prelude.{structure, no_trees, tree_then, tree, value_entries, max_size, Answers, cells_tree, cell_put, named_text, of_texts, Adds, AddsCells};

use crate::fault::{Answer, MsgFault};
use crate::read_parts::{Cells, FIELD_DEPTH};
use bytes::BytesMut;
use packstream::{MAX_SIZE, Value};
use std::alloc::{AllocError, Global};
use structures::write_entries;
use structures_encoder::{Output, Unspelled, put_dict};
use wire::Version;

/// The entries of a dictionary.
pub(crate) type Pairs = Vec<(String, Value)>;

/// That it was added, or wasn't.
pub(crate) type Spelled = Result<(), Unspelled>;

/// Adds an entry.
pub(crate) fn push(pairs: &mut Pairs, name: &str, value: Value) -> Result<(), AllocError>
    ensures { OnOk result (value_entries pairs.new.items
        ≡ value_entries pairs.old.items ++ (name.now, tree value) ∷ []) }
{
    let key = String::from_str(*pairs.allocator(), name)?;
    Ok(pairs.push((key, value))?)
}

/// A structure of one field.
pub(crate) fn of_one(alloc: Global, tag: u8, field: Value) -> Result<Value, AllocError>
    ensures { IfOk result (λ w. tree w ≡ structure tag (tree_then (tree field) no_trees)) }
{
    Ok(Value::Struct(tag, vec![in alloc; field]?))
}

/// A structure of one dictionary, of these texts.
#[tactic(auto, using(packstream::proofs::Putting::tree_of_dict, crate::proofs::Fields::tree_of_text))]
pub(crate) fn texts_value(alloc: Global, tag: u8, named: &[(&str, &str)]) -> Result<Value, MsgFault>
    ensures { Answers tree result (Ok (of_texts tag (map named_text named.now))) }
{
    let mut pairs = Vec::new(alloc);
    for &(name, text) in named {
        let text = String::from_str(alloc, text)?;
        push(&mut pairs, name, Value::Text(text))?;
    }
    Ok(of_one(alloc, tag, Value::Dict(pairs))?)
}

/// The value of a dictionary of cells.
pub(crate) fn cells_value(alloc: Global, version: Version, cells: &Cells) -> Answer<Value>
    ensures { Answers tree result (cell_put version (cells_tree cells.now.items)) }
{
    let packed = write_entries(alloc, version, cells)?;
    Ok(packed.into_value())
}

/// The head of a structure.
pub(crate) fn put_structure(out: &mut Output, count: u8, tag: u8) -> Result<(), Unspelled>
    requires { count ≤ 15 }
    ensures before { out.new.before ≡ out.old.before }
    ensures ok { OnOk result (out.new.more ≡ out.old.more ++ (0xB0 + count) ∷ tag ∷ []) }
{
    Ok(out.extend_from_slice(&[0xB0 + count, tag])?)
}

/// A structure without fields.
#[tactic(auto, using(crate::proofs::Added::plain_added))]
pub(crate) fn put_plain(out: &mut Output, tag: u8) -> Result<(), Unspelled>
    ensures before { out.new.before ≡ out.old.before }
    ensures adds { OnOk result (Adds (Ok (structure tag no_trees)) out.old.more out.new.more) }
{
    put_structure(out, 0, tag)
}

/// Gives the output back with what was added, if it was and is no longer than a message may be, else as it was.
pub(crate) fn settle(out: &mut BytesMut, adding: Output, put: Spelled) -> bool
    ensures ok { result ≡ true → put ≡ Ok tt }
    ensures kept { result ≡ true → out.new.items ≡ adding.before ++ adding.more }
    ensures short { result ≡ true → length adding.more ≤ max_size }
    ensures undone { result ≡ false → out.new.items ≡ adding.before }
{
    if put.is_err() || adding.len() > MAX_SIZE {
        *out = adding.undo();
        return false;
    }
    *out = adding.keep();
    true
}

/// A dictionary of cells, in the form of the version.
#[tactic(auto, using(crate::proofs::Added::formed_cells))]
pub(crate) fn put_cells(out: &mut Output, version: Version, cells: &Cells) -> Spelled
    ensures before { out.new.before ≡ out.old.before }
    ensures adds { OnOk result (AddsCells version (cells_tree cells.now.items) out.old.more out.new.more) }
{
    put_dict(out, version, cells.as_slice(), FIELD_DEPTH)
}
