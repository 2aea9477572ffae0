//! That cells and their values are what the rows of the table lay out.
ghost use Rattle.std.specs.Prelude.{◌↔◌};
ghost use Rattle.packstream.specs.Tree.{Tree};
ghost use Rattle.structures.specs.Prelude.{Form, IsForm};
ghost use Rattle.wire.specs.declared.Version.{Version as AnyVersion};

/// A cell and its value are related by reading the value exactly if the rows of the table relate them.
#[tactic(auto, using(crate::proofs::Laid::rows_are))]
pub fn cells_are_rows()
    ensures { (v : AnyVersion) (s t : Tree) → Form v s t ↔ IsForm v s t }
{}
