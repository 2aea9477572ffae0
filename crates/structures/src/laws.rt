//! What holds of values and cells, whatever reads them.
ghost use Rattle.std.specs.Prelude.{◌≡◌, ℕ, IsTrue};
ghost use Rattle.packstream.specs.Tree.{Tree};
ghost use Rattle.packstream.specs.declared.fault.Reason.{Reason as PackReason};
ghost use Rattle.structures_cells.specs.Prelude.{is_typed, shape, IsWritable};
ghost use Rattle.structures_cells.specs.declared.cell.Cell.{Cell as AnyCell};
ghost use Rattle.structures.specs.Prelude.{HasOneReading, HasOneWriting, IsOfPacking, IsUnpacked, Form, form, typed};
ghost use Rattle.wire.specs.declared.Version.{Version as AnyVersion};

pub mod laying;

/// A value stands for one cell, or has one first fault, and never both.
#[tactic(auto, using(crate::proofs::Clauses::one_reading_is))]
pub fn one_reading()
    ensures { (v : AnyVersion) (t : Tree) → HasOneReading v t }
{}

/// What a cell is seen as is typed: each of its structures is one of the table, with its fields, of their kinds, and none
/// is a legacy DateTime.
#[tactic(auto, using(structures_cells::proofs::Typed::typed_shape))]
pub fn cells_are_typed()
    ensures { (c : AnyCell) → IsTrue (is_typed (shape c)) }
{}

/// A cell has one form, or one first fault, and never both.
#[tactic(auto, using(crate::proofs::Clauses::one_writing_is))]
pub fn one_writing()
    ensures { (v : AnyVersion) (c : AnyCell) → HasOneWriting v (shape c) }
{}

/// What packing a cell's form is refused for is a key that stands twice, or its depth.
pub fn packing_faults()
    ensures { (v : AnyVersion) (s t : Tree) (r : PackReason) (o : ℕ) → Form v s t → IsUnpacked t r o
        → IsOfPacking r }
{}

/// A cell without a fault has a form, which is read back as that cell.
#[tactic(auto, using(crate::proofs::Formed::back_is))]
pub fn written_is_read_back()
    ensures back { (v : AnyVersion) (c : AnyCell) → typed (form v (shape c)) ≡ shape c }
    ensures form { (v : AnyVersion) (c : AnyCell) → IsWritable v (shape c)
        → Form v (shape c) (form v (shape c)) }
{}

/// A cell has at most one form: what a value was read as is written as that value again.
pub fn one_form()
    ensures { (v : AnyVersion) (s t u : Tree) → Form v s t → Form v s u → t ≡ u }
{}

/// A cell that was read can be written at the same version.
pub fn read_can_be_written()
    ensures { (v : AnyVersion) (s t : Tree) → Form v s t → IsWritable v s }
{}
