//! Cells, the table of the structures, and the first fault of a value or of a cell.
#![tactic(auto)]

mod cell;
mod cell_check;
mod clone;
mod comparison;
mod fault;
mod kinds;
mod parts;
mod path;
mod table;
pub mod tags;
mod value_check;
mod wrong;

pub use cell::{Cell, ElementIds, Node, Path, Relationship, UnboundRelationship};
pub use cell_check::{check_cell, check_cells, check_entries};
pub use comparison::same;
pub use fault::Reason;
pub use table::Field;
pub use value_check::check_value;
