//! Typed cells: nodes, relationships, paths, times and points in the forms of each version.
//!
//! What holds of all values and cells stands in [`laws`]. Who reads and writes relies on `one_form`, `written_is_read_back` and `read_can_be_written`.
#![tactic(auto)]

mod codec;
mod fault;
mod fields;
mod form;
pub mod laws;
mod plain;
mod reader;
mod scope;
mod writer;

pub use codec::{read, read_value, write, write_entries, write_members};
pub use fault::CellFault;
pub use form::fit;
pub use structures_cells::{
    Cell, ElementIds, Node, Path, Reason, Relationship, UnboundRelationship, same,
};
pub use wire::Version;
