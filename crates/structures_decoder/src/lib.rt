//! Cells, read straight from bytes, in one walk and without a value of them.
//!
//! What is promised is promised one way: where a function says yes, the front of the bytes spells the cell's form at the version, which is
//! good and whose structures have no fault, and what is left is what follows it. If it says no, nothing is said of why: the way over a value tells that.
#![tactic(auto)]

mod dictionaries;
mod fault;
mod fields;
mod graphs;
mod moments;
mod plain;
mod scan;
mod scope;
mod whole;

pub use fault::{Decoded, Scanned, Unscanned};
pub use whole::{
    cell_from, dict_from, int_from, list_from, scan_cell, scan_dict, scan_int, scan_list,
    scan_text, text_from,
};
