//! What is wrong with a structure or with a cell.

use thiserror::Error;

/// What is wrong with a structure or with a typed cell. The texts are the codes that programs print.
#[derive(Clone, Copy, Debug, PartialEq, Eq, Error)]
pub enum Reason {
    /// S1: no structure has this tag.
    #[error("S1")]
    UnknownTag,
    /// S2: a structure of this tag has another number of fields.
    #[error("S2")]
    FieldCount,
    /// S3: a field holds a value of another kind.
    #[error("S3")]
    FieldKind,
    /// S4: a number is out of its range.
    #[error("S4")]
    Range,
    /// S5: a path has no node, or its indices don't walk from node to node.
    #[error("S5")]
    PathShape,
    /// S6: the structure, or its element ids, belong to another version.
    #[error("S6")]
    NotInVersion,
}
