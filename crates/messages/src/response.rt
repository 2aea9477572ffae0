//! What a server answers.

use structures::Cell;

/// A response (Bolt message specification).
#[derive(Debug, Drop)]
pub enum Response {
    /// The metadata in their order.
    Success(Vec<(String, Cell)>),
    /// One row of a result.
    Record(Vec<Cell>),
    Ignored,
    /// An error, by its code and in words.
    Failure { code: String, message: String },
}
