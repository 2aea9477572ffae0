//! What an engine may bring: the entry of a transaction under the token `t1`.

use engine::{Commit, Engine, EntryId, FixedTable, Write};
use std::alloc::{AllocError, Global};
use structures::Cell;

/// A table that has the entry, of a connection that no play has.
pub fn brought(alloc: Global) -> Result<FixedTable, AllocError> {
    let mut table = FixedTable::new(alloc);
    let id = EntryId {
        conn: u64::MAX,
        ordinal: 0,
    };
    let token = String::from_str(alloc, "t1")?;
    match table.commit(id, Some(token), writes_of(alloc, 1)?) {
        Ok(Commit::Added(_)) => Ok(table),
        _ => Err(AllocError),
    }
}

/// The one write of the transaction where its value is 1, and of one with another value.
pub fn writes_of(alloc: Global, value: i64) -> Result<Vec<Write>, AllocError> {
    let mut writes = Vec::new(alloc);
    writes.push(Write {
        key: String::from_str(alloc, "a")?,
        value: Cell::Int(value),
    })?;
    Ok(writes)
}
