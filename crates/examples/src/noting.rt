//! An engine of one's own, as small as one can be: asks it for a note, commits that under a token, twice, and then another note under
//! the same token, and says what each commit did.

use crate::notes::Notes;
use engine::{Answer, Commit, Engine, EntryId, Mode, Write};
use std::alloc::{AllocError, Global};
use std::io;
use structures::Cell;

/// The writes of a transaction that asked for this one, or for none.
fn writes_of(alloc: Global, write: Option<Write>) -> Result<Vec<Write>, AllocError> {
    let mut writes = Vec::new(alloc);
    if let Some(write) = write {
        writes.push(write)?;
    }
    Ok(writes)
}

/// Asks an engine for the note of a value, and commits what it would write, as this request of a connection, under a token.
fn note<E: Engine>(
    alloc: Global,
    engine: &mut E,
    ordinal: u64,
    value: i64,
) -> Result<Commit, AllocError> {
    let params = vec![in alloc; (String::from_str(alloc, "a")?, Cell::Int(value))]?;
    let id = EntryId { conn: 0, ordinal };
    let token = Some(String::from_str(alloc, "t1")?);
    let Ok(Answer { write, .. }) = engine.run(&[], "NOTE", &params, Mode::Write) else {
        return Err(AllocError);
    };
    let writes = writes_of(alloc, write)?;
    let told = engine.commit(id, token, writes);
    match told {
        Ok(told) => Ok(told),
        Err(_) => Err(AllocError),
    }
}

/// Commits the notes, and prints what each commit did.
pub(crate) fn note_all(rt: &HostRuntime) -> io::Result<()> {
    let mut notes = Notes::new(rt.alloc());
    for (ordinal, value) in [(0, 1), (1, 1), (2, 2)] {
        let told = note(rt.alloc(), &mut notes, ordinal, value)?;
        println!(rt; "{told:?}")?;
    }
    println!(rt; "entries: {}", notes.ledger().len())
}
