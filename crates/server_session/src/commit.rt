//! What is open after a summary, and the commit of it.
ghost use Rattle.std.specs.Prelude.{◌≡◌, ◌+◌, ◌<◌, ◌≤◌, ◌++◌, length, Some, None, IfOk, OnOk, OnErr};
ghost use Rattle.engine.specs.Tokens.{Free, found_in};
ghost use Rattle.engine.specs.Views.{token_view, writes_view};
ghost use Rattle.server_session.specs.Session.{no_result, change_alone};
ghost use Rattle.server_session.specs.Rest.{commit_entries};
ghost use Rattle.server_session.specs.Views.{open_of, tx_of};
ghost use Rattle.server_session.specs.Acts.{left_result, left_tx, left_entry, length_after, change_of, IsBelow, IsFree};
ghost use Rattle.engine.specs.Limits.{ledger_bound};

use crate::acts::After;
use crate::result::{OpenResult, Transaction};
use engine::{Commit, Engine, EntryId, NoMemory, Write};
use std::alloc::{AllocError, Global};
use std::mem;

/// Replaces the open result and transaction as `after` says, one that is begun without a token, and commits if it says so. Answers
/// the ledger's new length if an entry was added. The ledger has no entry under its token before. An `Err` changes nothing.
pub(crate) fn leave<E: Engine>(
    alloc: Global,
    left: &mut OpenResult,
    tx: &mut Transaction,
    after: After,
    id: EntryId,
    engine: &mut E,
) -> Result<Option<u64>, AllocError>
    requires { IsFree (E.entries engine.old)
        (left_entry after (open_of left.old) (tx_of tx.old)) }
    ensures open { OnOk result (open_of left.new ≡ left_result after (open_of left.old)) }
    ensures tx { OnOk result (tx_of tx.new ≡ left_tx after None (tx_of tx.old)) }
    ensures ledger { OnOk result
        (E.entries engine.new ≡ E.entries engine.old
        ++ commit_entries id.conn id.ordinal
        (left_entry after (open_of left.old) (tx_of tx.old))) }
    ensures len { IfOk result
        (λ n. n ≡ length_after (E.entries engine.old)
        (left_entry after (open_of left.old) (tx_of tx.old))) }
    ensures below { IfOk result IsBelow }
    ensures open_kept { OnErr result (open_of left.new ≡ open_of left.old) }
    ensures tx_kept { OnErr result (tx_of tx.new ≡ tx_of tx.old) }
    ensures ledger_kept { OnErr result (E.entries engine.new ≡ E.entries engine.old) }
{
    match after {
        After::Nothing => {
            left.close(alloc);
            tx.close(alloc);
            Ok(None)
        }
        After::Begun(mode) => {
            left.close(alloc);
            tx.begin(alloc, mode);
            Ok(None)
        }
        After::Rest(count) => {
            drop_rows(left, count);
            Ok(None)
        }
        After::Transaction => {
            left.close(alloc);
            Ok(None)
        }
        After::CommitsResult => {
            let len = commit_result(alloc, left, id, engine)?;
            tx.close(alloc);
            Ok(Some(len))
        }
        After::CommitsTransaction => {
            let len = commit_writes(alloc, &mut tx.writes, &mut tx.token, id, engine)?;
            left.close(alloc);
            tx.close(alloc);
            Ok(Some(len))
        }
    }
}

/// Drops rows from the front of an open result. The count of written rows begins anew.
fn drop_rows(left: &mut OpenResult, count: usize)
    ensures { open_of left.new ≡ left_result (After.Rest count) (open_of left.old) }
{
    left.rows.drop_front(count);
    left.written = 0;
}

/// Commits the write of an open result, or none, under its token, and closes it.
#[tactic(auto, using(crate::proofs::Writes::one_write))]
fn commit_result<E: Engine>(
    alloc: Global,
    left: &mut OpenResult,
    id: EntryId,
    engine: &mut E,
) -> Result<u64, AllocError>
    requires { IsFree (E.entries engine.old) (Some (change_alone (open_of left.old))) }
    ensures open { OnOk result (open_of left.new ≡ no_result) }
    ensures ledger { OnOk result
        (E.entries engine.new ≡ E.entries engine.old
        ++ commit_entries id.conn id.ordinal (Some (change_alone (open_of left.old)))) }
    ensures len { IfOk result (λ n. n ≡ length (E.entries engine.old) + 1) }
    ensures below { IfOk result (λ n. n < ledger_bound) }
    ensures err { OnErr result
        ((open_of left.new ≡ open_of left.old)
        × (E.entries engine.new ≡ E.entries engine.old)) }
{
    let len = commit_writes(alloc, &mut left.writes, &mut left.token, id, engine)?;
    left.close(alloc);
    Ok(len)
}

/// Commits writes under a token, of which the ledger has nothing. An `Err` leaves both.
fn commit_writes<E: Engine>(
    alloc: Global,
    writes: &mut Vec<Write>,
    token: &mut Option<String>,
    id: EntryId,
    engine: &mut E,
) -> Result<u64, AllocError>
    requires { found_in (token_view token.old) (writes_view writes.old.items)
        (E.entries engine.old) ≡ Free }
    ensures ledger { OnOk result
        (E.entries engine.new ≡ E.entries engine.old
        ++ commit_entries id.conn id.ordinal
        (Some (change_of (writes_view writes.old.items) (token_view token.old)))) }
    ensures len { IfOk result (λ n. n ≡ length (E.entries engine.old) + 1) }
    ensures below { IfOk result (λ n. n < ledger_bound) }
    ensures err { OnErr result
        ((writes_view writes.new.items ≡ writes_view writes.old.items)
        × (token_view token.new ≡ token_view token.old)
        × (E.entries engine.new ≡ E.entries engine.old)) }
    ensures few { length writes.new.items ≤ length writes.old.items }
{
    let taken = mem::replace(writes, Vec::new(alloc));
    match engine.commit(id, token.take(), taken) {
        Ok(Commit::Added(len)) => Ok(len),
        Ok(Commit::Repeat(_) | Commit::Clash) => unreachable!(),
        Err(
            NoMemory {
                token: held,
                writes: returned,
            },
        ) => {
            *token = held;
            *writes = returned;
            Err(AllocError)
        }
    }
}
