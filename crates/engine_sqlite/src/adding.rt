//! One entry more, in the memory of an engine and in a database.
ghost use Rattle.std.specs.Prelude.{◌≡◌, ◌+◌, ◌<◌, ◌++◌, [], ◌∷◌, pos, false, length, if◌then◌else◌, IfOk, IfErr, IfSome, OnOk, OnErr};
ghost use Rattle.engine.specs.Limits.{ledger_bound};
ghost use Rattle.engine.specs.Tokens.{Free, found_in};
ghost use Rattle.engine.specs.Views.{entry_of, token_view, writes_view};
ghost use Rattle.engine_sqlite.specs.Ledger.{HasLedger, HoldsLedger, Lasts, LeavesEither};
ghost use Rattle.engine_sqlite.specs.Spelled.{SpellsWrites};
ghost use Rattle.sqlite.specs.Held.{state};
ghost use Rattle.sqlite.specs.State.{Survives};

use crate::rows::{RowKey, insert};
use engine::{Commit, Engine, EntryId, NoMemory, Write};
use sqlite::{Alter, Connection};
use std::alloc::{AllocError, Global};

/// An entry that was not told to be added, with its token and its writes.
#[derive(Drop)]
pub(crate) struct Unadded {
    /// Whether the engine has the entry nevertheless: the database failed last, as it was to commit, and may have it.
    pub(crate) is_ahead: bool,
    pub(crate) refused: NoMemory,
}

/// The numbers of the row of an entry behind so many, if a row can have them.
pub(crate) fn row_key(len: usize, opening: i64, id: EntryId) -> Option<RowKey>
    ensures number { IfSome result (λ key. key.number ≡ pos (len + 1)) }
    ensures opening { IfSome result (λ key. key.opening ≡ opening) }
    ensures id { IfSome result (λ key. (key.connection ≡ pos id.conn) × (key.ordinal ≡ pos id.ordinal)) }
{
    let last = i64::try_from(len).ok()?;
    let number = last.checked_add(1)?;
    let connection = i64::try_from(id.conn).ok()?;
    let ordinal = i64::try_from(id.ordinal).ok()?;
    Some(RowKey {
        number,
        opening,
        connection,
        ordinal,
    })
}

#[tactic(auto, using(crate::proofs::Front::view_copies))]
fn copies(alloc: Global, writes: &[Write]) -> Result<Vec<Write>, AllocError>
    ensures { IfOk result (λ copies. writes_view copies.items ≡ writes_view writes.now) }
{
    let copies = writes.to_vec(alloc)?;
    Ok(copies)
}

/// Adds an entry to the ledger of an engine and its row to that of a database: to both, or to none. The row is put first, which the disk doesn't see, then the
/// memory, and the database commits last: so nothing is told before it is on the disk, and a want of memory is met while both can still be left as they were.
pub(crate) fn add_to_both<E: Engine, S: Alter>(
    alloc: Global,
    inner: &mut E,
    conn: &mut Connection<S>,
    key: RowKey,
    id: EntryId,
    token: Option<String>,
    writes: Vec<Write>,
    bytes: &[u8],
) -> Result<u64, Unadded>
    requires idle { conn.old.in_transaction ≡ false }
    requires free { found_in (token_view token) (writes_view writes.items) (E.entries inner.old) ≡ Free }
    requires number { key.number ≡ pos (length (E.entries inner.old) + 1) }
    requires id { (key.connection ≡ pos id.conn) × (key.ordinal ≡ pos id.ordinal) }
    requires spelled { SpellsWrites (writes_view writes.items) bytes.now }
    ensures idle { conn.new.in_transaction ≡ false }
    ensures added { IfOk result (λ n. (n ≡ length (E.entries inner.old) + 1) × (n < ledger_bound)) }
    ensures adds { OnOk result (E.entries inner.new ≡ E.entries inner.old ++ entry_of id token writes ∷ []) }
    ensures refused { IfErr result (λ e. E.entries inner.new
        ≡ E.entries inner.old ++ (if e.is_ahead then entry_of id token writes ∷ [] else [])) }
    ensures token { IfErr result (λ e. token_view e.refused.token ≡ token_view token) }
    ensures writes { IfErr result (λ e. writes_view e.refused.writes.items ≡ writes_view writes.items) }
    // Of a database that has the engine's ledger: what is told to be added lasts, ..
    ensures lasts { Lasts (state S.Store conn.old) (E.entries inner.old)
        → OnOk result (Lasts (state S.Store conn.new) (E.entries inner.new)) }
    // .. what isn't, it lacks, unless it is shut; and a crash leaves what it had, or what the engine has, ..
    ensures lacks { Lasts (state S.Store conn.old) (E.entries inner.old)
        → OnErr result (HasLedger (state S.Store conn.new) (E.entries inner.old)) }
    ensures either { Lasts (state S.Store conn.old) (E.entries inner.old)
        → OnErr result (LeavesEither (state S.Store conn.new) (E.entries inner.old) (E.entries inner.new)) }
    // .. and a crash inside of the call leaves what one before it did, or the ledger with the entry at its end.
    ensures survives { Lasts (state S.Store conn.old) (E.entries inner.old)
        → Survives (state S.Store conn.old) (state S.Store conn.new)
        (λ trees. HoldsLedger trees (E.entries inner.old ++ entry_of id token writes ∷ [])) }
{
    let Ok(token_back) = token.clone() else {
        return Err(Unadded {
            is_ahead: false,
            refused: NoMemory { token, writes },
        });
    };
    let Ok(writes_back) = copies(alloc, &writes) else {
        return Err(Unadded {
            is_ahead: false,
            refused: NoMemory { token, writes },
        });
    };
    let _idle = conn.is_autocommit();
    let mut tx = conn.transaction();
    let Ok(_count) = insert(&mut tx, key, &token, bytes) else {
        return Err(Unadded {
            is_ahead: false,
            refused: NoMemory { token, writes },
        });
    };
    match inner.commit(id, token, writes) {
        Ok(Commit::Added(len)) => match tx.commit() {
            Ok(()) => Ok(len),
            Err(_) => Err(Unadded {
                is_ahead: true,
                refused: NoMemory {
                    token: token_back,
                    writes: writes_back,
                },
            }),
        },
        Ok(Commit::Repeat(_) | Commit::Clash) => unreachable!(),
        Err(refused) => Err(Unadded {
            is_ahead: false,
            refused,
        }),
    }
}
