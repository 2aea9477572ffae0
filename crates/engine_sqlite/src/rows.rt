//! The statements by which a database keeps a ledger.
ghost use Rattle.std.specs.Prelude.{◌≡◌, true, IsTrue, OnOk};
ghost use Rattle.engine.specs.Views.{token_view};
ghost use Rattle.sqlite.specs.Held.{state};
ghost use Rattle.sqlite.specs.State.{HasCleanDisk, KeepsCommit, Shows, Survives};
ghost use Rattle.sqlite.specs.Values.{bound};
ghost use Rattle.engine_sqlite.specs.Table.{IsPut, ledger_schema, row_of, values_of};

use sqlite::types::{ToSql, ValueRef};
use sqlite::{Alter, Error, Transaction};

/// The text that makes the table of entries: a row for each, with its number from 1, the opening of the database that added it, its connection, its ordinal,
/// its token and its writes.
pub(crate) const TABLE: &str =
    "CREATE TABLE entry (number INTEGER PRIMARY KEY, opening INTEGER NOT NULL, connection INTEGER NOT NULL, ordinal INTEGER NOT NULL, token TEXT UNIQUE, writes BLOB NOT NULL) STRICT";

/// The rows of the table, in the ledger's order.
pub(crate) const ENTRIES: &str =
    "SELECT number, opening, connection, ordinal, token, writes FROM entry ORDER BY number";

/// The last opening that added an entry.
pub(crate) const LAST_OPENING: &str = "SELECT coalesce(max(opening), 0) FROM entry";

const ADD: &str =
    "INSERT INTO entry (number, opening, connection, ordinal, token, writes) VALUES (?1, ?2, ?3, ?4, ?5, ?6)";

/// The numbers in an entry's row.
#[derive(Clone, Copy)]
pub(crate) struct RowKey {
    pub(crate) number: i64,
    pub(crate) opening: i64,
    pub(crate) connection: i64,
    pub(crate) ordinal: i64,
}

#[tactic(auto, using(crate::proofs::Texts::values_are))]
fn values<'a>(key: RowKey, token: &'a Option<String>, bytes: &'a [u8]) -> [ValueRef<'a>; 6]
    ensures { bound result
        ≡ values_of key.number key.opening key.connection key.ordinal (token_view token.now) bytes.now }
{
    let number = key.number.to_sql();
    let opening = key.opening.to_sql();
    let connection = key.connection.to_sql();
    let ordinal = key.ordinal.to_sql();
    let token = token.to_sql();
    let bytes = bytes.to_sql();
    [number, opening, connection, ordinal, token, bytes]
}

/// Puts the row of an entry into the table, within a transaction. Nothing of it reaches the disk.
pub(crate) fn insert<S: Alter>(
    tx: &mut Transaction<'_, S>,
    key: RowKey,
    token: &Option<String>,
    bytes: &[u8],
) -> Result<usize, Error>
    requires { IsTrue tx.old.conn.now.in_transaction }
    ensures same_reference { tx.new.conn.ghost_name ≡ tx.old.conn.ghost_name }
    ensures puts { HasCleanDisk (state S.Store tx.new.conn.now)
        → (state S.Store tx.old.conn.now).now.schema ≡ ledger_schema → OnOk result
        (IsPut (row_of key.number key.opening key.connection key.ordinal (token_view token.now) bytes.now)
        (state S.Store tx.old.conn.now) (state S.Store tx.new.conn.now)) }
    ensures shown { HasCleanDisk (state S.Store tx.new.conn.now) → OnOk result
        (Shows (state S.Store tx.old.conn.now) (state S.Store tx.new.conn.now)
        (state S.Store tx.new.conn.now).now (state S.Store tx.old.conn.now).committed true) }
    ensures kept { HasCleanDisk (state S.Store tx.new.conn.now)
        → KeepsCommit (state S.Store tx.old.conn.now) (state S.Store tx.new.conn.now) }
    ensures survives { Survives (state S.Store tx.old.conn.now) (state S.Store tx.new.conn.now) (λ _. ⊥) }
{
    let values = values(key, token, bytes);
    tx.execute(ADD, &values)
}
