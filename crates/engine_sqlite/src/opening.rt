//! A ledger out of a database.
ghost use Rattle.std.specs.Prelude.{◌≡◌, ◌≢◌, [], false, Err, IfOk, OnOk, OnErr};
ghost use Rattle.engine.specs.Views.{writes_view};
ghost use Rattle.sqlite.specs.Held.{state};
ghost use Rattle.sqlite.specs.Order.{column};
ghost use Rattle.sqlite.specs.State.{HasCleanDisk, QueriesRow, Shown};
ghost use Rattle.engine_sqlite.specs.Shown.{AreShownAs, Brings, HasWrites, IsLeft, IsOpenedFrom, IsReady, Numbers, TakesRow, entries_text, opening_text};
ghost use Rattle.engine_sqlite.specs.Table.{ledger_schema, no_schema};

use crate::codec::{Unread, writes_of};
use crate::fault::OpenFault;
use crate::rows::{ENTRIES, LAST_OPENING, TABLE};
use crate::tables::{has_ledger, has_nothing};
use engine::{Commit, Engine, EntryId, Write};
use sqlite::types::FromSql;
use sqlite::{Alter, Connection, Error, ErrorCode, Row};
use std::alloc::Global;

/// Sees that a database has the table of entries and nothing else. One with nothing in it gets that table; one with other tables is refused.
pub(crate) fn make_ready<S: Alter>(conn: &mut Connection<S>) -> Result<(), OpenFault>
    ensures ready { HasCleanDisk (state S.Store conn.new) → OnOk result (IsReady S.Store conn.old conn.new) }
    ensures clean { HasCleanDisk (state S.Store conn.new) → HasCleanDisk (state S.Store conn.old) }
    ensures other { conn.old.in_transaction ≡ false → conn.old.schema ≢ no_schema → conn.old.schema ≢ ledger_schema
        → result ≡ Err OpenFault.OtherTables }
    ensures kept { conn.old.schema ≢ no_schema → conn.new ≡ conn.old }
{
    if !conn.is_autocommit() {
        return Err(OpenFault::NoLedger(0));
    }
    if has_ledger(conn.schema()) {
        return Ok(());
    }
    if !has_nothing(conn.schema()) {
        return Err(OpenFault::OtherTables);
    }
    conn.execute(TABLE, &[])?;
    Ok(())
}

/// The value in a column of the row with this number, if it has the type of an entry's.
fn value_at<T: FromSql>(row: &Row, at: usize, number: u64) -> Result<T, OpenFault>
    ensures { IfOk result (T.FromSql.reads_as (column row.now at)) }
{
    match row.get(at) {
        Ok(value) => Ok(value),
        Err(Error::SqliteFailure(ErrorCode::OutOfMemory)) => Err(OpenFault::Memory),
        Err(_) => Err(OpenFault::NoLedger(number)),
    }
}

/// The writes in the row with this number.
fn writes_at(alloc: Global, row: &Row, number: u64) -> Result<Vec<Write>, OpenFault>
    ensures { IfOk result (λ writes. HasWrites (writes_view writes.items) row.now) }
{
    let bytes: Vec<u8> = value_at(row, 5, number)?;
    match writes_of(alloc, &bytes) {
        Ok(writes) => Ok(writes),
        Err(Unread::Memory) => Err(OpenFault::Memory),
        Err(Unread::NoWrites) => Err(OpenFault::NoLedger(number)),
    }
}

/// Takes one row of the database into an engine, as its entry of this number.
fn take_row<E: Engine>(
    alloc: Global,
    inner: &mut E,
    number: u64,
    row: &Row,
) -> Result<(), OpenFault>
    ensures { OnOk result (TakesRow number row.now (E.entries inner.old) (E.entries inner.new)) }
{
    let stored: u64 = value_at(row, 0, number)?;
    let conn: u64 = value_at(row, 2, number)?;
    let ordinal: u64 = value_at(row, 3, number)?;
    let token: Option<String> = value_at(row, 4, number)?;
    let writes = writes_at(alloc, row, number)?;
    if stored != number {
        return Err(OpenFault::NoLedger(number));
    }
    match inner.commit(EntryId { conn, ordinal }, token, writes) {
        Ok(Commit::Added(_)) => Ok(()),
        Ok(_) => Err(OpenFault::NoLedger(number)),
        Err(_) => Err(OpenFault::Memory),
    }
}

/// Takes rows in turn into an engine that has no entry.
fn take_each<E: Engine>(alloc: Global, inner: &mut E, rows: &[Row]) -> Result<(), OpenFault>
    requires { E.entries inner.old ≡ [] }
    ensures { OnOk result (AreShownAs 1 (E.entries inner.new) rows.now) }
{
    for at in 0..rows.len() {
        take_row(alloc, inner, at as u64 + 1, &rows[at])?;
    }
    Ok(())
}

/// The rows of the database, in the order of their numbers.
fn read_rows<S: Alter>(conn: &mut Connection<S>) -> Result<Vec<Row>, Error>
    ensures shown { HasCleanDisk (state S.Store conn.new)
        → IfOk result (λ rows. Shown entries_text [] (state S.Store conn.old) (state S.Store conn.new) rows.items) }
    ensures clean { HasCleanDisk (state S.Store conn.new) → HasCleanDisk (state S.Store conn.old) }
    ensures left { (HasCleanDisk (state S.Store conn.new) → conn.old.schema ≡ ledger_schema)
        → IsLeft (state S.Store conn.old) (state S.Store conn.new) }
{
    conn.query_all(ENTRIES, &[])
}

/// Takes all rows of the database into an engine that has no entry.
fn take_rows<E: Engine, S: Alter>(
    alloc: Global,
    inner: &mut E,
    conn: &mut Connection<S>,
) -> Result<(), OpenFault>
    requires { E.entries inner.old ≡ [] }
    ensures brings { HasCleanDisk (state S.Store conn.new) → OnOk result
        (Brings (state S.Store conn.old) (state S.Store conn.new) (E.entries inner.new)) }
    ensures clean { HasCleanDisk (state S.Store conn.new) → HasCleanDisk (state S.Store conn.old) }
    ensures left { (HasCleanDisk (state S.Store conn.new) → conn.old.schema ≡ ledger_schema)
        → IsLeft (state S.Store conn.old) (state S.Store conn.new) }
{
    let rows = read_rows(conn)?;
    take_each(alloc, inner, &rows)
}

/// The row that tells the last opening that added an entry.
fn read_opening<S: Alter>(conn: &mut Connection<S>) -> Result<Row, Error>
    ensures shown { HasCleanDisk (state S.Store conn.new)
        → QueriesRow opening_text [] (state S.Store conn.old) (state S.Store conn.new) result }
    ensures clean { HasCleanDisk (state S.Store conn.new) → HasCleanDisk (state S.Store conn.old) }
    ensures left { (HasCleanDisk (state S.Store conn.new) → conn.old.schema ≡ ledger_schema)
        → IsLeft (state S.Store conn.old) (state S.Store conn.new) }
{
    conn.query_row(LAST_OPENING, &[])
}

/// The number of this opening: one more than the last that added an entry.
fn next_opening<S: Alter>(conn: &mut Connection<S>) -> Result<i64, OpenFault>
    ensures numbers { HasCleanDisk (state S.Store conn.new)
        → IfOk result (Numbers (state S.Store conn.old) (state S.Store conn.new)) }
    ensures clean { HasCleanDisk (state S.Store conn.new) → HasCleanDisk (state S.Store conn.old) }
    ensures left { (HasCleanDisk (state S.Store conn.new) → conn.old.schema ≡ ledger_schema)
        → IsLeft (state S.Store conn.old) (state S.Store conn.new) }
{
    let row = read_opening(conn)?;
    let last: i64 = value_at(&row, 0, 0)?;
    match last.checked_add(1) {
        Some(opening) => Ok(opening),
        None => Err(OpenFault::NoLedger(0)),
    }
}

/// Takes the ledger of a database into an engine that has no entry, and numbers the opening.
pub(crate) fn take_ledger<E: Engine, S: Alter>(
    alloc: Global,
    inner: &mut E,
    conn: &mut Connection<S>,
) -> Result<i64, OpenFault>
    requires { E.entries inner.old ≡ [] }
    ensures opened { HasCleanDisk (state S.Store conn.new) → IfOk result
        (IsOpenedFrom S.Store conn.old conn.new (E.entries inner.new)) }
    ensures idle { OnOk result (conn.new.in_transaction ≡ false) }
    ensures other { conn.old.in_transaction ≡ false → conn.old.schema ≢ no_schema → conn.old.schema ≢ ledger_schema
        → (result ≡ Err OpenFault.OtherTables) × (conn.new ≡ conn.old) }
    ensures refused { conn.old.schema ≢ no_schema → OnErr result (IsLeft (state S.Store conn.old) (state S.Store conn.new)) }
{
    make_ready(conn)?;
    take_rows(alloc, inner, conn)?;
    let opening = next_opening(conn)?;
    if !conn.is_autocommit() {
        return Err(OpenFault::NoLedger(0));
    }
    Ok(opening)
}
