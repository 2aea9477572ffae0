//! Which tables a database has.
ghost use Rattle.std.specs.Prelude.{◌≡◌, [], ◌∷◌, IfSome, IsTrue};
ghost use Rattle.engine_sqlite.specs.Table.{column_of, entry_table, ledger_schema, no_schema, token_index, HasHead, HasKeys, HasNoRules};
ghost use Rattle.sqlite_value.specs.Keys.{plain};

use sqlite_items::Items;
use sqlite_schema::schema::{Column, Index, Kind, Schema, Table};
use sqlite_value::keys::{Collation, Order};
use sqlite_value::value::Value;

/// Whether the database has nothing in it.
#[tactic(auto, using(crate::proofs::Schemas::nothing_is))]
pub(crate) fn has_nothing(schema: &Schema) -> bool
    ensures { IsTrue result → schema.now ≡ no_schema }
{
    schema.tables.is_empty() && schema.indexes.is_empty() && schema.views.is_empty()
}

/// Whether the database has the table of entries and nothing else.
#[tactic(auto, using(crate::proofs::Schemas::ledger_is))]
pub(crate) fn has_ledger(schema: &Schema) -> bool
    ensures { IsTrue result → schema.now ≡ ledger_schema }
{
    let [table] = schema.tables.as_slice() else {
        return false;
    };
    let [index] = schema.indexes.as_slice() else {
        return false;
    };
    is_entry_table(table) && is_token_index(index) && schema.views.is_empty()
}

#[tactic(auto, using(crate::proofs::Schemas::table_is))]
fn is_entry_table(table: &Table) -> bool
    ensures { IsTrue result → table.now ≡ entry_table }
{
    has_head(table)
        && has_columns(table.columns.as_slice())
        && has_keys(table)
        && has_no_rules(table)
}

fn has_head(table: &Table) -> bool
    ensures { IsTrue result → HasHead table.now }
{
    let key = table.key == Some(0);
    table.name.as_slice() == b"entry".as_slice() && table.tree == 0 && key && !table.is_counted
}

fn has_columns(columns: &[Column]) -> bool
    ensures { IsTrue result → columns.now ≡ entry_table.columns }
{
    let Some(columns) = behind(columns, b"number", Kind::Integer, false) else {
        return false;
    };
    let Some(columns) = behind(columns, b"opening", Kind::Integer, true) else {
        return false;
    };
    let Some(columns) = behind(columns, b"connection", Kind::Integer, true) else {
        return false;
    };
    let Some(columns) = behind(columns, b"ordinal", Kind::Integer, true) else {
        return false;
    };
    let Some(columns) = behind(columns, b"token", Kind::Text, false) else {
        return false;
    };
    let Some(columns) = behind(columns, b"writes", Kind::Blob, true) else {
        return false;
    };
    columns.is_empty()
}

/// The columns behind the first, if that is the one of this name.
fn behind<'a>(
    columns: &'a [Column],
    name: &[u8],
    kind: Kind,
    not_null: bool,
) -> Option<&'a [Column]>
    ensures { IfSome result (λ rest. columns.now ≡ column_of name.now kind not_null ∷ rest.now) }
{
    let (first, rest) = columns.split_first()?;
    if !is_column(first, name, kind, not_null) {
        return None;
    }
    Some(rest)
}

#[tactic(auto, using(crate::proofs::Schemas::column_is))]
fn is_column(column: &Column, name: &[u8], kind: Kind, not_null: bool) -> bool
    ensures { IsTrue result → column.now ≡ column_of name.now kind not_null }
{
    let is_binary = matches!(column.collation, Collation::Binary);
    let is_null = matches!(column.default, Value::Null);
    let is_kind = column.kind == kind;
    let is_as_strict = column.not_null == not_null;
    column.name.as_slice() == name
        && is_kind
        && column.is_strict
        && is_as_strict
        && is_null
        && is_binary
}

fn has_keys(table: &Table) -> bool
    ensures { IsTrue result → HasKeys table.now }
{
    is_key(table.primary.as_slice(), 0)
        && is_token_key(table.uniques.as_slice())
        && is_plain(table.orders.as_slice())
}

fn is_key(places: &[usize], place: usize) -> bool
    ensures { IsTrue result → places.now ≡ place ∷ [] }
{
    let [only] = places else {
        return false;
    };
    *only == place
}

fn is_token_key(uniques: &[Items<usize>]) -> bool
    ensures { IsTrue result → uniques.now ≡ (5 ∷ []) ∷ [] }
{
    let [unique] = uniques else {
        return false;
    };
    is_key(unique.as_slice(), 5)
}

#[tactic(auto, using(crate::proofs::Schemas::order_is))]
fn is_plain(orders: &[Order]) -> bool
    ensures { IsTrue result → orders.now ≡ plain ∷ [] }
{
    let [order] = orders else {
        return false;
    };
    order.digits == Order::PLAIN.digits
}

fn has_no_rules(table: &Table) -> bool
    ensures { IsTrue result → HasNoRules table.now }
{
    table.checks.roots.is_empty()
        && table.references.is_empty()
        && table.computed.is_empty()
        && table.stamps.places.is_empty()
        && table.stamps.terms.roots.is_empty()
        && table.stamps.formats.is_empty()
}

#[tactic(auto, using(crate::proofs::Schemas::index_is))]
fn is_token_index(index: &Index) -> bool
    ensures { IsTrue result → index.now ≡ token_index }
{
    index.name.as_slice() == b"sqlite_autoindex_entry_1".as_slice()
        && index.tree == 1
        && index.table == 0
        && index.columns.as_slice() == [5].as_slice()
        && index.order.digits == Order::PLAIN.digits
        && index.is_unique
}
