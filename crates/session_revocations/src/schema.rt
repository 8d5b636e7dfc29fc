//! Whether a database has this crate's table and nothing else.
ghost use Rattle.std.specs.Prelude.{◌≡◌, ◌↔◌, [], ◌∷◌, IsTrue};
ghost use Rattle.session_revocations.specs.Table.{column_of, no_schema, revoked, revoked_key, revoked_schema};

use sqlite_schema::schema::{Column, Index, Kind, Schema, Table};
use sqlite_value::keys::{Collation, Order};
use sqlite_value::value::Value;

// The order of an index whose columns ascend.
const PLAIN: u64 = 0;

fn is_null(value: &Value) -> bool
    ensures { IsTrue result ↔ (value.now ≡ Value.Null) }
{
    match value {
        Value::Null => true,
        _ => false,
    }
}

fn is_column(column: &Column, name: &[u8], kind: Kind) -> bool
    ensures { IsTrue result ↔ (column.now ≡ column_of name.now kind) }
{
    column.is_strict
        && column.not_null
        && column.name.as_slice() == name
        && column.kind == kind
        && is_null(&column.default)
        && column.collation == Collation::Binary
}

fn are_columns(columns: &[Column]) -> bool
    ensures { IsTrue result ↔ (columns.now ≡ revoked.columns) }
{
    let [id, until] = columns else {
        return false;
    };
    is_column(id, b"id", Kind::Blob) && is_column(until, b"until", Kind::Integer)
}

// No INTEGER PRIMARY KEY, rule, default or count.
fn is_bare(table: &Table) -> bool
    ensures { IsTrue result ↔ (table.now ≡ record revoked {
      name = table.now.name;
      tree = table.now.tree;
      columns = table.now.columns;
      primary = table.now.primary;
      uniques = table.now.uniques;
      orders = table.now.orders;
    }) }
{
    table.key.is_none()
        && table.checks.roots.is_empty()
        && table.references.is_empty()
        && table.computed.is_empty()
        && table.stamps.places.is_empty()
        && table.stamps.terms.roots.is_empty()
        && table.stamps.formats.is_empty()
        && !table.is_counted
}

fn is_plain(order: &Order) -> bool
    ensures { IsTrue result ↔ (order.now ≡ revoked_key.order) }
{
    order.digits == PLAIN
}

fn are_places(places: &[usize]) -> bool
    ensures { IsTrue result ↔ (places.now ≡ revoked.primary) }
{
    let [first, second] = places else {
        return false;
    };
    *first == 1 && *second == 2
}

fn has_one_unique(table: &Table) -> bool
    ensures { IsTrue result ↔ (table.now.uniques ≡ revoked.uniques) }
{
    let [unique] = table.uniques.as_slice() else {
        return false;
    };
    are_places(unique.as_slice())
}

fn has_one_order(table: &Table) -> bool
    ensures { IsTrue result ↔ (table.now.orders ≡ revoked.orders) }
{
    let [order] = table.orders.as_slice() else {
        return false;
    };
    is_plain(order)
}

fn is_keyed(table: &Table) -> bool
    ensures { IsTrue result ↔ ((table.now.primary ≡ revoked.primary)
        × (table.now.uniques ≡ revoked.uniques)
        × (table.now.orders ≡ revoked.orders)) }
{
    are_places(table.primary.as_slice()) && has_one_unique(table) && has_one_order(table)
}

fn is_placed(table: &Table) -> bool
    ensures { IsTrue result ↔ ((table.now.name ≡ revoked.name)
        × (table.now.tree ≡ 0)
        × (table.now.columns ≡ revoked.columns)) }
{
    table.name.as_slice() == b"revoked".as_slice()
        && table.tree == 0
        && are_columns(table.columns.as_slice())
}

fn is_table(table: &Table) -> bool
    ensures { IsTrue result ↔ (table.now ≡ revoked) }
{
    is_bare(table) && is_placed(table) && is_keyed(table)
}

fn is_key(index: &Index) -> bool
    ensures { IsTrue result ↔ (index.now ≡ revoked_key) }
{
    index.name.as_slice() == b"sqlite_autoindex_revoked_1".as_slice()
        && index.tree == 1
        && index.table == 0
        && are_places(index.columns.as_slice())
        && is_plain(&index.order)
        && index.is_unique
}

fn has_key(schema: &Schema) -> bool
    ensures { IsTrue result ↔ (schema.now.indexes ≡ revoked_key ∷ []) }
{
    let [index] = schema.indexes.as_slice() else {
        return false;
    };
    is_key(index)
}

fn has_table(schema: &Schema) -> bool
    ensures { IsTrue result ↔ (schema.now.tables ≡ revoked ∷ []) }
{
    let [table] = schema.tables.as_slice() else {
        return false;
    };
    is_table(table)
}

// It has the table and nothing else.
pub fn is_ours(schema: &Schema) -> bool
    ensures { IsTrue result ↔ (schema.now ≡ revoked_schema) }
{
    has_table(schema) && has_key(schema) && schema.views.is_empty()
}

// It has nothing.
pub fn is_blank(schema: &Schema) -> bool
    ensures { IsTrue result ↔ (schema.now ≡ no_schema) }
{
    schema.tables.is_empty() && schema.indexes.is_empty() && schema.views.is_empty()
}
