//! The parts of a table are compared with what our CREATE texts make.

ghost use Rattle.std.specs.Prelude.{◌≡◌, ◌↔◌, [], ◌∷◌, IsTrue};
ghost use Rattle.sqlite_value.specs.declared.value.Value.TheVariants.{Null};
ghost use Rattle.sqlite_value.specs.declared.keys.Collation.TheVariants.{Binary};
ghost use Rattle.sqlite_value.specs.Keys.{plain};
ghost use Rattle.edf_tables.specs.Schema.{strict_column};
ghost use Rattle.edf_tables.specs.Inside.Parts.{IsPlainTable};

use sqlite_items::Items;
use sqlite_schema::schema::{Column, Kind, Stamps, Table};
use sqlite_value::keys::{Collation, Order};
use sqlite_value::value::{Bytes, Value};

pub(crate) fn is_text(bytes: &Bytes, text: &[u8]) -> bool
    ensures { IsTrue result ↔ (bytes.now ≡ text.now) }
{
    bytes.as_slice() == text
}

/// Is true where these are the numbers of the columns; the rowid is column 0.
pub(crate) fn are_columns(columns: &Items<usize>, these: &[usize]) -> bool
    ensures { IsTrue result ↔ (columns.now ≡ these.now) }
{
    columns.as_slice() == these
}

pub(crate) fn is_one_key(keys: &Items<Items<usize>>, these: &[usize]) -> bool
    ensures { IsTrue result ↔ (keys.now ≡ these.now ∷ []) }
{
    let [key] = keys.as_slice() else {
        return false;
    };
    are_columns(key, these)
}

pub(crate) fn is_plain_order(orders: &Items<Order>) -> bool
    ensures { IsTrue result ↔ (orders.now ≡ plain ∷ []) }
{
    let [order] = orders.as_slice() else {
        return false;
    };
    order.digits == 0
}

fn is_null(value: &Value) -> bool
    ensures { IsTrue result ↔ (value.now ≡ Null) }
{
    match value {
        Value::Null => true,
        Value::Int(_) | Value::Real(_) | Value::Text(_) | Value::Blob(_) => false,
    }
}

pub(crate) fn is_column(column: &Column, name: &[u8], kind: Kind, not_null: bool) -> bool
    ensures { IsTrue result ↔ (column.now ≡ strict_column name.now kind not_null) }
{
    is_text(&column.name, name)
        && column.kind == kind
        && column.is_strict
        && column.not_null == not_null
        && is_null(&column.default)
        && column.collation == Collation::Binary
}

fn has_no_stamps(stamps: &Stamps) -> bool
    ensures { IsTrue result ↔ (stamps.now ≡ record { places = []; terms = []; formats = [] }) }
{
    stamps.places.is_empty() && stamps.terms.roots.is_empty() && stamps.formats.is_empty()
}

pub(crate) fn is_plain(table: &Table) -> bool
    ensures { IsTrue result ↔ IsPlainTable table.now }
{
    is_plain_order(&table.orders)
        && table.checks.roots.is_empty()
        && table.references.is_empty()
        && table.computed.is_empty()
        && has_no_stamps(&table.stamps)
        && !table.is_counted
}
