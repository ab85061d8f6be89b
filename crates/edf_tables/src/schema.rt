//! A file's schema is compared with the two tables and their indexes.

ghost use Rattle.std.specs.Prelude.{◌≡◌, ◌↔◌, ◌⊎◌, [], ◌∷◌, Some, None, IfSome, All, drop, IsTrue};
ghost use Rattle.std.specs.Prelude.{false};
ghost use Rattle.edf_tables.specs.Schema.{recording, records, identity_index, start_index};
ghost use Rattle.edf_tables.specs.Schema.{no_schema, one_schema, IsOtherTree, IsOtherIndex};
ghost use Rattle.edf_tables.specs.Schema.{IsOtherView, HasBoth, AreOurs};
ghost use Rattle.sqlite_schema.specs.Names.{same_name};
ghost use Rattle.edf_tables.specs.Schema.{recording_columns, record_columns};
ghost use Rattle.edf_tables.specs.Inside.Parts.{index_of};

use crate::table::{are_columns, is_column, is_one_key, is_plain, is_text};
use sqlite_schema::names;
use sqlite_schema::schema::{Column, Index, Kind, Schema, Table, View};
use sqlite_value::keys::Order;
use sqlite_value::value::Bytes;

fn are_recording_columns(columns: &[Column]) -> bool
    ensures { IsTrue result ↔ (columns.now ≡ recording_columns) }
{
    let [id, identity] = columns else {
        return false;
    };
    is_column(id, b"id", Kind::Integer, false) && is_column(identity, b"identity", Kind::Blob, true)
}

fn are_record_columns(columns: &[Column]) -> bool
    ensures { IsTrue result ↔ (columns.now ≡ record_columns) }
{
    let [recording, start, samples, block] = columns else {
        return false;
    };
    if !is_column(recording, b"recording", Kind::Integer, true) {
        return false;
    }
    if !is_column(start, b"start", Kind::Integer, true) {
        return false;
    }
    is_column(samples, b"samples", Kind::Blob, true) && is_column(block, b"block", Kind::Blob, true)
}

fn is_recording(table: &Table) -> bool
    ensures { IsTrue result ↔ (table.now ≡ recording) }
{
    is_text(&table.name, b"recording")
        && table.tree == 0
        && are_recording_columns(table.columns.as_slice())
        && table.key == Some(0)
        && are_columns(&table.primary, &[0])
        && is_one_key(&table.uniques, &[2])
        && is_plain(table)
}

fn is_record(table: &Table) -> bool
    ensures { IsTrue result ↔ (table.now ≡ records) }
{
    is_text(&table.name, b"record")
        && table.tree == 2
        && are_record_columns(table.columns.as_slice())
        && table.key == None
        && are_columns(&table.primary, &[1, 2])
        && is_one_key(&table.uniques, &[1, 2])
        && is_plain(table)
}

fn is_index(index: &Index, name: &[u8], tree: u32, table: u32, columns: &[usize]) -> bool
    ensures { IsTrue result ↔ (index.now ≡ index_of name.now tree table columns.now) }
{
    is_text(&index.name, name)
        && index.tree == tree
        && index.table == table
        && are_columns(&index.columns, columns)
        && index.order.digits == 0
        && index.is_unique
}

fn is_identity_index(index: &Index) -> bool
    ensures { IsTrue result ↔ (index.now ≡ identity_index) }
{
    is_index(index, b"sqlite_autoindex_recording_1", 1, 0, &[2])
}

fn is_start_index(index: &Index) -> bool
    ensures { IsTrue result ↔ (index.now ≡ start_index) }
{
    is_index(index, b"sqlite_autoindex_record_1", 3, 2, &[1, 2])
}

/// Is true where the tree is none of the four of our tables and their indexes.
fn is_other_tree(tree: u32) -> bool
    ensures { IsTrue result ↔ IsOtherTree tree }
{
    tree >= 4
}

fn is_other_index(index: &Index) -> bool
    ensures { IsTrue result ↔ IsOtherIndex index.now }
{
    is_other_tree(index.tree) && is_other_tree(index.table)
}

/// Is true where an entry that SQLite's port doesn't parse has another table than ours.
fn is_of_others(owner: &Option<Bytes>) -> bool
    ensures { IsTrue result ↔ IfSome owner.now (λ owner.
        (same_name owner recording.name ≡ false) × (same_name owner records.name ≡ false)) }
{
    match owner {
        Some(name) => {
            !names::same_name(name.as_slice(), b"recording")
                && !names::same_name(name.as_slice(), b"record")
        }
        None => true,
    }
}

fn is_other_view(view: &View) -> bool
    ensures { IsTrue result ↔ IsOtherView view.now }
{
    is_other_tree(view.tree) && is_of_others(&view.foreign)
}

fn are_other_views(views: &[View]) -> bool
    ensures { IsTrue result ↔ All IsOtherView views.now }
{
    views.iter().all(|view| is_other_view(view))
}

fn is_empty(schema: &Schema) -> bool
    ensures { IsTrue result ↔ (schema.now ≡ no_schema) }
{
    schema.tables.is_empty() && schema.indexes.is_empty() && schema.views.is_empty()
}

fn has_recording_alone(schema: &Schema) -> bool
    ensures { IsTrue result ↔ (schema.now ≡ one_schema) }
{
    let ([table], [index]) = (schema.tables.as_slice(), schema.indexes.as_slice()) else {
        return false;
    };
    is_recording(table) && is_identity_index(index) && schema.views.is_empty()
}

fn begin_with_both(tables: &[Table]) -> bool
    ensures { IsTrue result ↔ (tables.now ≡ recording ∷ records ∷ drop 2 tables.now)
        × All (λ t. IsOtherTree t.tree) (drop 2 tables.now) }
{
    let [first, second, ..] = tables else {
        return false;
    };
    if !is_recording(first) || !is_record(second) {
        return false;
    }
    let (_, others) = tables.split_at(2);
    others.iter().all(|table| is_other_tree(table.tree))
}

fn begin_with_ours(indexes: &[Index]) -> bool
    ensures { IsTrue result ↔ (indexes.now ≡ identity_index ∷ start_index ∷ drop 2 indexes.now)
        × All IsOtherIndex (drop 2 indexes.now) }
{
    let [identity, start, ..] = indexes else {
        return false;
    };
    if !is_identity_index(identity) || !is_start_index(start) {
        return false;
    }
    let (_, others) = indexes.split_at(2);
    others.iter().all(|index| is_other_index(index))
}

/// Is true where the schema begins with both tables and their indexes, as the CREATE texts make
/// them. Any tables, with indexes and triggers of theirs, and any views may come after them.
pub fn has_both(schema: &Schema) -> bool
    ensures { IsTrue result ↔ HasBoth schema.now }
{
    begin_with_both(schema.tables.as_slice())
        && begin_with_ours(schema.indexes.as_slice())
        && are_other_views(schema.views.as_slice())
}

/// Is true where the schema is empty, has the first table alone, or begins with both.
pub fn is_ours(schema: &Schema) -> bool
    ensures { IsTrue result ↔ AreOurs schema.now }
{
    is_empty(schema) || has_recording_alone(schema) || has_both(schema)
}
