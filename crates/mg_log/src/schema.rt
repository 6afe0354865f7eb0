//! Whether a schema is that of a log, or of an empty database.
ghost use Rattle.std.specs.Prelude.{◌≡◌, [], codes, true, false, IsTrue};
ghost use Rattle.mg_log.specs.Table.{column_named, commits_table, log_schema, no_schema};

use sqlite_schema::code::Terms;
use sqlite_schema::schema::{Column, Kind, Schema, Stamps, Table};
use sqlite_value::keys::Collation;
use sqlite_value::value::Value;

fn is_integer(kind: Kind) -> bool
    ensures { IsTrue result → kind ≡ Kind.Integer }
{
    matches!(kind, Kind::Integer)
}

fn is_text(kind: Kind) -> bool
    ensures { IsTrue result → kind ≡ Kind.Text }
{
    matches!(kind, Kind::Text)
}

/// A strict column with no default, in the BINARY collation.
fn is_plain(column: &Column) -> bool
    ensures { IsTrue result → column.now ≡ column_named column.now.name column.now.kind column.now.not_null }
{
    let has_default = !matches!(&column.default, Value::Null);
    let is_binary = matches!(column.collation, Collation::Binary);
    column.is_strict && !has_default && is_binary
}

fn has_no_terms(terms: &Terms) -> bool
    ensures { IsTrue result → terms.now ≡ [] }
{
    terms.roots.as_slice().is_empty()
}

fn is_number(column: &Column) -> bool
    ensures { IsTrue result → column.now ≡ column_named (codes "number") Kind.Integer false }
{
    is_plain(column)
        && column.name.as_slice() == b"number".as_slice()
        && is_integer(column.kind)
        && !column.not_null
}

fn is_kind(column: &Column) -> bool
    ensures { IsTrue result → column.now ≡ column_named (codes "kind") Kind.Text true }
{
    is_plain(column)
        && column.name.as_slice() == b"kind".as_slice()
        && is_text(column.kind)
        && column.not_null
}

fn is_body(column: &Column) -> bool
    ensures { IsTrue result → column.now ≡ column_named (codes "body") Kind.Text true }
{
    is_plain(column)
        && column.name.as_slice() == b"body".as_slice()
        && is_text(column.kind)
        && column.not_null
}

fn are_columns(columns: &[Column]) -> bool
    ensures { IsTrue result → columns.now ≡ commits_table.columns }
{
    if columns.len() != 3 {
        return false;
    }
    is_number(&columns[0]) && is_kind(&columns[1]) && is_body(&columns[2])
}

fn has_no_stamps(stamps: &Stamps) -> bool
    ensures { IsTrue result → stamps.now ≡ commits_table.stamps }
{
    stamps.places.is_empty() && has_no_terms(&stamps.terms) && stamps.formats.is_empty()
}

/// Only the number is a key, and nothing else is asked of a row.
fn has_no_rules(table: &Table) -> bool
    ensures { IsTrue result → table.now ≡ record commits_table {
      name = table.now.name;
      tree = table.now.tree;
      columns = table.now.columns;
      key = table.now.key;
      primary = table.now.primary;
    } }
{
    table.uniques.is_empty()
        && table.orders.is_empty()
        && has_no_terms(&table.checks)
        && table.references.is_empty()
        && table.computed.is_empty()
        && has_no_stamps(&table.stamps)
        && !table.is_counted
}

fn is_commits(table: &Table) -> bool
    ensures { IsTrue result → table.now ≡ commits_table }
{
    has_no_rules(table)
        && table.name.as_slice() == b"commits".as_slice()
        && table.tree == 0
        && are_columns(table.columns.as_slice())
        && table.key == Some(0)
        && table.primary.as_slice() == [0usize].as_slice()
}

pub(crate) fn is_log(schema: &Schema) -> bool
    ensures { IsTrue result → schema.now ≡ log_schema }
{
    let tables = schema.tables.as_slice();
    if tables.len() != 1 {
        return false;
    }
    is_commits(&tables[0]) && schema.indexes.is_empty() && schema.views.is_empty()
}

pub(crate) fn is_blank(schema: &Schema) -> bool
    ensures { IsTrue result → schema.now ≡ no_schema }
{
    schema.tables.is_empty() && schema.indexes.is_empty() && schema.views.is_empty()
}
