//! Whether the four metadata tables stand first, with their columns.

ghost use Rattle.std.specs.Prelude.{◌≡◌};
ghost use Rattle.doc_model.specs.MetadataIds.{columns_id, rules_id};
ghost use Rattle.meta_schema.specs.Agreement.{ends_at, has_column, has_columns_table, has_deciding_columns, has_formula_columns, has_further_columns, has_naming_columns, has_resources_table, has_rules_table, has_table_at, has_tables_table};

use crate::type_texts::is_type_text;
use cell_types::Name;
use doc_model::DocTables;

// Whether the column at an index is a data column of that id and type that nothing describes.
fn has_column<D: DocTables>(tables: &D, table: &Name, index: usize, id: &str, ty: &str) -> bool
    ensures { result ≡ has_column (D.document tables.now) table.now index id.now ty.now }
{
    match tables.column(table, index) {
        Some(column) => {
            column.id.as_str() == id
                && is_type_text(ty, &column.info.ty)
                && !column.info.is_formula
                && column.info.formula.len() == 0
                && column.row == 0
        }
        None => false,
    }
}

fn ends_at<D: DocTables>(tables: &D, table: &Name, index: usize) -> bool
    ensures { result ≡ ends_at (D.document tables.now) table.now index }
{
    tables.column(table, index).is_none()
}

/// Whether the table of tables stands first.
#[tactic(auto, unfolding(doc_model::specs::MetadataIds::tables_id))]
pub(crate) fn has_tables_table<D: DocTables>(tables: &D) -> bool
    ensures { result ≡ has_tables_table (D.document tables.now) }
{
    match tables.table(0) {
        Some(table) => {
            table.as_str() == "_grist_Tables"
                && has_column(tables, table, 0, "tableId", "Text")
                && ends_at(tables, table, 1)
        }
        None => false,
    }
}

// Whether the table of columns tells what a column is called, and of what type it is.
fn has_naming_columns<D: DocTables>(tables: &D, table: &Name) -> bool
    requires { table.now ≡ columns_id }
    ensures { result ≡ has_naming_columns (D.document tables.now) }
{
    has_column(tables, table, 0, "parentId", "Ref:_grist_Tables")
        && has_column(tables, table, 1, "colId", "Text")
        && has_column(tables, table, 2, "type", "Text")
}

// Whether it tells what the formula of a column is, and no more.
fn has_formula_columns<D: DocTables>(tables: &D, table: &Name) -> bool
    requires { table.now ≡ columns_id }
    ensures { result ≡ has_formula_columns (D.document tables.now) }
{
    has_column(tables, table, 3, "isFormula", "Bool")
        && has_column(tables, table, 4, "formula", "Text")
        && ends_at(tables, table, 5)
}

/// Whether the table of columns stands second.
#[tactic(auto, unfolding(doc_model::specs::MetadataIds::columns_id))]
pub(crate) fn has_columns_table<D: DocTables>(tables: &D) -> bool
    ensures { result ≡ has_columns_table (D.document tables.now) }
{
    let Some(table) = tables.table(1) else {
        return false;
    };
    if table.as_str() != "_grist_Tables_column" {
        return false;
    }
    has_naming_columns(tables, table) && has_formula_columns(tables, table)
}

/// Whether the table of resources stands third.
#[tactic(auto, unfolding(doc_model::specs::MetadataIds::resources_id))]
pub(crate) fn has_resources_table<D: DocTables>(tables: &D) -> bool
    ensures { result ≡ has_resources_table (D.document tables.now) }
{
    match tables.table(2) {
        Some(table) => {
            table.as_str() == "_grist_ACLResources"
                && has_column(tables, table, 0, "tableId", "Text")
                && has_column(tables, table, 1, "colIds", "Text")
                && ends_at(tables, table, 2)
        }
        None => false,
    }
}

// Whether the table of rules tells what a rule is about, and what it decides.
fn has_deciding_columns<D: DocTables>(tables: &D, table: &Name) -> bool
    requires { table.now ≡ rules_id }
    ensures { result ≡ has_deciding_columns (D.document tables.now) }
{
    has_column(tables, table, 0, "resource", "Ref:_grist_ACLResources")
        && has_column(tables, table, 1, "aclFormula", "Text")
        && has_column(tables, table, 2, "permissionsText", "Text")
}

// Whether it tells the index of a rule and what else there is of it, and no more.
fn has_further_columns<D: DocTables>(tables: &D, table: &Name) -> bool
    requires { table.now ≡ rules_id }
    ensures { result ≡ has_further_columns (D.document tables.now) }
{
    has_column(tables, table, 3, "rulePos", "Int")
        && has_column(tables, table, 4, "userAttributes", "Text")
        && has_column(tables, table, 5, "memo", "Text")
        && ends_at(tables, table, 6)
}

/// Whether the table of rules stands fourth.
#[tactic(auto, unfolding(doc_model::specs::MetadataIds::rules_id))]
pub(crate) fn has_rules_table<D: DocTables>(tables: &D) -> bool
    ensures { result ≡ has_rules_table (D.document tables.now) }
{
    let Some(table) = tables.table(3) else {
        return false;
    };
    if table.as_str() != "_grist_ACLRules" {
        return false;
    }
    has_deciding_columns(tables, table) && has_further_columns(tables, table)
}
