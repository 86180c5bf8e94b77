//! The schema, read from the schema tables.

ghost use Rattle.std.specs.Prelude.{◌≡◌, IfOk};
ghost use Rattle.meta_schema.specs.Decoding.{column_in, column_under, columns_under, schema_of, table_in};
ghost use Rattle.meta_schema.specs.Names.{AreSchemaNames};

use crate::schema_names::{SchemaNames, schema_names};
use crate::told_cells::{holds, name_in, text_in, truth_in, type_in};
use crate::{Schema, SchemaTable};
use cell_types::Name;
use doc_model::{ColDef, ColDefList, ColInfo, DocTables};
use doc_readers::rows_in;
use std::alloc::{AllocError, Global};

// The column that a row of the table of columns says.
fn column_in<D: DocTables>(
    alloc: Global,
    tables: &D,
    names: &SchemaNames,
    row: u32,
) -> Result<Option<ColDef>, AllocError>
    requires { AreSchemaNames names.now }
    ensures { IfOk result (λ o. o ≡ column_in (D.document tables.now) row) }
{
    let Some(id) = name_in(alloc, tables, &names.columns, &names.col_id, row)? else {
        return Ok(None);
    };
    let Some(ty) = type_in(alloc, tables, &names.columns, &names.type_text, row)? else {
        return Ok(None);
    };
    let Some(is_formula) = truth_in(tables, &names.columns, &names.is_formula, row) else {
        return Ok(None);
    };
    let Some(formula) = text_in(tables, &names.columns, &names.formula, row) else {
        return Ok(None);
    };
    let info = ColInfo {
        ty,
        is_formula,
        formula: formula.clone()?,
    };
    Ok(Some(ColDef { id, info, row }))
}

// The same where the column is one of the table of the row `parent`.
fn column_under<D: DocTables>(
    alloc: Global,
    tables: &D,
    names: &SchemaNames,
    parent: u32,
    row: u32,
) -> Result<Option<ColDef>, AllocError>
    requires { AreSchemaNames names.now }
    ensures { IfOk result (λ o. o ≡ column_under (D.document tables.now) parent row) }
{
    if holds(tables, &names.columns, &names.parent_id, row, parent) {
        column_in(alloc, tables, names, row)
    } else {
        Ok(None)
    }
}

// The columns of the table of the row `parent`.
fn columns_under<D: DocTables>(
    alloc: Global,
    tables: &D,
    names: &SchemaNames,
    parent: u32,
) -> Result<ColDefList, AllocError>
    requires { AreSchemaNames names.now }
    ensures { IfOk result (λ columns. columns ≡ columns_under (D.document tables.now) parent) }
{
    let mut columns = ColDefList::new(alloc);
    for row in rows_in(tables, &names.columns) {
        if let Some(column) = column_under(alloc, tables, names, parent, *row)? {
            columns.push(column)?;
        }
    }
    Ok(columns)
}

// The table that a row of the table of tables says.
fn table_in<D: DocTables>(
    alloc: Global,
    tables: &D,
    names: &SchemaNames,
    row: u32,
) -> Result<Option<SchemaTable>, AllocError>
    requires { AreSchemaNames names.now }
    ensures { IfOk result (λ o. o ≡ table_in (D.document tables.now) row) }
{
    let Some(id) = name_in(alloc, tables, &names.tables, &names.table_id, row)? else {
        return Ok(None);
    };
    let columns = columns_under(alloc, tables, names, row)?;
    Ok(Some(SchemaTable { id, row, columns }))
}

// The schema, by the ids of the schema tables.
fn schema_by<D: DocTables>(
    alloc: Global,
    tables: &D,
    names: &SchemaNames,
) -> Result<Schema, AllocError>
    requires { AreSchemaNames names.now }
    ensures { IfOk result (λ schema. schema ≡ schema_of (D.document tables.now)) }
{
    let mut schema = Schema::new(alloc);
    for row in rows_in(tables, &names.tables) {
        if let Some(table) = table_in(alloc, tables, names, *row)? {
            schema.push(table)?;
        }
    }
    Ok(schema)
}

/// The schema that the schema tables of a document say.
///
/// Errors: out of memory.
/// Cost: the product of the tables and of the columns that are described, in cells of the store.
pub fn schema_of<D: DocTables>(alloc: Global, tables: &D) -> Result<Schema, AllocError>
    ensures { IfOk result (λ schema. schema ≡ schema_of (D.document tables.now)) }
{
    schema_by(alloc, tables, &schema_names(alloc)?)
}
