//! The tables of a new document.

ghost use Rattle.std.specs.Prelude.{◌≡◌, ◌<◌, IfOk};
ghost use Rattle.doc_model.specs.NewDocument.{new_document};
ghost use Rattle.column_store.specs.New.{bare, bare_tables, columns_in};

use crate::copies::{copy_of_column, copy_of_name};
use crate::schema::{schema_tables, swap_schema, without_rows};
use crate::table::ColumnTable;
use cell_types::Name;
use doc_model::{ColDef, DocReader};
use row_tables::RowTables;
use std::alloc::{AllocError, Global};

// The columns of a table, none where it is not there.
fn columns_of(alloc: Global, like: &RowTables, table: &Name) -> Result<Vec<ColDef>, AllocError>
    ensures { IfOk result (λ v. v.items ≡ columns_in like.now table.now) }
{
    let mut columns = Vec::new(alloc);
    while let Some(column) = like.column(table, columns.len()) {
        columns.push(copy_of_column(column)?)?;
    }
    Ok(columns)
}

// The table at an index of the new document, without rows.
fn bare(alloc: Global, like: &RowTables, index: usize, row: u32) -> Result<ColumnTable, AllocError>
    requires new { like.now ≡ new_document }
    requires few { index < 5 }
    ensures { IfOk result (λ t. t ≡ bare index row) }
{
    let Some(id) = like.table(index) else {
        unreachable!()
    };
    let columns = columns_of(alloc, like, id)?;
    Ok(without_rows(alloc, copy_of_name(id)?, row, columns)?)
}

// All of them.
fn bare_tables(alloc: Global, like: &RowTables) -> Result<Vec<ColumnTable>, AllocError>
    requires { like.now ≡ new_document }
    ensures { IfOk result (λ v. v.items ≡ bare_tables) }
{
    let mut tables = Vec::with_capacity(alloc, 5)?;
    tables.push(bare(alloc, like, 0, 0)?)?;
    tables.push(bare(alloc, like, 1, 0)?)?;
    tables.push(bare(alloc, like, 2, 0)?)?;
    tables.push(bare(alloc, like, 3, 0)?)?;
    tables.push(bare(alloc, like, 4, 1)?)?;
    Ok(tables)
}

/// The tables of a new document, which are taken from the store by rows: it says what they are.
pub(crate) fn new_tables(alloc: Global) -> Result<Vec<ColumnTable>, AllocError>
    ensures { IfOk result (λ v. v.items ≡ new_document) }
{
    let like = RowTables::new_document(alloc)?;
    let mut tables = bare_tables(alloc, &like)?;
    let schema = schema_tables(&tables)?;
    let _without_rows = swap_schema(&mut tables, schema);
    Ok(tables)
}
