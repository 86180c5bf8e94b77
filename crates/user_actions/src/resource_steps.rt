//! The steps by which the resources of rules say what is renamed by its new id.

ghost use Rattle.std.specs.Prelude.{◌≡◌, ◌++◌, codes, IfOk};
ghost use Rattle.doc_model.specs.Column.{column_id};
ghost use Rattle.doc_model.specs.DocumentLaws.{IsWhole};
ghost use Rattle.doc_model.specs.Grid.{cell};
ghost use Rattle.doc_model.specs.MetadataIds.{resources_id};
ghost use Rattle.doc_readers.specs.Parts.{grid_at};
ghost use Rattle.renamed_resources.specs.Renamed.{names_table};
ghost use Rattle.user_actions.specs.ResourceSteps.{columns_moved, rows_about, tables_moved};

use crate::cell_updates::add_update;
use cell_types::{CellValue, Name};
use doc_model::{DocTables, StepList};
use doc_readers::rows_in;
use renamed_resources::{columns_renamed, names_table, table_renamed};
use std::alloc::{AllocError, Global};

// The id of the table of resources. It stands third.
fn resources_table<D: DocTables>(tables: &D) -> &Name
    requires { IsWhole (D.document tables.now) }
    ensures { result.now ≡ resources_id }
{
    let Some(id) = tables.table(2) else {
        unreachable!()
    };
    id
}

// The id of its column that names a table. It stands first.
fn table_column<D: DocTables>(tables: &D) -> &Name
    requires { IsWhole (D.document tables.now) }
    ensures { result.now ≡ codes "tableId" }
{
    let Some(column) = tables.column(resources_table(tables), 0) else {
        unreachable!()
    };
    &column.id
}

// The id of its column that lists columns. It stands second.
fn list_column<D: DocTables>(tables: &D) -> &Name
    requires { IsWhole (D.document tables.now) }
    ensures { result.now ≡ codes "colIds" }
{
    let Some(column) = tables.column(resources_table(tables), 1) else {
        unreachable!()
    };
    &column.id
}

// Whether the resource in a row is about the table.
#[tactic(auto, using(doc_readers::proofs::CellLemmas::cell_told))]
fn is_about<D: DocTables>(tables: &D, table: &Name, row: u32) -> bool
    requires { IsWhole (D.document tables.now) }
    ensures { result ≡ names_table table.now
        (cell column_id (grid_at (D.document tables.now) resources_id) (codes "tableId") row) }
{
    match tables.cell(resources_table(tables), table_column(tables), row) {
        Some(cell) => names_table(table, cell),
        None => false,
    }
}

// The rows of resources that are about the table.
fn rows_about<D: DocTables>(alloc: Global, tables: &D, table: &Name) -> Result<Vec<u32>, AllocError>
    requires { IsWhole (D.document tables.now) }
    ensures { IfOk result
        (λ v. v.items ≡ rows_about (grid_at (D.document tables.now) resources_id) table.now) }
{
    let rows = rows_in(tables, resources_table(tables));
    let mut found = Vec::new(alloc);
    for row in rows {
        if is_about(tables, table, *row) {
            found.push(*row)?;
        }
    }
    Ok(found)
}

/// Adds the update by which resources name a table by its new id, where any names it.
///
/// Errors: out of memory. Cost: the resources.
pub(crate) fn add_tables_moved<D: DocTables>(
    alloc: Global,
    tables: &D,
    old: &Name,
    new: &Name,
    steps: &mut StepList,
) -> Result<(), AllocError>
    requires { IsWhole (D.document tables.now) }
    ensures { IfOk result
        (λ _. steps.new ≡ steps.old ++ tables_moved (D.document tables.now) old.now new.now) }
{
    let table = resources_table(tables);
    let column = table_column(tables);
    let rows = rows_in(tables, table);
    let moved = |cell: &CellValue| table_renamed(old, new, cell);
    add_update(alloc, tables, table, column, rows, moved, steps)
}

/// Adds the update by which resources of a table list a column by its new id, where any lists it.
///
/// Errors: out of memory. Cost: the resources, and the texts of those of the table.
pub(crate) fn add_columns_moved<D: DocTables>(
    alloc: Global,
    tables: &D,
    table: &Name,
    old: &Name,
    new: &Name,
    steps: &mut StepList,
) -> Result<(), AllocError>
    requires { IsWhole (D.document tables.now) }
    ensures { IfOk result
        (λ _. steps.new
        ≡ steps.old ++ columns_moved (D.document tables.now) table.now old.now new.now) }
{
    let rows = rows_about(alloc, tables, table)?;
    let resources = resources_table(tables);
    let column = list_column(tables);
    let moved = |cell: &CellValue| columns_renamed(alloc, old, new, cell);
    add_update(alloc, tables, resources, column, &rows, moved, steps)
}
