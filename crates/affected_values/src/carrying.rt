//! Values carried over an action on no records.

ghost use Rattle.std.specs.Prelude.{◌≡◌, IfOk, OnOk};
ghost use Rattle.doc_model.specs.Document.{Document};
ghost use Rattle.doc_model.specs.DocumentLaws.{IsWhole};
ghost use Rattle.recalc.specs.Kept.{IsKeptOf, column_part, table_part};
ghost use Rattle.affected_values.specs.Altered.{IsAlteredFrom, IsCarried};
ghost use Rattle.affected_values.specs.Copied.{copied_column, copied_table};

use cell_types::{CellValue, Name, copy_of};
use doc_model::{DocAction, DocTables};
use recalc::{KeptColumn, KeptTable, blank_tables, column_at};
use std::alloc::{AllocError, Global};

fn copy_known(value: &Option<CellValue>) -> Result<Option<CellValue>, AllocError>
    ensures { IfOk result (λ v. v ≡ value.now) }
{
    match value {
        Some(known) => Ok(Some(copy_of(known)?)),
        None => Ok(None),
    }
}

fn copy_values(
    alloc: Global,
    values: &[Option<CellValue>],
) -> Result<Vec<Option<CellValue>>, AllocError>
    ensures { IfOk result (λ v. v.items ≡ values.now) }
{
    let mut copies = Vec::with_capacity(alloc, values.len())?;
    for value in values {
        copies.push(copy_known(value)?)?;
    }
    Ok(copies)
}

// Copies the values of the column of the same ids, where it has as many places. A data column has
// none.
fn carry_column(
    alloc: Global,
    old: &[KeptTable],
    table: &Name,
    column: &mut KeptColumn,
) -> Result<(), AllocError>
    ensures { OnOk result (column_part column.new
        ≡ copied_column old.now table.now (column_part column.old)) }
{
    if let Some(before) = column_at(old, table, &column.id) {
        if before.values.len() == column.values.len() {
            column.values = copy_values(alloc, &before.values)?;
        }
    }
    Ok(())
}

// The same of all columns of a table.
fn carry_table(alloc: Global, old: &[KeptTable], table: &mut KeptTable) -> Result<(), AllocError>
    ensures { OnOk result (table_part table.new ≡ copied_table old.now (table_part table.old)) }
{
    let mut index = 0;
    'carrying: while index < table.columns.len() {
        carry_column(alloc, old, &table.id, &mut table.columns[index])?;
        index += 1;
    }
    Ok(())
}

/// What is kept of a document after an action on no records: of each formula column that it had
/// before and has still the values beside its rows, copied; of any other nothing is known. The
/// values of a column that the action modifies are not right then.
///
/// Errors: out of memory. Memory: a place for each formula cell, the copies, and the formulas.
/// Cost: linear in the formula cells; for each column a search among tables and columns.
pub fn carry_values<D: DocTables>(
    alloc: Global,
    tables: &D,
    old: &[KeptTable],
    action: &DocAction,
) -> Result<Vec<KeptTable>, AllocError>
    requires whole { IsWhole (D.document tables.now) }
    requires altered { (s : Document) × IsAlteredFrom s (D.document tables.now) action.now
        × IsKeptOf s old.now }
    ensures { IfOk result (λ v. (s : Document)
        → IsAlteredFrom s (D.document tables.now) action.now → IsKeptOf s old.now
        → IsCarried s (D.document tables.now) action.now old.now v.items) }
{
    let _action = action;
    let mut kept = blank_tables(alloc, tables)?;
    let mut index = 0;
    'carrying: while index < kept.len() {
        carry_table(alloc, old, &mut kept[index])?;
        index += 1;
    }
    Ok(kept)
}
