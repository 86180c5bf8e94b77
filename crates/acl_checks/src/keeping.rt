//! Rows kept before an action.

ghost use Rattle.std.specs.Prelude.{◌≡◌, IfOk, map};
ghost use Rattle.acl_checks.specs.BeforeStep.{kept_row};
ghost use Rattle.acl_checks.specs.Checks.{row_at};
ghost use Rattle.acl_rules.specs.Reading.{narrowed};
ghost use Rattle.acl_checks.specs.Kept.{kept_cells};

use acl_formula::{AttributeRow, NamedCell, NamedCellList};
use cell_types::{CellValue, Name, Sequence, copy_of};
use doc_model::DocReader;
use std::alloc::{AllocError, Global};

/// Rows kept with some of their cells, in order.
pub type KeptRowList = Sequence<AttributeRow>;

fn named_cell(column: &Name, value: &CellValue) -> Result<NamedCell, AllocError>
    ensures { IfOk result (λ c. c ≡ record { column = column.now; value = value.now }) }
{
    let column = column.clone()?;
    match copy_of(value) {
        Ok(value) => Ok(NamedCell { column, value }),
        Err(error) => {
            drop(column);
            Err(error)
        }
    }
}

// The cells of a row in these columns, those that are there.
fn kept_cells<D: DocReader>(
    alloc: Global,
    tables: &D,
    table: &Name,
    row: u32,
    names: &[Name],
) -> Result<NamedCellList, AllocError>
    ensures { IfOk result
        (λ cells. cells ≡ kept_cells (D.document tables.now) table.now row names.now) }
{
    let mut cells = NamedCellList::new(alloc);
    for name in names {
        if let Some(value) = tables.cell(table, name, row) {
            cells.push(named_cell(name, value)?)?;
        }
    }
    Ok(cells)
}

fn kept_row<D: DocReader>(
    alloc: Global,
    tables: &D,
    table: &Name,
    row: u32,
    names: &[Name],
) -> Result<AttributeRow, AllocError>
    ensures { IfOk result (λ k. kept_row k
        ≡ narrowed names.now (row_at (D.document tables.now) table.now row)) }
{
    let cells = kept_cells(alloc, tables, table, row, names)?;
    Ok(AttributeRow { row, cells })
}

/// The rows, each with its cells in these columns.
///
/// Errors: out of memory.
pub(crate) fn kept_rows<D: DocReader>(
    alloc: Global,
    tables: &D,
    table: &Name,
    rows: &[u32],
    names: &[Name],
) -> Result<KeptRowList, AllocError>
    ensures { IfOk result (λ kept. map kept_row kept
        ≡ map (λ r. narrowed names.now (row_at (D.document tables.now) table.now r)) rows.now) }
{
    let mut kept = KeptRowList::new(alloc);
    for row in rows {
        kept.push(kept_row(alloc, tables, table, *row, names)?)?;
    }
    Ok(kept)
}
