//! The cells of one table that steps tell of, by row.

ghost use Rattle.std.specs.Prelude.{◌≡◌, ◌++◌, ◌∷◌, [], ℕ, cond, map, nat_eq, IfOk, OnOk};
ghost use Rattle.action_censor.specs.Step.{step_of};
ghost use Rattle.action_censor.specs.ToldCells.{cells_at, told_cell, told_in_row, told_of_row};

use crate::steps::StepTrace;
use acl_formula::NamedCell;
use cell_types::{CellOld, Name, copy_of};
use std::alloc::{AllocError, Global};
use std::collections::HashMap;

/// Columns with what they held, under rows.
pub(crate) type CellsByRow = HashMap<u32, Vec<NamedCell>>;

fn told_cell(old: &CellOld) -> Result<NamedCell, AllocError>
    ensures { IfOk result (λ c. c ≡ told_cell old.now) }
{
    let value = copy_of(&old.old)?;
    let column = old.cell.column.clone()?;
    Ok(NamedCell { column, value })
}

// Notes a cell under a row.
fn note_cell(
    alloc: Global,
    noted: &mut CellsByRow,
    row: u32,
    cell: NamedCell,
) -> Result<(), AllocError>
    ensures { OnOk result ((r : ℕ) → cells_at noted.new r ≡ cond (nat_eq row r)
        (cells_at noted.old r ++ cell ∷ []) (cells_at noted.old r)) }
{
    if let Some(cells) = noted.get_mut(&row) {
        cells.push(cell)?;
        return Ok(());
    }
    let mut cells = Vec::new(alloc);
    cells.push(cell)?;
    noted.insert(row, cells)?;
    Ok(())
}

// Notes a cell where it is of the table.
fn note_told(
    alloc: Global,
    noted: &mut CellsByRow,
    id: &Name,
    old: &CellOld,
) -> Result<(), AllocError>
    ensures { OnOk result ((r : ℕ) → cells_at noted.new r
        ≡ cells_at noted.old r ++ told_in_row id.now r (old.now ∷ [])) }
{
    if old.cell.table.as_str() != id.as_str() {
        return Ok(());
    }
    let cell = told_cell(old)?;
    note_cell(alloc, noted, old.cell.row, cell)
}

fn note_step(
    alloc: Global,
    noted: &mut CellsByRow,
    id: &Name,
    cells: &[CellOld],
) -> Result<(), AllocError>
    ensures { OnOk result ((r : ℕ) → cells_at noted.new r
        ≡ cells_at noted.old r ++ told_in_row id.now r cells.now) }
{
    for old in cells {
        note_told(alloc, noted, id, old)?;
    }
    Ok(())
}

/// The cells of the table that steps tell of, by row, the first step's first.
///
/// Errors: out of memory. Cost: the cells of the steps.
pub(crate) fn told_cells(
    alloc: Global,
    steps: &[StepTrace<'_>],
    id: &Name,
) -> Result<CellsByRow, AllocError>
    ensures { IfOk result
        (λ noted. (r : ℕ) → cells_at noted r ≡ told_of_row (map step_of steps.now) id.now r) }
{
    let mut noted = HashMap::new(alloc);
    for step in steps {
        note_step(alloc, &mut noted, id, step.cells)?;
    }
    Ok(noted)
}

/// The cells that are noted under a row.
///
/// Memory: none.
pub(crate) fn cells_of(noted: &CellsByRow, row: u32) -> &[NamedCell]
    ensures { result.now ≡ cells_at noted.now row }
{
    if let Some(cells) = noted.get(&row) {
        return cells.as_slice();
    }
    &[]
}
