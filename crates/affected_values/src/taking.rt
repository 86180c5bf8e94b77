//! Values of cells taken out of their places, and put back.

ghost use Rattle.std.specs.Prelude.{◌≡◌, ◌≤◌, [], None, cond, length, true, unwrap_or, vec_capacity};
ghost use Rattle.std.specs.Option.{is_some};
ghost use Rattle.cell_types.specs.declared.cell.CellId.{CellId};
ghost use Rattle.doc_model.specs.DocumentLaws.{IsWhole};
ghost use Rattle.recalc.specs.Cells.{same_cell};
ghost use Rattle.recalc.specs.Evaluated.{formula_at};
ghost use Rattle.recalc.specs.Kept.{IsKeptOf, held_at};
ghost use Rattle.affected_values.specs.Taken.{IsTaken, taken_of};

use cell_types::{CellId, CellValue};
use doc_model::DocTables;
use doc_readers::{find_column, holds_row, rows_in};
use recalc::{KeptTable, exchange_value};

/// A cell with what was known of it.
#[derive(Drop)]
pub struct HeldValue {
    pub cell: CellId,
    pub value: Option<CellValue>,
}

/// Whether the cell is there and stands in a formula column.
///
/// Memory: none. Cost: linear in the columns of the table, and the logarithm of its rows.
pub fn is_formula_cell<D: DocTables>(tables: &D, cell: &CellId) -> bool
    ensures { result ≡ is_some (formula_at (D.document tables.now) cell.now) }
{
    match find_column(tables, &cell.table, &cell.column) {
        Some(column) => column.info.is_formula && holds_row(rows_in(tables, &cell.table), cell.row),
        None => false,
    }
}

// Takes out what is known of a cell.
fn take_value<D: DocTables>(
    tables: &D,
    kept: &mut Vec<KeptTable>,
    cell: &CellId,
) -> Option<CellValue>
    requires whole { IsWhole (D.document tables.now) }
    requires of_document { IsKeptOf (D.document tables.now) kept.old.items }
    ensures of_document { IsKeptOf (D.document tables.now) kept.new.items }
    ensures taken { (c : CellId) → held_at (D.document tables.now) kept.new.items c
        ≡ cond (same_cell cell.now c) None (held_at (D.document tables.now) kept.old.items c) }
    ensures before { result ≡ held_at (D.document tables.now) kept.old.items cell.now }
{
    if is_formula_cell(tables, cell) {
        return exchange_value(tables, kept, cell, None);
    }
    None
}

/// Takes out what is known of these cells, so that it can be put back.
///
/// Memory: none. Cost: linear in the cells, for each a search for its column and its row.
pub fn take_values<D: DocTables>(
    tables: &D,
    kept: &mut Vec<KeptTable>,
    cells: Vec<CellId>,
    taken: &mut Vec<HeldValue>,
)
    requires whole { IsWhole (D.document tables.now) }
    requires of_document { IsKeptOf (D.document tables.now) kept.old.items }
    requires empty { taken.old.items ≡ [] }
    requires room { length cells.items ≤ vec_capacity taken.old }
    ensures of_document { IsKeptOf (D.document tables.now) kept.new.items }
    ensures taken { IsTaken cells.items taken.new.items
        (held_at (D.document tables.now) kept.old.items)
        (held_at (D.document tables.now) kept.new.items) }
{
    let mut cells = cells;
    'taking: while let Some(cell) = cells.pop() {
        let value = take_value(tables, kept, &cell);
        taken.push_reserved(HeldValue { cell, value });
    }
}

// Puts back what was known of a formula cell.
fn put_back<D: DocTables>(tables: &D, kept: &mut Vec<KeptTable>, held: HeldValue)
    requires whole { IsWhole (D.document tables.now) }
    requires of_document { IsKeptOf (D.document tables.now) kept.old.items }
    ensures of_document { IsKeptOf (D.document tables.now) kept.new.items }
    ensures put { (c : CellId) → is_some (formula_at (D.document tables.now) c) ≡ true
        → held_at (D.document tables.now) kept.new.items c ≡ cond (same_cell held.cell c) held.value
        (held_at (D.document tables.now) kept.old.items c) }
{
    let HeldValue { cell, value } = held;
    if is_formula_cell(tables, &cell) {
        let now = exchange_value(tables, kept, &cell, value);
        drop(now);
    }
}

/// Puts back what was taken.
///
/// Memory: none. Cost: as to take it.
pub fn put_values_back<D: DocTables>(tables: &D, kept: &mut Vec<KeptTable>, taken: Vec<HeldValue>)
    requires whole { IsWhole (D.document tables.now) }
    requires of_document { IsKeptOf (D.document tables.now) kept.old.items }
    ensures of_document { IsKeptOf (D.document tables.now) kept.new.items }
    ensures back { (c : CellId) → is_some (formula_at (D.document tables.now) c) ≡ true
        → held_at (D.document tables.now) kept.new.items c ≡ unwrap_or (taken_of taken.items c)
        (held_at (D.document tables.now) kept.old.items c) }
{
    let mut taken = taken;
    'putting: while let Some(held) = taken.pop() {
        put_back(tables, kept, held);
    }
}
