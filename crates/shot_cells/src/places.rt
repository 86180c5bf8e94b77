//! Places of cells, in maps by table, by column and by row.

ghost use Rattle.std.specs.Prelude.{◌≡◌, ℕ, List, length, cond, is_some, IsSome, OnOk, OnErr};
ghost use Rattle.std.specs.BTreeMap.{get};
ghost use Rattle.std.specs.List.{All};
ghost use Rattle.std.specs.Option.{option_copied, unwrap_or};
ghost use Rattle.std.specs.Ordering.{nat_cmp};
ghost use Rattle.std.specs.Str.{bytes_eq};
ghost use Rattle.shot_cells.specs.Places.{HasPlace, MakesRoom, RoomFor, by_name, held, place_at, seen_at, with_all, with_each, with_one};

use cell_types::{CellId, CellValue, Name};
use std::alloc::{AllocError, Global};
use std::collections::BTreeMap;

/// The values of a column by row.
type RowValues = BTreeMap<u32, CellValue>;

/// The values of a table by column.
type ColumnValues = BTreeMap<Name, RowValues>;

/// Values by table. A cell has a place where its row is there.
pub(crate) type TableValues = BTreeMap<Name, ColumnValues>;

/// The value at the place of a cell.
pub(crate) fn find_place<'a>(
    tables: &'a TableValues,
    table: &Name,
    column: &Name,
    row: u32,
) -> Option<&'a CellValue>
    ensures { option_copied result ≡ place_at tables.now table.now column.now row }
{
    tables.get(table)?.get(column)?.get(&row)
}

// Whether a cell has a place.
fn has_place(tables: &TableValues, cell: &CellId) -> bool
    ensures { result ≡ is_some (place_at tables.now cell.now.table cell.now.column cell.now.row) }
{
    find_place(tables, &cell.table, &cell.column, cell.row).is_some()
}

// Makes room for a thing where there is none of this name.
fn make_named<V: Drop>(
    named: &mut BTreeMap<Name, V>,
    name: &Name,
    empty: V,
) -> Result<(), AllocError>
    ensures ok { OnOk result ((other : List ℕ) → get by_name named.new other
        ≡ cond (bytes_eq name.now other)
        (Some (unwrap_or (get by_name named.old name.now) empty)) (get by_name named.old other)) }
    ensures err { OnErr result
        ((other : List ℕ) → get by_name named.new other ≡ get by_name named.old other) }
{
    if named.contains_key(name) {
        return Ok(());
    }
    named.insert(name.clone()?, empty)?;
    Ok(())
}

// Makes a place, with Null, for a row that has none.
fn make_row(values: &mut RowValues, row: u32) -> Result<(), AllocError>
    ensures ok { OnOk result (IsSome (get nat_cmp values.new row)) }
    ensures room { (other : ℕ) → RoomFor (get nat_cmp values.old other)
        (get nat_cmp values.new other) }
{
    if values.contains_key(&row) {
        return Ok(());
    }
    values.insert(row, CellValue::Null)?;
    Ok(())
}

// The same for a row of a column.
fn make_in_column(
    alloc: Global,
    columns: &mut ColumnValues,
    column: &Name,
    row: u32,
) -> Result<(), AllocError>
    ensures ok { OnOk result
        (IsSome (held nat_cmp (get by_name columns.new column.now) row)) }
    ensures room { (name : List ℕ) (other : ℕ) →
        RoomFor (held nat_cmp (get by_name columns.old name) other)
        (held nat_cmp (get by_name columns.new name) other) }
{
    make_named(columns, column, BTreeMap::new(alloc))?;
    let Some(values) = columns.get_mut(column) else {
        unreachable!()
    };
    make_row(values, row)
}

// Makes a place, with Null, for a cell that has none.
fn make_place(alloc: Global, tables: &mut TableValues, cell: &CellId) -> Result<(), AllocError>
    ensures ok { OnOk result (HasPlace tables.new cell.now) }
    ensures room { MakesRoom (place_at tables.old) (place_at tables.new) }
{
    make_named(tables, &cell.table, BTreeMap::new(alloc))?;
    let Some(columns) = tables.get_mut(&cell.table) else {
        unreachable!()
    };
    make_in_column(alloc, columns, &cell.column, cell.row)
}

/// Makes a place, with Null, for each of the cells that has none.
///
/// Errors: out of memory; some of the cells may have a place then that had none.
pub(crate) fn make_places(
    alloc: Global,
    tables: &mut TableValues,
    cells: &[CellId],
) -> Result<(), AllocError>
    ensures ok { OnOk result (All (HasPlace tables.new) cells.now) }
    ensures room { MakesRoom (place_at tables.old) (place_at tables.new) }
{
    for cell in cells {
        make_place(alloc, tables, cell)?;
    }
    Ok(())
}

// Sets the value at the place of a cell.
fn set_value(tables: &mut TableValues, cell: &CellId, value: CellValue)
    requires { HasPlace tables.old cell.now }
    ensures { place_at tables.new ≡ with_one cell.now (Some value) (place_at tables.old) }
{
    let Some(columns) = tables.get_mut(&cell.table) else {
        unreachable!()
    };
    let Some(values) = columns.get_mut(&cell.column) else {
        unreachable!()
    };
    let Ok(_) = values.insert(cell.row, value) else {
        unreachable!()
    };
}

/// Sets the values at the places of cells, the last one first.
///
/// Memory: none.
pub(crate) fn set_values(tables: &mut TableValues, cells: &[CellId], mut values: Vec<CellValue>)
    requires placed { All (HasPlace tables.old) cells.now }
    requires beside { length values.items ≡ length cells.now }
    ensures seen { seen_at tables.new ≡ with_all cells.now values.items (seen_at tables.old) }
    ensures places { (cell : CellId) → HasPlace tables.old cell → HasPlace tables.new cell }
{
    while let Some(value) = values.pop() {
        set_value(tables, &cells[values.len()], value);
    }
}

// Takes the place of a cell away that has one.
fn remove_row(tables: &mut TableValues, cell: &CellId)
    requires { HasPlace tables.old cell.now }
    ensures { place_at tables.new ≡ with_one cell.now None (place_at tables.old) }
{
    let Some(columns) = tables.get_mut(&cell.table) else {
        unreachable!()
    };
    let Some(values) = columns.get_mut(&cell.column) else {
        unreachable!()
    };
    values.remove(&cell.row);
}

// Lets a map go that stands under a name and is empty.
fn let_go<K: Ord + Drop, V: Drop>(named: &mut BTreeMap<Name, BTreeMap<K, V>>, name: &Name)
    ensures { (other : List ℕ) (key : K) → held K.cmp (get by_name named.new other) key
        ≡ held K.cmp (get by_name named.old other) key }
{
    let Some(inner) = named.get(name) else {
        return;
    };
    if inner.is_empty() {
        named.remove(name);
    }
}

// Lets the map of a column go, where it is empty.
fn let_column_go(tables: &mut TableValues, cell: &CellId)
    ensures { place_at tables.new ≡ place_at tables.old }
{
    if let Some(columns) = tables.get_mut(&cell.table) {
        let_go(columns, &cell.column);
    }
}

// Takes the place of a cell away, where it has one, with the maps that are empty then.
fn take_place(tables: &mut TableValues, cell: &CellId)
    ensures { place_at tables.new ≡ with_one cell.now None (place_at tables.old) }
{
    if has_place(tables, cell) {
        remove_row(tables, cell);
        let_column_go(tables, cell);
        let_go(tables, &cell.table);
    }
}

/// Takes the places of cells away.
///
/// Memory: none.
pub(crate) fn take_places(tables: &mut TableValues, cells: &[CellId])
    ensures { place_at tables.new ≡ with_each cells.now None (place_at tables.old) }
{
    for cell in cells {
        take_place(tables, cell);
    }
}
