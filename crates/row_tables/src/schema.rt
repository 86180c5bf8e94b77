//! The schema tables, made of the tables that they describe.

ghost use Rattle.std.specs.Prelude.{◌≡◌, ◌∷◌, ◌++◌, [], IfOk};
ghost use Rattle.cell_types.specs.declared.value.CellValue.TheVariants.{Bool, Text};
ghost use Rattle.doc_model.specs.MetadataIds.{columns_id, tables_id};
ghost use Rattle.doc_model.specs.Schema.{columns_grid, describe, metadata_table, tables_grid, type_text};
ghost use Rattle.row_tables.specs.Back.{with_tables};

use crate::RowTable;
use crate::described::{Described, columns_in_order};
use crate::in_place::swap_at;
use crate::known::Known;
use crate::metadata::known_table;
use cell_types::{CellText, CellValue, Name, ValueList};
use doc_model::{ColInfo, type_text};
use list_ops::all_made;
use std::alloc::{AllocError, Global};

fn add_cell(cells: &mut Vec<CellValue>, value: CellValue) -> Result<(), AllocError>
    ensures { IfOk result (λ _. cells.new.items ≡ cells.old.items ++ value ∷ []) }
{
    cells.push(value)?;
    Ok(())
}

fn name_cell(alloc: Global, name: &Name) -> Result<CellValue, AllocError>
    ensures { IfOk result (λ v. v ≡ Text name.now) }
{
    Ok(CellValue::Text(CellText::copy_of(alloc, name.as_str())?))
}

fn name_cells(alloc: Global, name: &Name) -> Result<ValueList, AllocError>
    ensures { IfOk result (λ l. l ≡ Text name.now ∷ []) }
{
    let mut cells = Vec::with_capacity(alloc, 1)?;
    add_cell(&mut cells, name_cell(alloc, name)?)?;
    Ok(ValueList::from(cells))
}

// The table of tables that describes these tables.
fn table_of_tables(alloc: Global, plain: &[RowTable]) -> Result<RowTable, AllocError>
    ensures { IfOk result (λ t. t ≡ metadata_table tables_id (tables_grid plain.now)) }
{
    let rows = all_made(alloc, plain, |table| Ok(table.row()))?;
    let cells = all_made(alloc, plain, |table| name_cells(alloc, table.id()))?;
    known_table(alloc, Known::Tables, rows, cells)
}

// Adds the cells that say what a column is.
fn add_info(alloc: Global, cells: &mut Vec<CellValue>, info: &ColInfo) -> Result<(), AllocError>
    ensures { IfOk result
        (λ _. cells.new.items ≡ cells.old.items ++ Text (type_text info.now.ty)
        ∷ Bool info.now.is_formula ∷ Text info.now.formula ∷ []) }
{
    add_cell(cells, CellValue::Text(type_text(alloc, &info.ty)?))?;
    add_cell(cells, CellValue::Bool(info.is_formula))?;
    add_cell(cells, CellValue::Text(info.formula.clone()?))
}

// The cells of the row that describes a column.
fn described_cells(alloc: Global, told: &Described) -> Result<ValueList, AllocError>
    ensures { IfOk result (λ l. l ≡ describe told.now) }
{
    let mut cells = Vec::with_capacity(alloc, 5)?;
    add_cell(&mut cells, CellValue::Int(i64::from(told.parent)))?;
    add_cell(&mut cells, name_cell(alloc, &told.column.id)?)?;
    add_info(alloc, &mut cells, &told.column.info)?;
    Ok(ValueList::from(cells))
}

// The table of columns that describes the columns of these tables.
fn table_of_columns(alloc: Global, plain: &[RowTable]) -> Result<RowTable, AllocError>
    ensures { IfOk result (λ t. t ≡ metadata_table columns_id (columns_grid plain.now)) }
{
    let sorted = columns_in_order(alloc, plain)?;
    let rows = all_made(alloc, &sorted, |told| Ok(told.row()))?;
    let cells = all_made(alloc, &sorted, |told| described_cells(alloc, told))?;
    known_table(alloc, Known::Columns, rows, cells)
}

/// The two schema tables.
#[derive(Drop)]
pub(crate) struct SchemaTables {
    pub(crate) tables: RowTable,
    pub(crate) columns: RowTable,
}

/// The schema tables that describe these tables.
///
/// Cost: the square of the number of columns.
pub(crate) fn schema_tables(alloc: Global, plain: &[RowTable]) -> Result<SchemaTables, AllocError>
    ensures tables { IfOk result
        (λ schema. schema.tables ≡ metadata_table tables_id (tables_grid plain.now)) }
    ensures columns { IfOk result
        (λ schema. schema.columns ≡ metadata_table columns_id (columns_grid plain.now)) }
{
    Ok(SchemaTables {
        tables: table_of_tables(alloc, plain)?,
        columns: table_of_columns(alloc, plain)?,
    })
}

/// Swaps the first two tables with these, and gives them.
///
/// Memory: none.
pub(crate) fn swap_schema(tables: &mut Vec<RowTable>, schema: SchemaTables) -> SchemaTables
    ensures done { tables.new.items ≡ with_tables schema tables.old.items }
    ensures back { with_tables result tables.new.items ≡ tables.old.items }
{
    let mut swapped = schema;
    swap_at(tables, 0, &mut swapped.tables);
    swap_at(tables, 1, &mut swapped.columns);
    swapped
}
