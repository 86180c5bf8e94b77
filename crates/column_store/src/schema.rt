//! The schema tables, made of the tables that they describe.

ghost use Rattle.std.specs.Prelude.{◌≡◌, ◌∷◌, ◌++◌, [], true, IfOk, OnErr, OnOk, map};
ghost use Rattle.cell_types.specs.declared.value.CellValue.TheVariants.{Bool, Text};
ghost use Rattle.doc_model.specs.Document.{table_row};
ghost use Rattle.doc_model.specs.NewDocument.{no_rows};
ghost use Rattle.doc_model.specs.Rows.{IsAscending, has_no_duplicates};
ghost use Rattle.doc_model.specs.Schema.{all_columns, columns_columns, columns_grid, describe, described_row, tables_columns, tables_grid, type_text};
ghost use Rattle.row_tables.specs.Spots.{columns_of};
ghost use Rattle.column_store.specs.Back.{with_tables};
ghost use Rattle.column_store.specs.Changes.{told_fits, told_grid};
ghost use Rattle.column_store.specs.Schema.{IsCome, IsDescribable, TellsOf, adds_table, described_columns, described_tables, schema_back, schema_back_fits, schema_fits, schema_told};

use crate::change::{Change, Told};
use crate::columns::CellColumns;
use crate::copies::copy_of_name;
use crate::in_place::swap_at;
use crate::places::column_places;
use crate::table::ColumnTable;
use cell_types::{CellText, CellValue, Name, ValueList};
use doc_model::{ColDef, ColInfo, DocAction, type_text};
use list_ops::all_made;
use std::alloc::{AllocError, Global};

fn add_cell(cells: &mut Vec<CellValue>, value: CellValue) -> Result<(), AllocError>
    ensures { IfOk result (λ _. cells.new.items ≡ cells.old.items ++ value ∷ []) }
{
    cells.push(value)?;
    Ok(())
}

fn name_cell(alloc: Global, name: &Name) -> Result<CellValue, AllocError>
    ensures { IfOk result (λ v. v ≡ Text name.now) }
{
    Ok(CellValue::Text(CellText::copy_of(alloc, name.as_str())?))
}

fn name_cells(alloc: Global, name: &Name) -> Result<ValueList, AllocError>
    ensures { IfOk result (λ l. l ≡ Text name.now ∷ []) }
{
    let mut cells = Vec::with_capacity(alloc, 1)?;
    add_cell(&mut cells, name_cell(alloc, name)?)?;
    Ok(ValueList::from(cells))
}

// Adds the cells that say what a column is.
fn add_info(alloc: Global, cells: &mut Vec<CellValue>, info: &ColInfo) -> Result<(), AllocError>
    ensures { IfOk result
        (λ _. cells.new.items ≡ cells.old.items ++ Text (type_text info.now.ty)
        ∷ Bool info.now.is_formula ∷ Text info.now.formula ∷ []) }
{
    add_cell(cells, CellValue::Text(type_text(alloc, &info.ty)?))?;
    add_cell(cells, CellValue::Bool(info.is_formula))?;
    add_cell(cells, CellValue::Text(info.formula.clone()?))
}

// The cells of the row that describes a column.
fn described_cells(alloc: Global, parent: u32, column: &ColDef) -> Result<ValueList, AllocError>
    ensures { IfOk result (λ l. l ≡ describe (record { parent = parent; column = column.now })) }
{
    let mut cells = Vec::with_capacity(alloc, 5)?;
    add_cell(&mut cells, CellValue::Int(i64::from(parent)))?;
    add_cell(&mut cells, name_cell(alloc, &column.id)?)?;
    add_info(alloc, &mut cells, &column.info)?;
    Ok(ValueList::from(cells))
}

// What the table of tables is told of these tables.
fn tables_told(alloc: Global, plain: &[ColumnTable]) -> Result<Told, AllocError>
    ensures { IfOk result
        (IsCome (map table_row plain.now) (map (λ t. Text t.id ∷ []) plain.now)) }
{
    let rows = all_made(alloc, plain, |table| Ok(table.row()))?;
    let lists = all_made(alloc, plain, |table| name_cells(alloc, table.id()))?;
    Ok(Told::Come { rows, lists })
}

// Notes the rows and cells that describe the columns of a table.
fn note_columns(
    alloc: Global,
    parent: u32,
    columns: &[ColDef],
    rows: &mut Vec<u32>,
    lists: &mut Vec<ValueList>,
) -> Result<(), AllocError>
    ensures rows { OnOk result
        (rows.new.items
        ≡ rows.old.items ++ map described_row (columns_of parent columns.now)) }
    ensures lists { OnOk result
        (lists.new.items ≡ lists.old.items ++ map describe (columns_of parent columns.now)) }
{
    for column in columns {
        rows.push(column.row)?;
        lists.push(described_cells(alloc, parent, column)?)?;
    }
    Ok(())
}

// What the table of columns is told of the columns of these tables.
fn columns_told(alloc: Global, plain: &[ColumnTable]) -> Result<Told, AllocError>
    ensures { IfOk result
        (IsCome (map described_row (all_columns plain.now))
        (map describe (all_columns plain.now))) }
{
    let mut rows = Vec::new(alloc);
    let mut lists = Vec::new(alloc);
    for table in plain {
        note_columns(alloc, table.row(), table.columns(), &mut rows, &mut lists)?;
    }
    Ok(Told::Come { rows, lists })
}

/// A table of these columns without rows.
pub(crate) fn without_rows(
    alloc: Global,
    id: Name,
    row: u32,
    columns: Vec<ColDef>,
) -> Result<ColumnTable, AllocError>
    ensures { IfOk result
        (λ t. t ≡ record { id = id; row = row; grid = no_rows columns.items }) }
{
    let cells = CellColumns::empty(alloc, columns.len())?;
    let places = column_places(alloc, &columns);
    Ok(ColumnTable {
        id,
        row,
        columns,
        places,
        rows: Vec::new(alloc),
        cells,
    })
}

// The table with what it is told alone.
fn filled(table: &ColumnTable, told: Told) -> Result<ColumnTable, AllocError>
    requires { told_fits told (no_rows table.now.grid.columns) }
    ensures { IfOk result (λ t. t ≡ record {
      id = table.now.id;
      row = table.now.row;
      grid = told_grid told (no_rows table.now.grid.columns);
    }) }
{
    let alloc = table.alloc();
    let id = copy_of_name(table.id())?;
    let columns = Vec::from_clones(alloc, table.columns())?;
    let mut new = without_rows(alloc, id, table.row(), columns)?;
    let _back = new.put_told(told)?;
    Ok(new)
}

/// The two schema tables.
#[derive(Drop)]
pub(crate) struct SchemaTables {
    pub(crate) tables: ColumnTable,
    pub(crate) columns: ColumnTable,
}

// The table of tables that describes these tables.
fn table_of_tables(table: &ColumnTable, plain: &[ColumnTable]) -> Result<ColumnTable, AllocError>
    requires columns { table.now.grid.columns ≡ tables_columns }
    requires ascending { IsAscending (map table_row plain.now) }
    ensures { IfOk result (λ t. t
        ≡ record { id = table.now.id; row = table.now.row; grid = tables_grid plain.now }) }
{
    let told = tables_told(table.alloc(), plain)?;
    Ok(filled(table, told)?)
}

// The table of columns that describes the columns of these tables.
fn table_of_columns(table: &ColumnTable, plain: &[ColumnTable]) -> Result<ColumnTable, AllocError>
    requires columns { table.now.grid.columns ≡ columns_columns }
    requires once { has_no_duplicates (map described_row (all_columns plain.now)) ≡ true }
    ensures { IfOk result (λ t. t
        ≡ record { id = table.now.id; row = table.now.row; grid = columns_grid plain.now }) }
{
    let told = columns_told(table.alloc(), plain)?;
    Ok(filled(table, told)?)
}

/// The schema tables that describe the tables behind the metadata tables.
///
/// Cost: the number of columns, and its logarithm for each.
pub(crate) fn schema_tables(tables: &[ColumnTable]) -> Result<SchemaTables, AllocError>
    requires { IsDescribable tables.now }
    ensures tables { IfOk result (λ schema. schema.tables ≡ described_tables tables.now) }
    ensures columns { IfOk result (λ schema. schema.columns ≡ described_columns tables.now) }
{
    Ok(SchemaTables {
        tables: table_of_tables(&tables[0], &tables[4..])?,
        columns: table_of_columns(&tables[1], &tables[4..])?,
    })
}

/// Swaps the first two tables with these, and gives them.
///
/// Memory: none.
pub(crate) fn swap_schema(tables: &mut Vec<ColumnTable>, schema: SchemaTables) -> SchemaTables
    ensures done { tables.new.items ≡ with_tables schema tables.old.items }
    ensures back { with_tables result tables.new.items ≡ tables.old.items }
{
    let mut swapped = schema;
    swap_at(tables, 0, &mut swapped.tables);
    swap_at(tables, 1, &mut swapped.columns);
    swapped
}

/// What the two schema tables are told.
#[derive(Drop)]
pub(crate) struct SchemaTold {
    pub(crate) tables: Told,
    pub(crate) columns: Told,
}

/// What takes that back.
#[derive(Drop)]
pub(crate) struct SchemaChange {
    pub(crate) tables: Change,
    pub(crate) columns: Change,
}

// What the table of tables is told of a table that comes.
fn table_told(alloc: Global, id: &Name, row: u32) -> Result<Told, AllocError>
    ensures { IfOk result (IsCome (row ∷ []) ((Text id.now ∷ []) ∷ [])) }
{
    let mut rows = Vec::with_capacity(alloc, 1)?;
    rows.push(row)?;
    let mut lists = Vec::with_capacity(alloc, 1)?;
    lists.push(name_cells(alloc, id)?)?;
    Ok(Told::Come { rows, lists })
}

// What the table of columns is told of its columns.
fn new_columns_told(alloc: Global, parent: u32, columns: &[ColDef]) -> Result<Told, AllocError>
    ensures { IfOk result
        (IsCome (map described_row (columns_of parent columns.now))
        (map describe (columns_of parent columns.now))) }
{
    let mut rows = Vec::new(alloc);
    let mut lists = Vec::new(alloc);
    note_columns(alloc, parent, columns, &mut rows, &mut lists)?;
    Ok(Told::Come { rows, lists })
}

/// What the schema tables are told of a table that comes.
pub(crate) fn told_of(alloc: Global, action: &DocAction) -> Result<SchemaTold, AllocError>
    requires { adds_table action.now ≡ true }
    ensures { IfOk result (λ told. TellsOf told action.now) }
{
    let DocAction::AddTable {
        table,
        row,
        columns,
    } = action
    else {
        unreachable!()
    };
    Ok(SchemaTold {
        tables: table_told(alloc, table, *row)?,
        columns: new_columns_told(alloc, *row, columns.as_slice())?,
    })
}

/// Tells the schema tables, which are the first two.
///
/// Errors: out of memory; all tables are then as they were. Cost: that of what is told, and of
/// moving what stands behind it.
pub(crate) fn tell_schema(
    tables: &mut Vec<ColumnTable>,
    told: SchemaTold,
) -> Result<SchemaChange, AllocError>
    requires { schema_fits told tables.old.items }
    ensures done { OnOk result (tables.new.items ≡ schema_told told tables.old.items) }
    ensures back { IfOk result (λ change. schema_back change tables.new.items ≡ tables.old.items) }
    ensures fit { IfOk result (λ change. schema_back_fits change tables.new.items) }
    ensures err { OnErr result (tables.new.items ≡ tables.old.items) }
{
    let first = tables[0].put_told(told.tables)?;
    match tables[1].put_told(told.columns) {
        Ok(second) => Ok(SchemaChange {
            tables: first,
            columns: second,
        }),
        Err(error) => {
            tables[0].take_back(first);
            Err(error)
        }
    }
}

/// Takes back what the schema tables were told.
///
/// Memory: none.
pub(crate) fn untell_schema(tables: &mut Vec<ColumnTable>, change: SchemaChange)
    requires { schema_back_fits change tables.old.items }
    ensures { tables.new.items ≡ schema_back change tables.old.items }
{
    tables[0].take_back(change.tables);
    tables[1].take_back(change.columns);
}
