//! A whole document as plain tables.

ghost use Rattle.std.specs.Prelude.{◌≡◌, ◌∷◌, [], IfOk, None, map};
ghost use Rattle.std.specs.Option.{option_copied};
ghost use Rattle.doc_model.specs.ByIds.{find_id};
ghost use Rattle.doc_model.specs.Document.{table_id};
ghost use Rattle.doc_model.specs.NewDocument.{new_document};
ghost use Rattle.row_tables.specs.declared.known.Known.TheVariants.{Columns, Resources, Rules, Table1, Tables};
ghost use Rattle.row_tables.specs.Known.{empty_table};

use crate::RowTable;
use crate::known::Known;
use crate::look::is_same_id;
use crate::metadata::empty_table;
use crate::put::{Replaced, action_put, put_back};
use crate::schema::{schema_tables, swap_schema};
use cell_types::{CellValue, Name};
use doc_model::{ColDef, DocAction, DocReader, DocTables};
use list_ops::{all_copied, all_made};
use std::alloc::{AllocError, Global};
use std::marker::Model;

/// A document, kept as a vector of tables in the order of the document.
#[derive(Drop)]
pub struct RowTables {
    pub(crate) tables: Vec<RowTable>,
}

impl Model for RowTables {
    ghost use Rattle.doc_model.specs.Document.{Document};
    ghost use Rattle.doc_model.specs.DocumentLaws.{IsWhole};
    ghost use Rattle.row_tables.specs.TableCode.{coded_document};

    ghost Value = { Document };

    ghost coded = { coded_document };

    ghost view = { λ a. a.tables.items };

    ghost invariant = { λ a. IsWhole a.tables.items };
}

// The tables of a new document, in order.
const FIRST_TABLES: [Known; 5] = [
    Known::Tables,
    Known::Columns,
    Known::Resources,
    Known::Rules,
    Known::Table1,
];

// Those tables without rows.
fn empty_tables(alloc: Global) -> Result<Vec<RowTable>, AllocError>
    ensures { IfOk result
        (λ v. v.items ≡ map empty_table (Tables ∷ Columns ∷ Resources ∷ Rules ∷ Table1 ∷ [])) }
{
    all_made(alloc, &FIRST_TABLES, |known| empty_table(alloc, *known))
}

// The tables of a new document.
fn new_tables(alloc: Global) -> Result<Vec<RowTable>, AllocError>
    ensures { IfOk result (λ v. v.items ≡ new_document) }
{
    let mut tables = empty_tables(alloc)?;
    let schema = schema_tables(alloc, &tables[4..])?;
    let _without_rows = swap_schema(&mut tables, schema);
    Ok(tables)
}

// The table of this id.
fn find_table<'a>(tables: &'a [RowTable], id: &Name) -> Option<&'a RowTable>
    ensures { option_copied result ≡ find_id table_id id.now tables.now }
{
    tables.iter().find(|table| is_same_id(table.id(), id))
}

// No cell for each row.
fn no_cells<'a>(alloc: Global, rows: &[u32]) -> Result<Vec<Option<&'a CellValue>>, AllocError>
    ensures { IfOk result (λ cells. map option_copied cells.items ≡ map (λ _. None) rows.now) }
{
    let mut cells = Vec::with_capacity(alloc, rows.len())?;
    for _row in rows {
        cells.push(None)?;
    }
    Ok(cells)
}

impl RowTables {
    /// The new document: `Table1` with columns `A`, `B` and `C`, and no rows but those that
    /// describe it.
    pub fn new_document(alloc: Global) -> Result<RowTables, AllocError>
        ensures { IfOk result (λ s. s ≡ new_document) }
    {
        let tables = new_tables(alloc)?;
        Ok(RowTables { tables })
    }

    /// A copy of the document.
    ///
    /// Cost: linear in the cells.
    pub fn copy(&self, alloc: Global) -> Result<RowTables, AllocError>
        ensures { IfOk result (λ s. s ≡ self.now) }
    {
        let tables = all_copied(alloc, &self.tables, |table| table.copy())?;
        Ok(RowTables { tables })
    }
}

/// What takes an action back: what it replaced.
#[derive(Drop)]
pub struct RowBack {
    replaced: Replaced,
}

impl DocReader for RowTables {
    ghost document = { λ s. s };

    fn table(&self, index: usize) -> Option<&Name> {
        Some(self.tables.get(index)?.id())
    }

    fn column(&self, table: &Name, index: usize) -> Option<&ColDef> {
        find_table(&self.tables, table)?.columns().get(index)
    }

    fn rows(&self, table: &Name) -> Option<&[u32]> {
        Some(find_table(&self.tables, table)?.rows())
    }

    fn cell(&self, table: &Name, column: &Name, row: u32) -> Option<&CellValue> {
        find_table(&self.tables, table)?.search_cell(column, row)
    }

    fn cells(
        &self,
        alloc: Global,
        table: &Name,
        column: &Name,
        rows: &[u32],
    ) -> Result<Vec<Option<&CellValue>>, AllocError> {
        match find_table(&self.tables, table) {
            Some(found) => found.column_cells(alloc, column, rows),
            None => no_cells(alloc, rows),
        }
    }
}

impl DocTables for RowTables {
    ghost use Rattle.row_tables.specs.Back.{fits_back, put_back};

    type Back = RowBack;

    ghost undone = { λ back s. put_back back.replaced s };

    ghost fits = { λ back s. fits_back back.replaced s };

    fn put(&mut self, action: &DocAction) -> Result<RowBack, AllocError> {
        let replaced = action_put(&mut self.tables, action)?;
        Ok(RowBack { replaced })
    }

    fn take_back(&mut self, back: RowBack) {
        put_back(&mut self.tables, back.replaced);
    }
}
