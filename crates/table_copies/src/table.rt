//! Copies of tables.

ghost use Rattle.std.specs.Prelude.{◌≡◌, ◌∷◌, [], None, Some, find, MatchOption, IfOk};
ghost use Rattle.std.specs.Option.{option_copied, option_map};
ghost use Rattle.std.specs.Str.{bytes_eq};
ghost use Rattle.doc_model.specs.ByIds.{find_id};
ghost use Rattle.doc_model.specs.Document.{table_id};
ghost use Rattle.doc_model.specs.LaidOut.{IsLaidOut};
ghost use Rattle.table_copies.specs.Copies.{without_row};
ghost use Rattle.table_copies.specs.declared.columns.CopiedColumn.{CopiedColumn};

use crate::columns::{CopiedColumn, copied_columns};
use crate::found::{cell_beside, found_id};
use cell_types::{CellValue, Name};
use doc_model::{ColDef, DocReader};
use std::alloc::{AllocError, Global};
use std::marker::Model;

/// A copy of a table. It is seen as the table, in row 0.
#[derive(Drop)]
pub struct TableCopy {
    id: Name,
    columns: Vec<CopiedColumn>,
    rows: Vec<u32>,
}

impl Model for TableCopy {
    ghost use Rattle.std.specs.Prelude.{◌≡◌, ◌∷◌, [], length, map};
    ghost use Rattle.doc_model.specs.Document.{Table};
    ghost use Rattle.doc_model.specs.LaidOut.{IsLaidOut};
    ghost use Rattle.row_tables.specs.TableCode.{coded_table};
    ghost use Rattle.table_copies.specs.Copies.{table_of};
    ghost use Rattle.table_copies.specs.declared.columns.CopiedColumn.{CopiedColumn};

    ghost Value = { Table };

    ghost coded = { coded_table };

    ghost view = { λ t. table_of t.id t.columns.items t.rows.items };

    ghost invariant = { λ t. IsLaidOut (table_of t.id t.columns.items t.rows.items ∷ [])
        × (map (λ (c : CopiedColumn). length c.cells.items) t.columns.items
        ≡ map (λ (c : CopiedColumn). length t.rows.items) t.columns.items) };
}

// A copy of a name.
fn copied_name(name: &Name) -> Result<Name, AllocError>
    ensures { IfOk result (λ n. n ≡ name.now) }
{
    name.clone()
}

// The column of this id.
fn column_named<'a>(columns: &'a [CopiedColumn], id: &Name) -> Option<&'a CopiedColumn>
    ensures { option_copied result
        ≡ find (λ (c : CopiedColumn). bytes_eq c.column.id id.now) columns.now }
{
    columns
        .iter()
        .find(|column| column.column.id.as_str() == id.as_str())
}

/// A copy of a table that is laid out, where it is there.
///
/// Errors: out of memory. Memory and cost: a copy of each cell.
pub fn copy_table<D: DocReader>(
    alloc: Global,
    tables: &D,
    table: &str,
) -> Result<Option<TableCopy>, AllocError>
    requires { IsLaidOut (D.document tables.now) }
    ensures { IfOk result
        (λ o. MatchOption o (find_id table_id table.now (D.document tables.now) ≡ None)
        (λ t. option_map without_row (find_id table_id table.now (D.document tables.now))
        ≡ Some t)) }
{
    let Some(id) = found_id(tables, table) else {
        return Ok(None);
    };
    let Some(rows) = tables.rows(id) else {
        return Ok(None);
    };
    let rows = Vec::from_slice(alloc, rows)?;
    let columns = copied_columns(alloc, tables, id, rows.as_slice())?;
    let id = copied_name(id)?;
    Ok(Some(TableCopy { id, columns, rows }))
}

impl TableCopy {
    // Whether the table has the id.
    fn is_named(&self, table: &Name) -> bool
        ensures { result ≡ bytes_eq self.now.id table.now }
    {
        self.id.as_str() == table.as_str()
    }

    /// A copy is a document that is laid out.
    pub fn laid_out_law(&self)
        ensures { IsLaidOut (self.now ∷ []) }
    {
        let _ = &self.id;
    }
}

/// The document of this one table.
impl DocReader for TableCopy {
    ghost use Rattle.std.specs.Prelude.{◌∷◌, []};

    ghost document = { λ t. t ∷ [] };

    fn table(&self, index: usize) -> Option<&Name> {
        match index {
            0 => Some(&self.id),
            _ => None,
        }
    }

    fn column(&self, table: &Name, index: usize) -> Option<&ColDef> {
        if !self.is_named(table) {
            return None;
        }
        Some(&self.columns.get(index)?.column)
    }

    fn rows(&self, table: &Name) -> Option<&[u32]> {
        if !self.is_named(table) {
            return None;
        }
        Some(&self.rows)
    }

    fn cell(&self, table: &Name, column: &Name, row: u32) -> Option<&CellValue> {
        if !self.is_named(table) {
            return None;
        }
        let found = column_named(&self.columns, column)?;
        cell_beside(&self.rows, &found.cells, row)
    }
}
