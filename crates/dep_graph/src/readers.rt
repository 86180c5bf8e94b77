//! The cells of each read.

ghost use Rattle.std.specs.Prelude.{◌≡◌, cond, false, true, OnOk, OnErr};
ghost use Rattle.doc_model.specs.Rows.{has, IsAscending};
ghost use Rattle.lookup_index.specs.Under.{under_key};
ghost use Rattle.dep_graph.specs.Numbers.{is_read, is_reading};
ghost use Rattle.dep_graph.specs.Readers.{columns_under, links, lists_column, lists_of, wide, with_column, HasColumns, HasSameLinks, IsBackable, IsLinked, IsUnlinked, KeepsBackable, KeepsColumns};
ghost use Rattle.dep_graph.specs.declared.numbers.ReadNumber.{ReadNumber};
ghost use Rattle.dep_graph.specs.declared.numbers.CellNumber.{CellNumber};

use crate::numbers::{CellNumber, ColumnNumber, ReadNumber, Reading, ValueNumber};
use doc_model::search_row;
use lookup_index::KeyIndex;
use std::alloc::{AllocError, Global};
use std::collections::HashMap;
use std::marker::Model;

type Columns = HashMap<ReadNumber, Vec<ColumnNumber>>;

/// The cells of each read, by column and then by row, so that no list holds all cells of a column.
/// A place that becomes empty keeps its room. The columns are those of all reads that differ in row
/// or value alone: else each cell that is read had a list of its own for mostly one column.
#[derive(Drop)]
pub(crate) struct Readers {
    rows: KeyIndex<Reading>,
    columns: Columns,
}

impl Model for Readers {
    ghost use Rattle.dep_graph.specs.Readers.{HasColumns, ReaderLists, lists_of};

    ghost Value = { ReaderLists };

    ghost view = { λ r. lists_of r.rows r.columns.entries };

    ghost invariant = { λ r. HasColumns (lists_of r.rows r.columns.entries) };
}

fn is_there(rows: &[u32], row: u32) -> bool
    requires { IsAscending rows.now }
    ensures { result ≡ has rows.now row }
{
    search_row(rows, row).is_ok()
}

// Adds a column, where it is not there.
fn push_column(columns: &mut Vec<ColumnNumber>, column: ColumnNumber) -> Result<(), AllocError>
    ensures ok { OnOk result (columns.new.items ≡ with_column column columns.old.items) }
    ensures err { OnErr result (columns.new.items ≡ columns.old.items) }
{
    if !columns.contains(&column) {
        columns.push(column)?;
    }
    Ok(())
}

// The read without its row, or without the value that is looked up.
fn wide(read: ReadNumber) -> ReadNumber
    ensures { result ≡ wide read }
{
    match read {
        ReadNumber::Cell(CellNumber { column, .. }) => {
            ReadNumber::Cell(CellNumber { column, row: 0 })
        }
        ReadNumber::Value(ValueNumber { column, .. }) => {
            ReadNumber::Value(ValueNumber { column, bucket: 0 })
        }
        ReadNumber::Part(ValueNumber { column, .. }) => {
            ReadNumber::Part(ValueNumber { column, bucket: 0 })
        }
        ReadNumber::Key(_) | ReadNumber::Rows(_) | ReadNumber::All(_) => read,
    }
}

fn add_column(
    columns: &mut Columns,
    alloc: Global,
    read: ReadNumber,
    column: ColumnNumber,
) -> Result<(), AllocError>
    ensures ok { OnOk result ((q : ReadNumber) → columns_under columns.new.entries q
        ≡ cond (is_read (wide read) (wide q))
        (with_column column (columns_under columns.old.entries q))
        (columns_under columns.old.entries q)) }
    ensures err { OnErr result ((q : ReadNumber)
        → columns_under columns.new.entries q ≡ columns_under columns.old.entries q) }
{
    let key = wide(read);
    if let Some(list) = columns.get_mut(&key) {
        return push_column(list, column);
    }
    let mut list = Vec::new(alloc);
    push_column(&mut list, column)?;
    columns.insert(key, list)?;
    Ok(())
}

// Adds the column of a cell under a read, where it may not be there: a column that has rows is.
fn list_column(
    rows: &KeyIndex<Reading>,
    columns: &mut Columns,
    alloc: Global,
    read: ReadNumber,
    cell: CellNumber,
) -> Result<(), AllocError>
    requires { HasColumns (lists_of rows.now columns.old.entries) }
    ensures there { OnOk result
        (lists_column (lists_of rows.now columns.new.entries) read cell ≡ true) }
    ensures keeps { KeepsColumns (lists_of rows.now columns.old.entries)
        (lists_of rows.now columns.new.entries) }
{
    if !rows
        .rows_for(&Reading {
            read,
            column: cell.column,
        })
        .is_empty()
    {
        return Ok(());
    }
    add_column(columns, alloc, read, cell.column)
}

fn add_cell(
    rows: &mut KeyIndex<Reading>,
    columns: &mut Columns,
    alloc: Global,
    read: ReadNumber,
    cell: CellNumber,
) -> Result<(), AllocError>
    requires { HasColumns (lists_of rows.old columns.old.entries) }
    ensures ok { OnOk result (IsLinked (lists_of rows.old columns.old.entries)
        (lists_of rows.new columns.new.entries) read cell) }
    ensures err { OnErr result (HasSameLinks (lists_of rows.old columns.old.entries)
        (lists_of rows.new columns.new.entries)) }
    ensures columns { HasColumns (lists_of rows.new columns.new.entries) }
    ensures backable { KeepsBackable (lists_of rows.old columns.old.entries)
        (lists_of rows.new columns.new.entries) cell }
{
    list_column(&*rows, columns, alloc, read, cell)?;
    rows.insert(
        alloc,
        Reading {
            read,
            column: cell.column,
        },
        cell.row,
    )
}

impl Readers {
    /// No cells under any read.
    ///
    /// Memory: none.
    pub fn new(alloc: Global) -> Self
        ensures { (q : ReadNumber) (c : CellNumber) → links result q c ≡ false }
    {
        Readers {
            rows: KeyIndex::new(alloc),
            columns: HashMap::new(alloc),
        }
    }

    /// The columns of the cells under a read; some may have no rows there.
    ///
    /// Memory: none.
    pub fn columns(&self, read: ReadNumber) -> &[ColumnNumber]
        ensures columns { result.now ≡ columns_under self.now.columns read }
        ensures whole { HasColumns self.now }
    {
        match self.columns.get(&wide(read)) {
            Some(columns) => columns.as_slice(),
            None => &[],
        }
    }

    /// The rows of a column under a read, ascending.
    ///
    /// Memory: none.
    pub fn rows(&self, read: ReadNumber, column: ColumnNumber) -> &[u32]
        ensures rows { result.now
            ≡ under_key is_reading self.now.rows (record { read = read; column = column }) }
        ensures ascending { IsAscending result.now }
    {
        self.rows.rows_for(&Reading { read, column })
    }

    /// Each cell under a read has its column there.
    pub fn columns_law(&self)
        ensures { HasColumns self.now }
    {
        let _rows = &self.rows;
    }

    /// Puts a cell under a read.
    ///
    /// Errors: out of memory; under each read are then the same cells as before. Cost: the
    /// logarithm of the rows of the column under the read, and those that follow the cell's; for
    /// the first of them also the columns under the read.
    pub fn add(
        &mut self,
        alloc: Global,
        read: ReadNumber,
        cell: CellNumber,
    ) -> Result<(), AllocError>
        ensures ok { OnOk result (IsLinked self.old self.new read cell) }
        ensures err { OnErr result (HasSameLinks self.old self.new) }
        ensures backable { KeepsBackable self.old self.new cell }
    {
        add_cell(&mut self.rows, &mut self.columns, alloc, read, cell)
    }

    /// Takes a cell from under a read.
    ///
    /// Memory: none.
    pub fn take(&mut self, read: ReadNumber, cell: CellNumber)
        ensures links { IsUnlinked self.old self.new read cell }
        ensures backable { KeepsBackable self.old self.new cell }
    {
        let _was = self.rows.remove(
            &Reading {
                read,
                column: cell.column,
            },
            cell.row,
        );
    }

    /// Puts a cell under a read again.
    ///
    /// Memory: none.
    pub fn put_back(&mut self, read: ReadNumber, cell: CellNumber)
        requires { IsBackable self.old read cell }
        ensures links { IsLinked self.old self.new read cell }
        ensures backable { KeepsBackable self.old self.new cell }
    {
        let reading = Reading {
            read,
            column: cell.column,
        };
        if !is_there(self.rows.rows_for(&reading), cell.row) {
            self.rows.put_back(&reading, cell.row);
        }
    }
}
