//! Cells in columns.

ghost use Rattle.std.specs.Prelude.{◌≡◌, ◌<◌, ◌≤◌, ◌+◌, ◌^◌, ℕ, [], slice_get, slice_set, slice_index_or, length, IfOk, OnOk, OnErr, map, vec_capacity, vec_len};
ghost use Rattle.std.specs.List.{AllByRecursion, insert, remove};
ghost use Rattle.std.specs.Option.{option_copied};
ghost use Rattle.cell_types.specs.declared.value.CellValue.TheVariants.{Null};
ghost use Rattle.column_store.specs.Crossed.{AreRooms, HaveHeight, HaveRoom, all_items, insert_beside, insert_each, remove_each, set_in};

use crate::in_place::{insert_reserved, move_to, remove_at, swap_at};
use crate::rooms::rooms_for;
use cell_types::{CellValue, copy_of};
use list_ops::all_copied;
use std::alloc::{AllocError, Global};
use std::marker::Model;

/// The cells of a table. They are seen as the number of columns, and the cells of each row.
#[derive(Drop)]
pub struct CellColumns {
    height: usize,
    // For how many more rows each column has room.
    room: usize,
    columns: Vec<Vec<CellValue>>,
}

impl Model for CellColumns {
    ghost use Rattle.std.specs.Prelude.{length};
    ghost use Rattle.column_store.specs.Crossed.{Rows, HaveHeight, HaveRoom, all_items, coded_rows, crossed};

    ghost Value = { Rows };

    ghost coded = { coded_rows };

    ghost view = { λ a. record {
      width = length a.columns.items;
      rows = crossed a.height (all_items a.columns.items);
      room = a.room;
    } };

    ghost invariant = { λ a. HaveHeight a.height (all_items a.columns.items)
        × HaveRoom 0 a.room a.columns.items };
}

// Swaps a value with the one at a place of a column, where there is one.
fn swap_in(columns: &mut Vec<Vec<CellValue>>, column: usize, row: usize, value: &mut CellValue)
    ensures columns { all_items columns.new.items
        ≡ set_in column row value.old (all_items columns.old.items) }
    ensures value { value.new ≡ slice_index_or
        (slice_index_or (all_items columns.old.items) column []) row value.old }
    ensures width { length columns.new.items ≡ length columns.old.items }
    ensures room { (r : ℕ) → HaveRoom 0 r columns.old.items → HaveRoom 0 r columns.new.items }
{
    if column < columns.len() {
        swap_at(&mut columns[column], row, value);
    }
}

// Puts a cell in at an index of each column.
fn insert_each(columns: &mut Vec<Vec<CellValue>>, index: usize, cells: Vec<CellValue>)
    requires each { length cells.items ≡ length columns.old.items }
    requires room { HaveRoom (length columns.old.items) 0 columns.old.items }
    ensures columns { all_items columns.new.items
        ≡ insert_each index cells.items (all_items columns.old.items) }
    ensures room { (r : ℕ) → HaveRoom (length columns.old.items) r columns.old.items
        → HaveRoom 0 r columns.new.items }
    ensures width { length columns.new.items ≡ length columns.old.items }
{
    let mut cells = cells;
    while let Some(cell) = cells.pop() {
        let column = cells.len();
        insert_reserved(&mut columns[column], index, cell);
    }
}

// Takes the cell at an index out of each column.
fn remove_each(columns: &mut Vec<Vec<CellValue>>, index: usize)
    ensures columns { all_items columns.new.items
        ≡ remove_each index (all_items columns.old.items) }
    ensures width { length columns.new.items ≡ length columns.old.items }
    ensures room { HaveRoom 0 0 columns.new.items }
{
    let mut left = columns.len();
    while 0 < left {
        left -= 1;
        remove_at(&mut columns[left], index);
    }
}

// Takes the cell at an index out of each column, and puts them behind one another.
fn take_each(columns: &mut Vec<Vec<CellValue>>, index: usize, taken: &mut Vec<CellValue>)
    requires height { AllByRecursion (λ v. index < length v) (all_items columns.old.items) }
    requires none { vec_len taken.old ≡ 0 }
    requires room { length columns.old.items ≤ vec_capacity taken.old }
    ensures columns { all_items columns.new.items
        ≡ remove_each index (all_items columns.old.items) }
    ensures cells { taken.new.items
        ≡ map (λ v. slice_index_or v index Null) (all_items columns.old.items) }
    ensures width { length columns.new.items ≡ length columns.old.items }
{
    for column in 0..columns.len() {
        taken.push_reserved(columns[column].remove(index));
    }
}

// Moves each column to where there is room for so many cells.
fn move_each(
    columns: &mut Vec<Vec<CellValue>>,
    rooms: Vec<Vec<CellValue>>,
    height: usize,
    more: usize,
)
    requires each { length rooms.items ≡ length columns.old.items }
    requires rooms { AreRooms (height + more) rooms.items }
    requires height { HaveHeight height (all_items columns.old.items) }
    ensures items { all_items columns.new.items ≡ all_items columns.old.items }
    ensures width { length columns.new.items ≡ length columns.old.items }
    ensures room { HaveRoom 0 more columns.new.items }
{
    let mut rooms = rooms;
    while let Some(room) = rooms.pop() {
        let column = rooms.len();
        move_to(&mut columns[column], room);
    }
}

// Makes room for so many rows more in each column.
fn reserve_each(columns: &mut Vec<Vec<CellValue>>, more: usize) -> Result<(), AllocError>
    ensures items { all_items columns.new.items ≡ all_items columns.old.items }
    ensures width { length columns.new.items ≡ length columns.old.items }
    ensures room { OnOk result (HaveRoom 0 more columns.new.items) }
    ensures none { HaveRoom 0 0 columns.new.items }
{
    let mut left = columns.len();
    while 0 < left {
        left -= 1;
        columns[left].reserve(more)?;
    }
    Ok(())
}

// A copy of the cells of a column.
fn copy_of_cells(alloc: Global, cells: &[CellValue]) -> Result<Vec<CellValue>, AllocError>
    ensures { IfOk result (λ v. v.items ≡ cells.now) }
{
    Ok(all_copied(alloc, cells, |value| copy_of(value))?)
}

// Copies of columns.
fn copies_of(alloc: Global, columns: &[Vec<CellValue>]) -> Result<Vec<Vec<CellValue>>, AllocError>
    ensures { IfOk result (λ v. all_items v.items ≡ all_items columns.now) }
{
    let mut copies = Vec::with_capacity(alloc, columns.len())?;
    for column in columns {
        copies.push(copy_of_cells(alloc, column)?)?;
    }
    Ok(copies)
}

impl CellColumns {
    /// A copy of the cells.
    ///
    /// Errors: out of memory.
    pub fn copy(&self, alloc: Global) -> Result<CellColumns, AllocError>
        ensures rows { IfOk result (λ cells. cells.rows ≡ self.now.rows) }
        ensures width { IfOk result (λ cells. cells.width ≡ self.now.width) }
    {
        let columns = copies_of(alloc, &self.columns)?;
        Ok(CellColumns {
            height: self.height,
            room: 0,
            columns,
        })
    }

    /// So many columns without rows.
    pub fn empty(alloc: Global, width: usize) -> Result<CellColumns, AllocError>
        ensures { IfOk result (λ cells. cells
            ≡ record { width = width; rows = []; room = 0 }) }
    {
        let columns = rooms_for(alloc, width, 0)?;
        Ok(CellColumns {
            height: 0,
            room: 0,
            columns,
        })
    }

    /// The number of rows.
    pub fn height(&self) -> usize
        ensures { result ≡ length self.now.rows }
    {
        self.height
    }

    /// The cell at the indexes of a row and a column.
    ///
    /// Memory: none. Cost: the same for every cell.
    pub fn get(&self, row: usize, column: usize) -> Option<&CellValue>
        ensures { option_copied result
            ≡ slice_get (slice_index_or self.now.rows row []) column }
    {
        self.columns.get(column)?.get(row)
    }

    /// Swaps a value with the one in its cell, where there is such a cell.
    ///
    /// Memory: none.
    pub fn swap(&mut self, row: usize, column: usize, value: &mut CellValue)
        ensures rows { self.new.rows
            ≡ slice_set self.old.rows row
            (slice_set (slice_index_or self.old.rows row []) column value.old) }
        ensures value { value.new
            ≡ slice_index_or (slice_index_or self.old.rows row []) column value.old }
        ensures width { self.new.width ≡ self.old.width }
        ensures room { self.new.room ≡ self.old.room }
    {
        swap_in(&mut self.columns, column, row, value);
    }

    /// Takes the row at an index out.
    ///
    /// Memory: none. Cost: that of moving what follows it, in each column.
    pub fn remove_row(&mut self, index: usize)
        requires { index < length self.old.rows }
        ensures rows { self.new.rows ≡ remove self.old.rows index }
        ensures width { self.new.width ≡ self.old.width }
    {
        remove_each(&mut self.columns, index);
        self.height -= 1;
        self.room = 0;
    }

    /// Puts a row in at an index, or at the end where the index is past it.
    ///
    /// Memory: none. Cost: that of moving what follows it, in each column.
    pub fn insert_row(&mut self, index: usize, cells: Vec<CellValue>)
        requires each { length cells.items ≡ self.old.width }
        requires room { 0 < self.old.room }
        requires few { self.old.room + length self.old.rows < 2 ^ 63 }
        ensures rows { self.new.rows ≡ insert self.old.rows index cells.items }
        ensures width { self.new.width ≡ self.old.width }
        ensures room { self.new.room + 1 ≡ self.old.room }
    {
        insert_each(&mut self.columns, index.min(self.height), cells);
        self.height += 1;
        self.room -= 1;
    }

    /// Makes room for so many rows more.
    ///
    /// Errors: out of memory; the cells are then as they were.
    pub fn reserve(&mut self, more: usize) -> Result<(), AllocError>
        ensures rows { self.new.rows ≡ self.old.rows }
        ensures width { self.new.width ≡ self.old.width }
        ensures room { OnOk result (self.new.room ≡ more) }
    {
        self.room = 0;
        reserve_each(&mut self.columns, more)?;
        self.room = more;
        Ok(())
    }

    /// Takes the row at an index out, where there is one.
    ///
    /// Memory: none. Cost: as `remove_row`.
    pub fn remove_at(&mut self, index: usize)
        ensures rows { self.new.rows ≡ remove self.old.rows index }
        ensures width { self.new.width ≡ self.old.width }
    {
        if index < self.height {
            self.remove_row(index);
        }
    }

    /// Takes the row at an index out, and gives its cells in the vector that is given for them.
    ///
    /// Memory: none. Cost: that of moving what follows it, in each column.
    pub fn take_row(&mut self, index: usize, taken: Vec<CellValue>) -> Vec<CellValue>
        requires within { index < length self.old.rows }
        requires none { vec_len taken ≡ 0 }
        requires room { self.old.width ≤ vec_capacity taken }
        ensures cells { result.items ≡ slice_index_or self.old.rows index [] }
        ensures rows { self.new.rows ≡ remove self.old.rows index }
        ensures width { self.new.width ≡ self.old.width }
        ensures each { length result.items ≡ self.old.width }
    {
        let mut taken = taken;
        take_each(&mut self.columns, index, &mut taken);
        self.height -= 1;
        self.room = 0;
        taken
    }

    /// Moves the cells to columns that have room for so many rows more.
    ///
    /// Memory: none. Cost: that of moving all cells.
    pub fn move_to(&mut self, rooms: Vec<Vec<CellValue>>, more: usize)
        requires each { length rooms.items ≡ self.old.width }
        requires rooms { AreRooms (length self.old.rows + more) rooms.items }
        ensures rows { self.new.rows ≡ self.old.rows }
        ensures width { self.new.width ≡ self.old.width }
        ensures room { self.new.room ≡ more }
    {
        move_each(&mut self.columns, rooms, self.height, more);
        self.room = more;
    }

    /// Puts a column in at an index.
    ///
    /// Errors: out of memory; the cells are then as they were.
    pub fn insert_column(&mut self, index: usize, cells: Vec<CellValue>) -> Result<(), AllocError>
        requires within { index ≤ self.old.width }
        requires height { length cells.items ≡ length self.old.rows }
        ensures rows { OnOk result
            (self.new.rows ≡ insert_beside index cells.items self.old.rows) }
        ensures width { OnOk result (self.new.width ≡ self.old.width + 1) }
        ensures err { OnErr result (self.new ≡ self.old) }
    {
        self.columns.insert(index, cells)?;
        self.room = 0;
        Ok(())
    }

    /// Takes the column at an index out.
    ///
    /// Memory: none.
    pub fn remove_column(&mut self, index: usize) -> Vec<CellValue>
        requires { index < self.old.width }
        ensures rows { self.new.rows ≡ map (λ row. remove row index) self.old.rows }
        ensures back { insert_beside index result.items self.new.rows ≡ self.old.rows }
        ensures height { length result.items ≡ length self.old.rows }
        ensures width { self.new.width + 1 ≡ self.old.width }
    {
        self.room = 0;
        self.columns.remove(index)
    }

    /// Puts a column in at an index, in columns for which there is room.
    ///
    /// Memory: none.
    pub fn put_column(&mut self, index: usize, cells: Vec<CellValue>, room: Vec<Vec<CellValue>>)
        requires within { index ≤ self.old.width }
        requires height { length cells.items ≡ length self.old.rows }
        requires room { self.old.width < vec_capacity room }
        ensures rows { self.new.rows ≡ insert_beside index cells.items self.old.rows }
        ensures width { self.new.width ≡ self.old.width + 1 }
    {
        move_to(&mut self.columns, room);
        insert_reserved(&mut self.columns, index, cells);
        self.room = 0;
    }
}
