//! The columns of all tables, as the table of columns describes them.

ghost use Rattle.std.specs.Prelude.{◌≡◌, IfOk};
ghost use Rattle.doc_model.specs.Schema.{all_columns, described_row, in_order, put_described};
ghost use Rattle.row_tables.specs.Spots.{columns_of, described_index, put_all, stands_at};

use crate::RowTable;
use crate::copies::copy_of_column;
use doc_model::ColDef;
use std::alloc::{AllocError, Global};
use std::marker::Model;

/// A column, and the row of its table.
#[derive(Drop)]
pub(crate) struct Described {
    pub(crate) parent: u32,
    pub(crate) column: ColDef,
}

impl Model for Described {
    ghost use Rattle.doc_model.specs.Schema.{Described as Told};
    ghost use Rattle.row_tables.specs.TableCode.{coded_described};

    ghost Value = { Told };

    ghost coded = { coded_described };

    ghost view = { λ e. record { parent = e.parent; column = e.column } };
}

impl Described {
    /// The row that describes the column.
    pub(crate) fn row(&self) -> u32
        ensures { result ≡ described_row self.now }
    {
        self.column.row
    }

    // A copy of a column, and the row of its table.
    fn of(parent: u32, column: &ColDef) -> Result<Described, AllocError>
        ensures { IfOk result (λ e. e ≡ record { parent = parent; column = column.now }) }
    {
        Ok(Described {
            parent,
            column: copy_of_column(column)?,
        })
    }
}

// The first one whose row is not below, or the end.
fn index_of(sorted: &[Described], row: u32) -> usize
    ensures { result ≡ described_index row sorted.now }
{
    for (index, other) in sorted.iter().enumerate() {
        if row <= other.row() {
            return index;
        }
    }
    sorted.len()
}

// Whether a column of that row stands at the index.
fn stands_at(sorted: &[Described], index: usize, row: u32) -> bool
    ensures { result ≡ stands_at row index sorted.now }
{
    match sorted.get(index) {
        Some(other) => other.row() == row,
        None => false,
    }
}

// Puts a column into its place, instead of one with its row.
fn put_described(sorted: &mut Vec<Described>, one: Described) -> Result<(), AllocError>
    ensures { IfOk result (λ _. sorted.new.items ≡ put_described one sorted.old.items) }
{
    let index = index_of(sorted, one.row());
    if stands_at(sorted, index, one.row()) {
        sorted[index] = one;
    } else {
        sorted.insert(index, one)?;
    }
    Ok(())
}

// Puts the columns of a table into their places, the last one first.
fn put_columns(sorted: &mut Vec<Described>, table: &RowTable) -> Result<(), AllocError>
    ensures { IfOk result
        (λ _. sorted.new.items
        ≡ put_all (columns_of table.now.row table.now.grid.columns) sorted.old.items) }
{
    let parent = table.row();
    let columns = table.columns();
    for passed in 0..columns.len() {
        let column = &columns[columns.len() - 1 - passed];
        put_described(sorted, Described::of(parent, column)?)?;
    }
    Ok(())
}

/// The columns of all tables, in the order of their rows.
///
/// Cost: the square of their number.
pub(crate) fn columns_in_order(
    alloc: Global,
    plain: &[RowTable],
) -> Result<Vec<Described>, AllocError>
    ensures { IfOk result (λ v. v.items ≡ in_order (all_columns plain.now)) }
{
    let mut sorted = Vec::new(alloc);
    for passed in 0..plain.len() {
        put_columns(&mut sorted, &plain[plain.len() - 1 - passed])?;
    }
    Ok(sorted)
}
