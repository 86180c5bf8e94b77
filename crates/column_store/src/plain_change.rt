//! Plain tables that change, come or go at their places, and what takes that back.

ghost use Rattle.std.specs.Prelude.{◌≡◌, ◌<◌, ◌≤◌, true, false, IfOk, OnErr, OnOk, length, slice_get, vec_len};
ghost use Rattle.std.specs.List.{insert, remove};
ghost use Rattle.doc_model.specs.Apply.{new_table};
ghost use Rattle.doc_model.specs.ByIds.{AreDistinct, find_id, has_id, without_id};
ghost use Rattle.doc_model.specs.Column.{column_row};
ghost use Rattle.doc_model.specs.Document.{by_row, put_by_row, table_id, table_row, with_table};
ghost use Rattle.doc_model.specs.DocumentLaws.{IsWhole};
ghost use Rattle.doc_model.specs.Valid.{valid};
ghost use Rattle.column_store.specs.Back.{plain_back, plain_fits};
ghost use Rattle.row_tables.specs.Steps.{is_record, plain_after, table_change, table_named};

use crate::copies::{copy_of_column, copy_of_name};
use crate::in_place::{insert_reserved, move_to, remove_at};
use crate::reshaped::TableBack;
use crate::schema::without_rows;
use crate::steps::{index_by_row, index_of_table, table_named};
use crate::table::ColumnTable;
use cell_types::Name;
use doc_model::{ColDef, DocAction, index_of_column};
use std::alloc::{AllocError, Global};

/// What takes back the change of a plain table: what does so in its place, the index of one that
/// came, or one that went, with room for all tables.
#[derive(Drop)]
pub(crate) enum PlainChange {
    Changed {
        index: usize,
        back: TableBack,
    },
    Came {
        index: usize,
    },
    Went {
        index: usize,
        old: ColumnTable,
        room: Vec<ColumnTable>,
    },
}

// Puts a table in at an index.
fn insert_table(
    tables: &mut Vec<ColumnTable>,
    index: usize,
    new: ColumnTable,
) -> Result<PlainChange, AllocError>
    requires { index ≤ vec_len tables.old }
    ensures done { OnOk result (tables.new.items ≡ insert tables.old.items index new) }
    ensures back { IfOk result (λ change. plain_back change tables.new.items ≡ tables.old.items) }
    ensures fit { IfOk result (λ change. plain_fits change tables.new.items) }
    ensures err { OnErr result (tables.new.items ≡ tables.old.items) }
{
    tables.insert(index, new)?;
    Ok(PlainChange::Came { index })
}

// Takes the table at an index out, once there is room for all tables.
fn take_table(tables: &mut Vec<ColumnTable>, index: usize) -> Result<PlainChange, AllocError>
    requires { index < vec_len tables.old }
    ensures done { OnOk result (tables.new.items ≡ remove tables.old.items index) }
    ensures back { IfOk result (λ change. plain_back change tables.new.items ≡ tables.old.items) }
    ensures fit { IfOk result (λ change. plain_fits change tables.new.items) }
    ensures err { OnErr result (tables.new.items ≡ tables.old.items) }
{
    let room = Vec::with_capacity(*tables.allocator(), tables.len())?;
    let old = tables.remove(index);
    Ok(PlainChange::Went { index, old, room })
}

// The index of the table of this id, which is there.
fn found_index(tables: &[ColumnTable], guess: Option<usize>, id: &Name) -> usize
    requires distinct { AreDistinct table_id tables.now }
    requires there { has_id table_id tables.now id.now ≡ true }
    ensures within { result < length tables.now }
    ensures found { slice_get tables.now result ≡ find_id table_id id.now tables.now }
{
    let Some(index) = index_of_table(tables, guess, id) else {
        unreachable!()
    };
    index
}

// Puts a column before the first one with a greater row.
fn put_column(columns: &mut Vec<ColDef>, column: ColDef) -> Result<(), AllocError>
    ensures { IfOk result
        (λ _. columns.new.items ≡ put_by_row column_row column columns.old.items) }
{
    let index = index_of_column(columns, column.row);
    columns.insert(index, column)?;
    Ok(())
}

// The columns in the order of their rows.
fn columns_by_row(alloc: Global, columns: &[ColDef]) -> Result<Vec<ColDef>, AllocError>
    ensures { IfOk result (λ v. v.items ≡ by_row column_row columns.now) }
{
    let mut sorted = Vec::with_capacity(alloc, columns.len())?;
    for passed in 0..columns.len() {
        let column = copy_of_column(&columns[columns.len() - 1 - passed])?;
        put_column(&mut sorted, column)?;
    }
    Ok(sorted)
}

// A table of these columns in the order of their rows, without rows.
fn new_table(
    alloc: Global,
    id: &Name,
    row: u32,
    columns: &[ColDef],
) -> Result<ColumnTable, AllocError>
    ensures { IfOk result (λ t. t ≡ new_table id.now row columns.now) }
{
    let columns = columns_by_row(alloc, columns)?;
    let id = copy_of_name(id)?;
    Ok(without_rows(alloc, id, row, columns)?)
}

// Adds a table without rows.
fn add_table(
    tables: &mut Vec<ColumnTable>,
    id: &Name,
    row: u32,
    columns: &[ColDef],
) -> Result<PlainChange, AllocError>
    ensures done { OnOk result
        (tables.new.items
        ≡ put_by_row table_row (new_table id.now row columns.now) tables.old.items) }
    ensures back { IfOk result (λ change. plain_back change tables.new.items ≡ tables.old.items) }
    ensures fit { IfOk result (λ change. plain_fits change tables.new.items) }
    ensures err { OnErr result (tables.new.items ≡ tables.old.items) }
{
    let new = new_table(*tables.allocator(), id, row, columns)?;
    let index = index_by_row(tables, row);
    insert_table(tables, index, new)
}

// Removes the table of this id.
fn remove_table(
    tables: &mut Vec<ColumnTable>,
    guess: Option<usize>,
    id: &Name,
) -> Result<PlainChange, AllocError>
    requires distinct { AreDistinct table_id tables.old.items }
    requires there { has_id table_id tables.old.items id.now ≡ true }
    ensures done { OnOk result (tables.new.items ≡ without_id table_id id.now tables.old.items) }
    ensures back { IfOk result (λ change. plain_back change tables.new.items ≡ tables.old.items) }
    ensures fit { IfOk result (λ change. plain_fits change tables.new.items) }
    ensures err { OnErr result (tables.new.items ≡ tables.old.items) }
{
    let index = found_index(tables, guess, id);
    take_table(tables, index)
}

// Changes the table that the action names, in place.
fn change_table(
    tables: &mut Vec<ColumnTable>,
    guess: Option<usize>,
    action: &DocAction,
) -> Result<PlainChange, AllocError>
    requires whole { IsWhole tables.old.items }
    requires valid { valid tables.old.items action.now ≡ true }
    requires there { has_id table_id tables.old.items (table_named action.now) ≡ true }
    requires schema { is_record action.now ≡ false }
    ensures done { OnOk result
        (tables.new.items
        ≡ with_table (table_named action.now) (table_change action.now) tables.old.items) }
    ensures back { IfOk result (λ change. plain_back change tables.new.items ≡ tables.old.items) }
    ensures fit { IfOk result (λ change. plain_fits change tables.new.items) }
    ensures err { OnErr result (tables.new.items ≡ tables.old.items) }
{
    let index = found_index(tables, guess, table_named(action));
    let back = tables[index].reshape(action)?;
    Ok(PlainChange::Changed { index, back })
}

/// Changes the plain tables as a schema action does. The table that it names is looked for at a
/// guess first.
///
/// All tables are walked: no schema action names a metadata table, and their row is 0, so that no
/// new table goes before them.
///
/// Errors: out of memory; all tables are then as they were. Cost: linear in the tables, which stay
/// where they are or move by one place, and that of the changed table.
pub(crate) fn change_plain(
    tables: &mut Vec<ColumnTable>,
    guess: Option<usize>,
    action: &DocAction,
) -> Result<PlainChange, AllocError>
    requires whole { IsWhole tables.old.items }
    requires valid { valid tables.old.items action.now ≡ true }
    requires schema { is_record action.now ≡ false }
    ensures done { OnOk result (tables.new.items ≡ plain_after action.now tables.old.items) }
    ensures back { IfOk result (λ change. plain_back change tables.new.items ≡ tables.old.items) }
    ensures fit { IfOk result (λ change. plain_fits change tables.new.items) }
    ensures err { OnErr result (tables.new.items ≡ tables.old.items) }
{
    match action {
        DocAction::AddTable {
            table,
            row,
            columns,
        } => add_table(tables, table, *row, columns.as_slice()),
        DocAction::RemoveTable { table } => remove_table(tables, guess, table),
        _ => change_table(tables, guess, action),
    }
}

/// Takes such a change back.
///
/// Memory: none.
pub(crate) fn take_plain_back(tables: &mut Vec<ColumnTable>, change: PlainChange)
    requires { plain_fits change tables.old.items }
    ensures { tables.new.items ≡ plain_back change tables.old.items }
{
    match change {
        PlainChange::Changed { index, back } => {
            if index < tables.len() {
                tables[index].reshape_back(back);
            }
        }
        PlainChange::Came { index } => remove_at(tables, index),
        PlainChange::Went { index, old, room } => {
            move_to(tables, room);
            insert_reserved(tables, index, old);
        }
    }
}
