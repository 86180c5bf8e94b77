//! The steps of schema actions.

ghost use Rattle.std.specs.Prelude.{◌≡◌, ◌<◌, ◌≤◌, ◌+◌, ◌++◌, [], ◌∷◌, true, false, cond, length, max, bytes_eq, IfOk, MatchOption};
ghost use Rattle.std.specs.List.{list_all};
ghost use Rattle.cell_types.specs.NameRule.{is_name};
ghost use Rattle.doc_model.specs.DocumentLaws.{IsWhole};
ghost use Rattle.doc_model.specs.MetadataIds.{columns_id, tables_id};
ghost use Rattle.doc_model.specs.declared.action.DocAction.TheVariants.{AddColumn, AddTable, RenameColumn, RenameTable};
ghost use Rattle.name_rules.specs.FreeName.{IsFresh, free_name};
ghost use Rattle.user_actions.specs.Given.{has_good_id};
ghost use Rattle.user_actions.specs.StepLaws.{AreFresh};
ghost use Rattle.user_actions.specs.Marked.{direct};
ghost use Rattle.user_actions.specs.Steps.{column_ids, column_renaming, column_said, last_row, new_column, new_columns, renaming, table_ids, table_said};

use crate::columns::new_info_said;
use crate::leading::add_led;
use crate::record_steps::direct;
use crate::referrers::referrers;
use crate::resource_steps::{add_columns_moved, add_tables_moved};
use crate::table_readers::{column_ids, last_row, table_ids};
use cell_types::Name;
use doc_model::{ColDef, ColDefList, DocAction, DocTables, LAST_ROW_ID, StepList, UserCol};
use doc_readers::{columns_table, tables_table};
use name_rules::{free_name, name_of};
use std::alloc::{AllocError, Global};

// A new id beside the taken ones.
fn free_id(alloc: Global, taken: &[Name], wanted: &str) -> Result<Name, AllocError>
    requires { is_name wanted.now ≡ true }
    ensures made { IfOk result (λ n. n ≡ free_name taken.now wanted.now) }
    ensures fresh { IfOk result (λ _. IsFresh taken.now wanted.now) }
{
    let wanted = name_of(alloc, wanted)?;
    let id = free_name(alloc, &wanted, taken)?;
    Ok(id)
}

// A new id beside those of all tables.
fn new_table_id<D: DocTables>(alloc: Global, tables: &D, wanted: &str) -> Result<Name, AllocError>
    requires whole { IsWhole (D.document tables.now) }
    requires name { is_name wanted.now ≡ true }
    ensures made { IfOk result (λ n. n ≡ free_name (table_ids (D.document tables.now)) wanted.now) }
    ensures fresh { IfOk result (λ _. IsFresh (table_ids (D.document tables.now)) wanted.now) }
{
    let known = table_ids(alloc, tables)?;
    let id = free_id(alloc, &known, wanted)?;
    Ok(id)
}

// A new id beside those of a table's columns.
fn new_column_id<D: DocTables>(
    alloc: Global,
    tables: &D,
    table: &Name,
    wanted: &str,
) -> Result<Name, AllocError>
    requires whole { IsWhole (D.document tables.now) }
    requires name { is_name wanted.now ≡ true }
    ensures made { IfOk result
        (λ n. n ≡ free_name (column_ids (D.document tables.now) table.now) wanted.now) }
    ensures fresh { IfOk result
        (λ _. IsFresh (column_ids (D.document tables.now) table.now) wanted.now) }
{
    let known = column_ids(alloc, tables, table)?;
    let id = free_id(alloc, &known, wanted)?;
    Ok(id)
}

// A new column beside those of these ids, which that row describes.
fn new_column(
    alloc: Global,
    taken: &[Name],
    row: u32,
    column: &UserCol,
) -> Result<ColDef, AllocError>
    requires { has_good_id column.now ≡ true }
    ensures made { IfOk result (λ d. d ≡ new_column taken.now row column.now) }
    ensures fresh { IfOk result (λ _. IsFresh taken.now column.now.id) }
{
    Ok(ColDef {
        id: free_id(alloc, taken, column.id.as_str())?,
        info: new_info_said(alloc, column)?,
        row,
    })
}

// Adds an id to the taken ones.
fn note_id(taken: &mut Vec<Name>, id: &Name) -> Result<(), AllocError>
    ensures { IfOk result (λ _. taken.new.items ≡ taken.old.items ++ id.now ∷ []) }
{
    taken.push(id.clone()?)?;
    Ok(())
}

// Adds a new column, and its id to the taken ones.
fn add_column(
    alloc: Global,
    taken: &mut Vec<Name>,
    made: &mut Vec<ColDef>,
    row: u32,
    column: &UserCol,
) -> Result<(), AllocError>
    requires { has_good_id column.now ≡ true }
    ensures made { IfOk result
        (λ _. made.new.items ≡ made.old.items ++ new_column taken.old.items row column.now ∷ []) }
    ensures taken { IfOk result
        (λ _. taken.new.items ≡ taken.old.items ++ free_name taken.old.items column.now.id ∷ []) }
    ensures fresh { IfOk result (λ _. IsFresh taken.old.items column.now.id) }
{
    let column = new_column(alloc, taken, row, column)?;
    note_id(taken, &column.id)?;
    made.push(column)?;
    Ok(())
}

// The columns of a new table, where their rows do not pass the last row id. Their ids are found in
// any case, so that the action is known for a valid one.
fn new_columns(alloc: Global, last: u32, columns: &[UserCol]) -> Result<ColDefList, AllocError>
    requires { list_all has_good_id columns.now ≡ true }
    ensures made { IfOk result
        (λ l. last + length columns.now ≤ 4294967295 → l ≡ new_columns [] last columns.now) }
    ensures fresh { IfOk result (λ _. AreFresh [] columns.now) }
{
    let mut taken = Vec::new(alloc);
    let mut made = Vec::with_capacity(alloc, columns.len())?;
    let mut row = last;
    for column in columns {
        row = row.saturating_add(1);
        add_column(alloc, &mut taken, &mut made, row, column)?;
    }
    Ok(ColDefList::from(made))
}

// The action that adds a table, where its rows do not pass the last row id.
fn table_said<D: DocTables>(
    alloc: Global,
    tables: &D,
    table: &str,
    row: u32,
    last: u32,
    columns: &[UserCol],
) -> Result<DocAction, AllocError>
    requires whole { IsWhole (D.document tables.now) }
    requires name { is_name table.now ≡ true }
    requires names { list_all has_good_id columns.now ≡ true }
    ensures made { IfOk result
        (λ a. last + length columns.now ≤ 4294967295 → a
        ≡ AddTable (free_name (table_ids (D.document tables.now)) table.now) row
        (new_columns [] last columns.now)) }
    ensures fresh { IfOk result
        (λ _. IsFresh (table_ids (D.document tables.now)) table.now × AreFresh [] columns.now) }
{
    let table = new_table_id(alloc, tables, table)?;
    let columns = new_columns(alloc, last, columns)?;
    Ok(DocAction::AddTable {
        table,
        row,
        columns,
    })
}

// A new column beside those of a table, which that row describes.
fn column_beside<D: DocTables>(
    alloc: Global,
    tables: &D,
    table: &Name,
    row: u32,
    column: &UserCol,
) -> Result<ColDef, AllocError>
    requires whole { IsWhole (D.document tables.now) }
    requires name { has_good_id column.now ≡ true }
    ensures made { IfOk result
        (λ d. d ≡ new_column (column_ids (D.document tables.now) table.now) row column.now) }
    ensures fresh { IfOk result
        (λ _. IsFresh (column_ids (D.document tables.now) table.now) column.now.id) }
{
    let known = column_ids(alloc, tables, table)?;
    let made = new_column(alloc, &known, row, column)?;
    Ok(made)
}

// The action that adds a column, which that row describes.
fn column_said<D: DocTables>(
    alloc: Global,
    tables: &D,
    table: &Name,
    row: u32,
    column: &UserCol,
) -> Result<DocAction, AllocError>
    requires whole { IsWhole (D.document tables.now) }
    requires name { has_good_id column.now ≡ true }
    ensures made { IfOk result
        (λ a. a ≡ AddColumn table.now
        (new_column (column_ids (D.document tables.now) table.now) row column.now)) }
    ensures fresh { IfOk result
        (λ _. IsFresh (column_ids (D.document tables.now) table.now) column.now.id) }
{
    let column = column_beside(alloc, tables, table, row, column)?;
    let table = table.clone()?;
    Ok(DocAction::AddColumn { table, column })
}

// The steps; nothing where the greatest of their rows would pass the last row id. They are made
// before that is asked, since an action that is dropped alone has by far the dearer proof.
fn unless_past(greatest: u64, steps: StepList) -> Option<StepList>
    ensures { MatchOption result (4294967295 < greatest)
        (λ l. (greatest ≤ 4294967295) × (l ≡ steps)) }
{
    if LAST_ROW_ID < greatest {
        return None;
    }
    Some(steps)
}

fn renamed_table(alloc: Global, table: &Name, new: &Name) -> Result<StepList, AllocError>
    ensures { IfOk result (λ l. l ≡ direct (RenameTable table.now new.now) ∷ []) }
{
    let action = DocAction::RenameTable {
        table: table.clone()?,
        new: new.clone()?,
    };
    direct(alloc, action)
}

// A table under a new id, then the columns that refer to it, and the resources that name it.
fn renaming<D: DocTables>(
    alloc: Global,
    tables: &D,
    table: &Name,
    new: &Name,
) -> Result<StepList, AllocError>
    requires { IsWhole (D.document tables.now) }
    ensures { IfOk result (λ l. l ≡ renaming (D.document tables.now) table.now new.now) }
{
    let mut steps = renamed_table(alloc, table, new)?;
    let known = referrers(alloc, tables, table, new, true)?;
    add_led(new, &known, &mut steps)?;
    add_tables_moved(alloc, tables, table, new, &mut steps)?;
    Ok(steps)
}

/// The steps that rename a table.
pub(crate) fn rename_table_steps<D: DocTables>(
    alloc: Global,
    tables: &D,
    table: &Name,
    new: &str,
) -> Result<StepList, AllocError>
    requires whole { IsWhole (D.document tables.now) }
    requires name { is_name new.now ≡ true }
    ensures fresh { IfOk result
        (λ _. bytes_eq table.now new.now ≡ false
        → IsFresh (table_ids (D.document tables.now)) new.now) }
    ensures made { IfOk result
        (λ l. l ≡ cond (bytes_eq table.now new.now) []
        (renaming (D.document tables.now) table.now
        (free_name (table_ids (D.document tables.now)) new.now))) }
{
    if table.as_str() == new {
        return Ok(StepList::new(alloc));
    }
    let new = new_table_id(alloc, tables, new)?;
    let steps = renaming(alloc, tables, table, &new)?;
    Ok(steps)
}

fn renamed_column(
    alloc: Global,
    table: &Name,
    column: &Name,
    new: &Name,
) -> Result<StepList, AllocError>
    ensures { IfOk result (λ l. l ≡ direct (RenameColumn table.now column.now new.now) ∷ []) }
{
    let action = DocAction::RenameColumn {
        table: table.clone()?,
        column: column.clone()?,
        new: new.clone()?,
    };
    direct(alloc, action)
}

// A column under a new id, and then the resources that list it.
fn column_renaming<D: DocTables>(
    alloc: Global,
    tables: &D,
    table: &Name,
    column: &Name,
    new: &Name,
) -> Result<StepList, AllocError>
    requires { IsWhole (D.document tables.now) }
    ensures { IfOk result
        (λ l. l ≡ column_renaming (D.document tables.now) table.now column.now new.now) }
{
    let mut steps = renamed_column(alloc, table, column, new)?;
    add_columns_moved(alloc, tables, table, column, new, &mut steps)?;
    Ok(steps)
}

/// The steps that rename a column.
pub(crate) fn rename_column_steps<D: DocTables>(
    alloc: Global,
    tables: &D,
    table: &Name,
    column: &str,
    new: &str,
) -> Result<StepList, AllocError>
    requires whole { IsWhole (D.document tables.now) }
    requires old { is_name column.now ≡ true }
    requires name { is_name new.now ≡ true }
    ensures fresh { IfOk result
        (λ _. bytes_eq column.now new.now ≡ false
        → IsFresh (column_ids (D.document tables.now) table.now) new.now) }
    ensures made { IfOk result
        (λ l. l ≡ cond (bytes_eq column.now new.now) []
        (column_renaming (D.document tables.now) table.now column.now
        (free_name (column_ids (D.document tables.now) table.now) new.now))) }
{
    if column == new {
        return Ok(StepList::new(alloc));
    }
    let new = new_column_id(alloc, tables, table, new)?;
    let column = name_of(alloc, column)?;
    let steps = column_renaming(alloc, tables, table, &column, &new)?;
    Ok(steps)
}

/// The steps that add a table; nothing where a row would pass the last row id.
pub(crate) fn add_table_steps<D: DocTables>(
    alloc: Global,
    tables: &D,
    table: &str,
    columns: &[UserCol],
) -> Result<Option<StepList>, AllocError>
    requires whole { IsWhole (D.document tables.now) }
    requires name { is_name table.now ≡ true }
    requires names { list_all has_good_id columns.now ≡ true }
    ensures fresh { IfOk result
        (λ _. IsFresh (table_ids (D.document tables.now)) table.now × AreFresh [] columns.now) }
    ensures made { IfOk result
        (λ o. MatchOption o
        (4294967295
        < max (last_row (D.document tables.now) tables_id + 1)
        (last_row (D.document tables.now) columns_id + length columns.now))
        (λ l. l ≡ direct (table_said (D.document tables.now) table.now columns.now) ∷ [])) }
{
    let row = last_row(tables, tables_table(tables));
    let last = last_row(tables, columns_table(tables));
    let greatest = (row as u64 + 1).max((last as u64).saturating_add(columns.len() as u64));
    let action = table_said(alloc, tables, table, row.saturating_add(1), last, columns)?;
    let steps = direct(alloc, action)?;
    Ok(unless_past(greatest, steps))
}

/// The steps that add a column; nothing where its row would pass the last row id.
pub(crate) fn add_column_steps<D: DocTables>(
    alloc: Global,
    tables: &D,
    table: &Name,
    column: &UserCol,
) -> Result<Option<StepList>, AllocError>
    requires whole { IsWhole (D.document tables.now) }
    requires name { has_good_id column.now ≡ true }
    ensures fresh { IfOk result
        (λ _. IsFresh (column_ids (D.document tables.now) table.now) column.now.id) }
    ensures made { IfOk result
        (λ o. MatchOption o (4294967295 < last_row (D.document tables.now) columns_id + 1)
        (λ l. l ≡ direct
        (AddColumn table.now (column_said (D.document tables.now) table.now column.now)) ∷ [])) }
{
    let last = last_row(tables, columns_table(tables));
    let action = column_said(alloc, tables, table, last.saturating_add(1), column)?;
    let steps = direct(alloc, action)?;
    Ok(unless_past(last as u64 + 1, steps))
}
