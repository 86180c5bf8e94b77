//! User actions that tests ask for, and the plain words for them.

ghost use Rattle.std.specs.Prelude.{◌≡◌, true, None};
ghost use Rattle.doc_model.specs.DocumentLaws.{IsWhole};
ghost use Rattle.doc_model.specs.Changes.{IsView};
ghost use Rattle.doc_model.specs.WellFormed.{has_whole_columns};
ghost use Rattle.user_actions.specs.Allowed.{is_allowed};
ghost use Rattle.user_objections.specs.Objections.{objection_to};
ghost use Rattle.censored_view.specs.Readable.{whole};
ghost use Rattle.censored_view.specs.View.{view};

use crate::everything::Everything;
use Asked::{
    AddColumn, AddFullTable, AddRecord, AddTable, Give, Modify, RemoveColumn, RemoveRecord,
    RemoveTable, RenameTable,
};
use cell_types::{CellText, CellValue, ValueList};
use censored_view::whole_view;
use doc_model::{
    IdList, Refusal, UserAction, UserCol, UserColList, UserColumn, UserColumnList, View,
};
use row_tables::RowTables;
use std::alloc::{AllocError, Global};
use user_objections::refuse;
use view_refusals::allowed_view_law;

/// User actions: a new record or column `D` of `Table1`, a new table `New` of no columns or of that
/// one, and what is removed or renamed, the table first. A column of `Table1` is modified as it is
/// said to be: its type, whether it is a formula column, its formula. A number is given to a column
/// of it in row 1.
pub(crate) enum Asked {
    AddRecord,
    RemoveRecord(&'static str, i64),
    AddTable,
    AddFullTable,
    AddColumn,
    RenameTable(&'static str, &'static str),
    RemoveTable(&'static str),
    RemoveColumn(&'static str, &'static str),
    Modify(&'static str, Option<&'static str>, Option<bool>, Option<&'static str>),
    Give(&'static str),
}

fn text(alloc: Global, said: &str) -> Result<CellText, AllocError> {
    CellText::copy_of(alloc, said)
}

fn new_column(alloc: Global) -> Result<UserCol, AllocError> {
    let id = text(alloc, "D")?;
    Ok(UserCol {
        id,
        ty: None,
        is_formula: None,
        formula: None,
    })
}

fn add_record(alloc: Global) -> Result<UserAction, AllocError> {
    let table = text(alloc, "Table1")?;
    Ok(UserAction::Add {
        table,
        single: true,
        count: 1,
        has_row_ids: false,
        columns: UserColumnList::new(alloc),
    })
}

fn remove_record(alloc: Global, table: &str, row: i64) -> Result<UserAction, AllocError> {
    let rows = IdList::from(Vec::from_array(alloc, [row])?);
    let table = text(alloc, table)?;
    Ok(UserAction::Remove {
        table,
        single: true,
        rows,
    })
}

fn new_columns(alloc: Global) -> Result<UserColList, AllocError> {
    let mut columns = UserColList::new(alloc);
    columns.push(new_column(alloc)?)?;
    Ok(columns)
}

fn table_of(alloc: Global, columns: UserColList) -> Result<UserAction, AllocError> {
    let table = text(alloc, "New")?;
    Ok(UserAction::AddTable { table, columns })
}

fn full_table(alloc: Global) -> Result<UserAction, AllocError> {
    let columns = new_columns(alloc)?;
    table_of(alloc, columns)
}

fn add_column(alloc: Global) -> Result<UserAction, AllocError> {
    let column = new_column(alloc)?;
    let table = text(alloc, "Table1")?;
    Ok(UserAction::AddColumn { table, column })
}

fn rename_table(alloc: Global, table: &str, new: &str) -> Result<UserAction, AllocError> {
    let table = text(alloc, table)?;
    let new = text(alloc, new)?;
    Ok(UserAction::RenameTable { table, new })
}

fn remove_table(alloc: Global, table: &str) -> Result<UserAction, AllocError> {
    let table = text(alloc, table)?;
    Ok(UserAction::RemoveTable { table })
}

fn remove_column(alloc: Global, table: &str, id: &str) -> Result<UserAction, AllocError> {
    let table = text(alloc, table)?;
    let column = text(alloc, id)?;
    Ok(UserAction::RemoveColumn { table, column })
}

fn text_or_none(alloc: Global, said: Option<&str>) -> Result<Option<CellText>, AllocError> {
    match said {
        Some(said) => Ok(Some(text(alloc, said)?)),
        None => Ok(None),
    }
}

fn column_said(
    alloc: Global,
    id: &str,
    ty: Option<&str>,
    is_formula: Option<bool>,
    formula: Option<&str>,
) -> Result<UserCol, AllocError> {
    let ty = text_or_none(alloc, ty)?;
    let formula = text_or_none(alloc, formula)?;
    Ok(UserCol {
        id: text(alloc, id)?,
        ty,
        is_formula,
        formula,
    })
}

fn modify(
    alloc: Global,
    id: &str,
    ty: Option<&str>,
    is_formula: Option<bool>,
    formula: Option<&str>,
) -> Result<UserAction, AllocError> {
    let column = column_said(alloc, id, ty, is_formula, formula)?;
    let table = text(alloc, "Table1")?;
    Ok(UserAction::ModifyColumn { table, column })
}

fn number_in(alloc: Global, id: &str) -> Result<UserColumnList, AllocError> {
    let values = ValueList::from(Vec::from_array(alloc, [CellValue::Int(5)])?);
    let id = text(alloc, id)?;
    let mut columns = UserColumnList::new(alloc);
    columns.push(UserColumn { id, values })?;
    Ok(columns)
}

fn give(alloc: Global, id: &str) -> Result<UserAction, AllocError> {
    let columns = number_in(alloc, id)?;
    let rows = IdList::from(Vec::from_array(alloc, [1])?);
    let table = text(alloc, "Table1")?;
    Ok(UserAction::Update {
        table,
        single: true,
        rows,
        columns,
    })
}

/// The user action that the words stand for.
pub(crate) fn user_action(alloc: Global, asked: &Asked) -> Result<UserAction, AllocError> {
    match asked {
        AddRecord => add_record(alloc),
        RemoveRecord(table, row) => remove_record(alloc, table, *row),
        AddTable => table_of(alloc, UserColList::new(alloc)),
        AddFullTable => full_table(alloc),
        AddColumn => add_column(alloc),
        RenameTable(table, new) => rename_table(alloc, table, new),
        RemoveTable(table) => remove_table(alloc, table),
        RemoveColumn(table, id) => remove_column(alloc, table, id),
        Modify(id, ty, is_formula, formula) => modify(alloc, id, *ty, *is_formula, *formula),
        Give(id) => give(alloc, id),
    }
}

// Whether the action gives no values, so that it gives each column once.
fn is_bare(action: &UserAction) -> bool
    ensures { result ≡ true → has_whole_columns action.now ≡ true }
{
    match action {
        UserAction::Add { columns, .. } => columns.is_empty(),
        UserAction::Update { .. } => false,
        _ => true,
    }
}

// Whether nothing stands against the action in the view.
fn is_unopposed(alloc: Global, view: &View, action: &UserAction) -> bool
    requires { IsView view.now.tables }
    ensures { result ≡ true → objection_to view.now.tables action.now ≡ None }
{
    matches!(refuse(alloc, view, action), Ok(None))
}

// Whether nothing stands against the action where everything is seen.
#[tactic(auto, using(doc_model::proofs::LaidOutLaws::laid_out))]
fn is_unrefused(alloc: Global, document: &RowTables, action: &UserAction) -> bool
    requires { IsWhole document.now }
    ensures { result ≡ true → objection_to (view (λ table. whole) document.now) action.now ≡ None }
{
    match whole_view(alloc, &Everything, document) {
        Ok(view) => is_unopposed(alloc, &view, action),
        Err(_) => false,
    }
}

/// Whether nothing stands against the action, which gives no values: it has steps then.
#[tactic(auto, using(crate::proofs::Allowed::allowed_here))]
pub(crate) fn may_be_done(alloc: Global, document: &RowTables, action: &UserAction) -> bool
    requires { IsWhole document.now }
    ensures allowed { result ≡ true → is_allowed document.now action.now ≡ true }
    ensures whole_columns { result ≡ true → has_whole_columns action.now ≡ true }
{
    allowed_view_law();
    is_unrefused(alloc, document, action) && is_bare(action)
}

// Whether this is the name of the refusal, or empty and there is none.
fn is_name(answer: &Result<Option<Refusal>, AllocError>, want: &str) -> bool {
    match answer {
        Ok(None) => want.is_empty(),
        Ok(Some(refusal)) => refusal.name() == want,
        Err(_) => false,
    }
}

fn is_refused_in(alloc: Global, view: &View, action: &UserAction, want: &str) -> bool
    requires { IsView view.now.tables }
{
    is_name(&refuse(alloc, view, action), want)
}

/// Whether the action is refused by this name, or by none where that is empty.
#[tactic(auto, using(doc_model::proofs::LaidOutLaws::laid_out))]
pub(crate) fn is_refused(
    alloc: Global,
    document: &RowTables,
    action: &UserAction,
    want: &str,
) -> bool
    requires { IsWhole document.now }
{
    match whole_view(alloc, &Everything, document) {
        Ok(view) => is_refused_in(alloc, &view, action, want),
        Err(_) => false,
    }
}
