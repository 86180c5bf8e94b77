//! What the rename of a column makes of the columns that a view shows.

ghost use Rattle.std.specs.Prelude.{◌≡◌, ◌∷◌, [], Some, IfOk, OnOk};
ghost use Rattle.rename_flow.specs.ColumnParts.{column_parts, formula_part, id_after, is_about_metadata, is_at, is_renamed, leads_to_metadata, modified, parts_at, table_parts, type_part};
ghost use Rattle.rename_flow.specs.Parts.{with_part, with_parts};

use crate::rename_plan::RenamePlan;
use crate::text_change::{TextChange, formula_change};
use cell_types::{CellText, ColType};
use doc_model::{UserAction, UserCol, ViewCol, ViewTable};
use doc_readers::is_metadata_id;
use rename_marks::{ColumnRename, FormulaPlace};
use std::alloc::{AllocError, Global};

/// Where a column stands after the rename: before the new place of the renamed one, in it, or
/// behind it.
#[derive(Clone, Copy)]
pub enum Place {
    Before,
    Renamed,
    Behind,
}

fn is_renamed(rename: &ColumnRename, table: &ViewTable, column: &ViewCol) -> bool
    ensures { result ≡ is_renamed rename.now table.now column.now }
{
    table.id.as_str() == rename.table.as_str() && column.id.as_str() == rename.old.as_str()
}

fn is_at(rename: &ColumnRename, table: &ViewTable, place: Place, column: &ViewCol) -> bool
    ensures { result ≡ is_at rename.now table.now place column.now }
{
    let is_renamed = is_renamed(rename, table, column);
    let is_before = table.id.as_str() != rename.table.as_str()
        || column.id.as_str() < rename.new.as_str();
    match place {
        Place::Renamed => is_renamed,
        Place::Before => !is_renamed && is_before,
        Place::Behind => !is_renamed && !is_before,
    }
}

fn id_after(
    alloc: Global,
    rename: &ColumnRename,
    table: &ViewTable,
    column: &ViewCol,
) -> Result<CellText, AllocError>
    ensures { IfOk result (λ t. t ≡ id_after rename.now table.now column.now) }
{
    if is_renamed(rename, table, column) {
        return rename.new.clone();
    }
    CellText::copy_of(alloc, column.id.as_str())
}

// A new formula as an action.
fn modified(
    alloc: Global,
    rename: &ColumnRename,
    table: &ViewTable,
    column: &ViewCol,
    formula: CellText,
) -> Result<UserAction, AllocError>
    ensures { IfOk result (λ a. a ∷ []
        ≡ modified rename.now table.now column.now (Some formula)) }
{
    let id = id_after(alloc, rename, table, column)?;
    let table = CellText::copy_of(alloc, table.id.as_str())?;
    let column = UserCol {
        id,
        ty: None,
        is_formula: None,
        formula: Some(formula),
    };
    Ok(UserAction::ModifyColumn { table, column })
}

// Adds the change of a column's formula to a plan.
fn add_change(
    alloc: Global,
    plan: &mut RenamePlan,
    rename: &ColumnRename,
    table: &ViewTable,
    column: &ViewCol,
    change: TextChange,
) -> Result<(), AllocError>
    ensures { OnOk result (plan.new ≡ with_part plan.old (record {
      actions = modified rename.now table.now column.now change.text;
      unresolved = change.unresolved;
    })) }
{
    let unresolved = change.unresolved;
    match change.text {
        Some(text) => plan.add(modified(alloc, rename, table, column, text)?, unresolved),
        None => {
            plan.count(unresolved);
            Ok(())
        }
    }
}

fn leads_to_metadata(ty: &ColType) -> bool
    ensures { result ≡ leads_to_metadata ty.now }
{
    match ty {
        ColType::Ref(table) | ColType::RefList(table) => is_metadata_id(table.as_str()),
        _ => false,
    }
}

// Whether a column outside the metadata tables names one of them by its type.
fn is_about_metadata(table: &ViewTable, column: &ViewCol) -> bool
    ensures { result ≡ is_about_metadata table.now column.now }
{
    !is_metadata_id(table.id.as_str()) && leads_to_metadata(&column.ty)
}

// Adds what becomes of a column.
fn add_column(
    alloc: Global,
    plan: &mut RenamePlan,
    rename: &ColumnRename,
    view: &[ViewTable],
    table: &ViewTable,
    column: &ViewCol,
) -> Result<(), AllocError>
    ensures { OnOk result (plan.new ≡ with_part
        (with_part plan.old (formula_part view.now rename.now table.now column.now))
        (type_part table.now column.now)) }
{
    let place = FormulaPlace::Column(view, &table.id);
    let change = formula_change(alloc, rename, &place, &column.formula)?;
    add_change(alloc, plan, rename, table, column, change)?;
    plan.count_where(is_about_metadata(table, column));
    Ok(())
}

// Adds what becomes of the columns that stand there after the rename.
fn add_columns(
    alloc: Global,
    plan: &mut RenamePlan,
    rename: &ColumnRename,
    view: &[ViewTable],
    table: &ViewTable,
    place: Place,
) -> Result<(), AllocError>
    ensures { OnOk result
        (plan.new ≡ with_parts plan.old (parts_at view.now rename.now table.now place)) }
{
    let columns = table.columns.as_slice();
    for column in columns {
        if is_at(rename, table, place, column) {
            add_column(alloc, plan, rename, view, table, column)?;
        }
    }
    Ok(())
}

#[tactic(auto, using(crate::proofs::PartLemmas::parts_append))]
fn add_table(
    alloc: Global,
    plan: &mut RenamePlan,
    rename: &ColumnRename,
    view: &[ViewTable],
    table: &ViewTable,
) -> Result<(), AllocError>
    ensures { OnOk result
        (plan.new ≡ with_parts plan.old (table_parts view.now rename.now table.now)) }
{
    add_columns(alloc, plan, rename, view, table, Place::Before)?;
    add_columns(alloc, plan, rename, view, table, Place::Renamed)?;
    add_columns(alloc, plan, rename, view, table, Place::Behind)
}

/// Adds what becomes of all columns that a view shows.
///
/// Errors: out of memory.
pub(crate) fn add_tables(
    alloc: Global,
    plan: &mut RenamePlan,
    rename: &ColumnRename,
    view: &[ViewTable],
) -> Result<(), AllocError>
    ensures { OnOk result
        (plan.new ≡ with_parts plan.old (column_parts view.now rename.now view.now)) }
{
    for table in view {
        add_table(alloc, plan, rename, view, table)?;
    }
    Ok(())
}
