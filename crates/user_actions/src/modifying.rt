//! The steps that change what a column is.

ghost use Rattle.std.specs.Prelude.{◌≡◌, ◌++◌, true, IfOk};
ghost use Rattle.cell_types.specs.NameRule.{is_name};
ghost use Rattle.doc_model.specs.DocumentLaws.{IsWhole};
ghost use Rattle.doc_model.specs.declared.action.DocAction.TheVariants.{ModifyColumn};
ghost use Rattle.doc_readers.specs.Parts.{grid_at};
ghost use Rattle.user_actions.specs.Columns.{info_said};
ghost use Rattle.user_actions.specs.Marked.{direct};
ghost use Rattle.user_actions.specs.Modified.{emptied, filled, modified, modified_to, same_info};

use crate::cell_updates::add_update;
use crate::columns::info_said;
use cell_types::{CellValue, Name, Same, convert, default_of};
use doc_model::{ColDef, ColInfo, DocAction, DocTables, Step, StepList, UserCol};
use doc_readers::{find_column, rows_in};
use name_rules::name_of;
use std::alloc::{AllocError, Global};

fn is_same_info(left: &ColInfo, right: &ColInfo) -> bool
    ensures { result ≡ same_info left.now right.now }
{
    left.ty.same_as(&right.ty)
        && left.is_formula == right.is_formula
        && left.formula.as_str() == right.formula.as_str()
}

// The step that changes a column alone.
fn modify(table: &Name, known: &ColDef, info: &ColInfo) -> Result<Step, AllocError>
    ensures { IfOk result (λ s. s ≡ direct (ModifyColumn table.now known.now.id info.now)) }
{
    let action = DocAction::ModifyColumn {
        table: table.clone()?,
        column: known.id.clone()?,
        info: info.clone()?,
    };
    Ok(Step {
        action,
        direct: true,
    })
}

// Adds what makes the cells null of a data column that becomes a formula column.
fn add_emptied<D: DocTables>(
    alloc: Global,
    tables: &D,
    table: &Name,
    known: &ColDef,
    info: &ColInfo,
    steps: &mut StepList,
) -> Result<(), AllocError>
    requires { IsWhole (D.document tables.now) }
    ensures { IfOk result
        (λ _. steps.new
        ≡ steps.old ++ emptied table.now (grid_at (D.document tables.now) table.now) known.now
        info.now) }
{
    if !info.is_formula || known.info.is_formula {
        return Ok(());
    }
    let rows = rows_in(tables, table);
    add_update(
        alloc,
        tables,
        table,
        &known.id,
        rows,
        |_| Ok(CellValue::Null),
        steps,
    )
}

// Adds what fills the cells of a column that is a data column then.
fn add_filled<D: DocTables>(
    alloc: Global,
    tables: &D,
    table: &Name,
    known: &ColDef,
    info: &ColInfo,
    steps: &mut StepList,
) -> Result<(), AllocError>
    requires { IsWhole (D.document tables.now) }
    ensures { IfOk result
        (λ _. steps.new
        ≡ steps.old ++ filled table.now (grid_at (D.document tables.now) table.now) known.now
        info.now) }
{
    if info.is_formula {
        return Ok(());
    }
    let rows = rows_in(tables, table);
    let (id, ty) = (&known.id, &info.ty);
    if known.info.is_formula {
        let default = |_: &CellValue| Ok(default_of(ty));
        return add_update(alloc, tables, table, id, rows, default, steps);
    }
    let fitting = |value: &CellValue| convert(alloc, ty, value);
    add_update(alloc, tables, table, id, rows, fitting, steps)
}

// A column that becomes what is told, with the cells that this changes. What it becomes is given
// apart from the action that says it, which holds its own.
fn modified_to<D: DocTables>(
    alloc: Global,
    tables: &D,
    table: &Name,
    known: &ColDef,
    info: &ColInfo,
) -> Result<StepList, AllocError>
    requires { IsWhole (D.document tables.now) }
    ensures { IfOk result
        (λ l. l ≡ modified_to table.now (grid_at (D.document tables.now) table.now) known.now
        info.now) }
{
    let mut steps = StepList::new(alloc);
    if is_same_info(&known.info, info) {
        return Ok(steps);
    }
    add_emptied(alloc, tables, table, known, info, &mut steps)?;
    steps.push(modify(table, known, info)?)?;
    add_filled(alloc, tables, table, known, info, &mut steps)?;
    Ok(steps)
}

// The steps that change what a column that is there is.
fn modify_known<D: DocTables>(
    alloc: Global,
    tables: &D,
    table: &Name,
    known: &ColDef,
    column: &UserCol,
) -> Result<StepList, AllocError>
    requires { IsWhole (D.document tables.now) }
    ensures { IfOk result
        (λ l. l ≡ modified_to table.now (grid_at (D.document tables.now) table.now) known.now
        (info_said known.now.info column.now)) }
{
    let info = info_said(alloc, &known.info, column)?;
    modified_to(alloc, tables, table, known, &info)
}

/// The steps that change what a column is.
pub(crate) fn modify_steps<D: DocTables>(
    alloc: Global,
    tables: &D,
    table: &Name,
    column: &UserCol,
) -> Result<StepList, AllocError>
    requires whole { IsWhole (D.document tables.now) }
    requires name { is_name column.now.id ≡ true }
    ensures { IfOk result
        (λ l. l ≡ modified table.now (grid_at (D.document tables.now) table.now) column.now) }
{
    let id = name_of(alloc, column.id.as_str())?;
    match find_column(tables, table, &id) {
        Some(known) => modify_known(alloc, tables, table, known, column),
        None => Ok(StepList::new(alloc)),
    }
}
