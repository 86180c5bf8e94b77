//! What an action's checks need of the document before it.

ghost use Rattle.std.specs.Prelude.{◌≡◌, ℕ, List, [], ◌∷◌, IfOk, map, option_map};
ghost use Rattle.doc_model.specs.Document.{Document};
ghost use Rattle.doc_model.specs.declared.action.DocAction.{DocAction};
ghost use Rattle.doc_model.specs.declared.action.DocAction.TheVariants.{BulkAdd, BulkRemove, BulkUpdate};
ghost use Rattle.doc_model.specs.declared.column.CellColumn.{CellColumn};
ghost use Rattle.acl_rules.specs.Reading.{columns_read, narrowed};
ghost use Rattle.acl_rules.specs.declared.decision.Ctx.{Ctx};
ghost use Rattle.acl_checks.specs.BeforeStep.{Holds, kept_row};
ghost use Rattle.acl_checks.specs.Checks.{checks_of, row_at, schema_check};

use crate::denials::{removes_denied, schema_denied};
use crate::keeping::{KeptRowList, kept_rows};
use acl_rules::{Ctx, RuleId, columns_read};
use cell_types::Name;
use doc_model::{DocAction, DocReader};
use doc_readers::is_acl_id;
use std::alloc::{AllocError, Global};

/// What is kept of the document before an action, so that the action can be checked behind it.
#[derive(Drop)]
pub enum BeforeStep {
    /// The answer rests on nothing behind the action: the rule that denies it, if one does.
    Decided(Option<RuleId>),
    /// The rows that the action changes, as they were; none where it adds rows.
    Rows(KeptRowList),
}

// The rows that an action changes, with the columns that rules read.
fn changed_rows<D: DocReader>(
    alloc: Global,
    ctx: &Ctx,
    tables: &D,
    table: &Name,
    rows: &[u32],
) -> Result<KeptRowList, AllocError>
    ensures { IfOk result (λ kept. map kept_row kept
        ≡ map (λ r. narrowed (columns_read ctx.now.book table.now)
        (row_at (D.document tables.now) table.now r)) rows.now) }
{
    let names = columns_read(alloc, &ctx.book, table)?;
    kept_rows(alloc, tables, table, rows, names.as_slice())
}

// What is kept before rows are changed.
fn before_update<D: DocReader>(
    alloc: Global,
    ctx: &Ctx,
    tables: &D,
    table: &Name,
    rows: &[u32],
) -> Result<BeforeStep, AllocError>
    ensures { IfOk result (λ before. (columns : List CellColumn)
        → Holds before ctx.now (D.document tables.now) (BulkUpdate table.now rows.now columns)) }
{
    if is_acl_id(table.as_str()) {
        return Ok(BeforeStep::Decided(None));
    }
    let kept = changed_rows(alloc, ctx, tables, table, rows)?;
    Ok(BeforeStep::Rows(kept))
}

// Rows that are added are read behind the action alone.
fn before_add(alloc: Global, table: &Name) -> BeforeStep
    ensures { (x : Ctx) (s : Document) (rows : List ℕ) (columns : List CellColumn)
        → Holds result x s (BulkAdd table.now rows columns) }
{
    if is_acl_id(table.as_str()) {
        return BeforeStep::Decided(None);
    }
    BeforeStep::Rows(KeptRowList::new(alloc))
}

// Rows that are removed are read before the action alone.
fn before_remove<D: DocReader>(ctx: &Ctx, tables: &D, table: &Name, rows: &[u32]) -> BeforeStep
    ensures { Holds result ctx.now (D.document tables.now) (BulkRemove table.now rows.now) }
{
    if is_acl_id(table.as_str()) {
        return BeforeStep::Decided(None);
    }
    BeforeStep::Decided(removes_denied(ctx, tables, table, rows))
}

// A change of the schema reads no row.
fn before_schema(ctx: &Ctx, table: Option<&Name>, column: Option<&Name>) -> BeforeStep
    ensures { (s : Document) (a : DocAction)
        → ((t : Document) → checks_of s t a ≡ schema_check (option_map (λ n. n.now) table.entry)
        (option_map (λ n. n.now) column.entry) ∷ []) → Holds result ctx.now s a }
{
    BeforeStep::Decided(schema_denied(ctx, table, column))
}

/// Keeps what the checks of an action need of the evaluated document before it. An action that
/// removes rows, changes the schema or touches the access rules is decided here.
///
/// Errors: out of memory.
/// Memory: for an action that changes rows, these with their cells in the columns that rules of the
/// table or the document read; for others none.
pub fn before_step<D: DocReader>(
    alloc: Global,
    ctx: &Ctx,
    tables: &D,
    action: &DocAction,
) -> Result<BeforeStep, AllocError>
    ensures { IfOk result (λ before. Holds before ctx.now (D.document tables.now) action.now) }
{
    match action {
        DocAction::BulkAdd { table, .. } => Ok(before_add(alloc, table)),
        DocAction::BulkUpdate { table, rows, .. } => {
            before_update(alloc, ctx, tables, table, rows.as_slice())
        }
        DocAction::BulkRemove { table, rows } => {
            Ok(before_remove(ctx, tables, table, rows.as_slice()))
        }
        DocAction::AddTable { .. } => Ok(before_schema(ctx, None, None)),
        DocAction::RemoveTable { table }
        | DocAction::RenameTable { table, .. }
        | DocAction::AddColumn { table, .. } => Ok(before_schema(ctx, Some(table), None)),
        DocAction::RemoveColumn { table, column }
        | DocAction::RenameColumn { table, column, .. }
        | DocAction::ModifyColumn { table, column, .. } => {
            Ok(before_schema(ctx, Some(table), Some(column)))
        }
    }
}
