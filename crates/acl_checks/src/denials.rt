//! The checks of rows, one after the other, until one is denied.

ghost use Rattle.std.specs.Prelude.{◌≡◌, [], ◌∷◌, None, Some, option_map};
ghost use Rattle.acl_formula.specs.declared.permissions.Perm.TheVariants as perm;
ghost use Rattle.acl_checks.specs.BeforeStep.{kept_checks, row_of};
ghost use Rattle.acl_checks.specs.Checks.{add_checks, cell_checks, new_row_checks, remove_checks, row_check, schema_check};
ghost use Rattle.acl_checks.specs.Denials.{denial_or, decided, first_denied};

use crate::checked_row::CheckedRow;
use acl_formula::{AttributeRow, Perm, RowReader};
use acl_rules::{Ctx, Decision, RuleId, decide};
use cell_types::Name;
use doc_model::{CellColumn, DocReader};

// The rule that denies, if one does.
fn denial(decision: Decision) -> Option<RuleId>
    ensures { option_map row_of result ≡ denial_or decision None }
{
    match decision {
        Decision::Allow => None,
        Decision::Deny(rule) => Some(rule),
    }
}

// A check of a row on its table or on a column.
fn row_denied<W: RowReader>(
    ctx: &Ctx,
    perm: Perm,
    table: &Name,
    column: Option<&Name>,
    before: &W,
    after: &W,
) -> Option<RuleId>
    ensures { option_map row_of result ≡ denial_or (decided ctx.now
        (row_check perm table.now (option_map (λ c. c.now) column.entry)
        (W.told before.now) (W.told after.now))) None }
{
    denial(decide(ctx, perm, Some(table), column, Some(before), Some(after)))
}

/// A check of the schema: of the document, of a table, or of a column.
pub(crate) fn schema_denied(
    ctx: &Ctx,
    table: Option<&Name>,
    column: Option<&Name>,
) -> Option<RuleId>
    ensures { option_map row_of result ≡ first_denied ctx.now
        (schema_check (option_map (λ t. t.now) table.entry)
        (option_map (λ c. c.now) column.entry) ∷ []) }
{
    denial(decide::<AttributeRow>(ctx, Perm::S, table, column, None, None))
}

// The checks of a row's given cells.
fn cells_denied<W: RowReader>(
    ctx: &Ctx,
    table: &Name,
    columns: &[CellColumn],
    before: &W,
    after: &W,
) -> Option<RuleId>
    ensures { option_map row_of result ≡ first_denied ctx.now
        (cell_checks table.now (W.told before.now) (W.told after.now) columns.now) }
{
    for column in columns {
        let denied = row_denied(ctx, Perm::U, table, Some(&column.id), before, after);
        if let Some(rule) = denied {
            return Some(rule);
        }
    }
    None
}

// The checks of a new row.
fn new_row_denied<W: RowReader>(
    ctx: &Ctx,
    table: &Name,
    columns: &[CellColumn],
    row: &W,
) -> Option<RuleId>
    ensures { option_map row_of result ≡ first_denied ctx.now
        (new_row_checks table.now (W.told row.now) columns.now) }
{
    match row_denied(ctx, Perm::C, table, None, row, row) {
        Some(rule) => Some(rule),
        None => cells_denied(ctx, table, columns, row, row),
    }
}

/// The checks of new rows, which are in the tables.
pub(crate) fn adds_denied<D: DocReader>(
    ctx: &Ctx,
    tables: &D,
    table: &Name,
    rows: &[u32],
    columns: &[CellColumn],
) -> Option<RuleId>
    ensures { option_map row_of result ≡ first_denied ctx.now
        (add_checks (D.document tables.now) table.now rows.now columns.now) }
{
    for row in rows {
        let denied = new_row_denied(ctx, table, columns, &CheckedRow::There(tables, table, *row));
        if let Some(rule) = denied {
            return Some(rule);
        }
    }
    None
}

/// The checks of changed rows: each as it was kept, and as it is in the tables.
pub(crate) fn updates_denied<D: DocReader>(
    ctx: &Ctx,
    tables: &D,
    table: &Name,
    kept: &[AttributeRow],
    columns: &[CellColumn],
) -> Option<RuleId>
    ensures { option_map row_of result ≡ first_denied ctx.now
        (kept_checks (D.document tables.now) table.now kept.now columns.now) }
{
    for row in kept {
        let before = CheckedRow::Kept(row);
        let after = CheckedRow::There(tables, table, row.row);
        if let Some(rule) = cells_denied(ctx, table, columns, &before, &after) {
            return Some(rule);
        }
    }
    None
}

/// The checks of rows that go, which are in the tables.
pub(crate) fn removes_denied<D: DocReader>(
    ctx: &Ctx,
    tables: &D,
    table: &Name,
    rows: &[u32],
) -> Option<RuleId>
    ensures { option_map row_of result ≡ first_denied ctx.now
        (remove_checks (D.document tables.now) table.now rows.now) }
{
    for row in rows {
        let there = CheckedRow::There(tables, table, *row);
        if let Some(rule) = row_denied(ctx, Perm::D, table, None, &there, &there) {
            return Some(rule);
        }
    }
    None
}
