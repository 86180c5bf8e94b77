//! The audit: the first thing by which a verdict may tell more than the view.

ghost use Rattle.std.specs.Prelude.{◌≡◌, ◌&&◌, map, Option, Some, None, option_map, IfOk, not};
ghost use Rattle.acl_formula.specs.declared.permissions.Perm.TheVariants as perm;
ghost use Rattle.rule_audit.specs.Closed.{audit, chain_fault, chain_stop, column_fault, columns_fault, formula_fault, is_hidden, leak_of, rows_fault, ruled_fault, table_fault, tables_fault};
ghost use Rattle.rule_audit.specs.Open.{open_columns};
ghost use Rattle.rule_audit.specs.Stops.{bad_row};

use crate::opening::open_columns;
use crate::reaching::{column_reach, table_reach};
use crate::stop::Stop;
use acl_formula::Perm;
use acl_rules::Ctx;
use cell_types::Name;
use doc_model::{View, ViewCol, ViewTable};
use doc_readers::is_metadata_id;
use std::alloc::{AllocError, Global};

/// What an audit says of a user.
#[derive(Debug, Drop)]
pub enum Audit {
    /// Verdicts on what the user writes tell nothing beyond what the user sees.
    Closed,
    /// A verdict may rest on what the user does not see: by the rule in this row of the table of
    /// rules, asked for this permission in the chain of the column, or of the table where there is
    /// none.
    Leak {
        table: Name,
        column: Option<Name>,
        perm: Perm,
        rule: u32,
    },
    /// The text of a formula that is hidden could be guessed.
    HiddenFormula {
        table: Name,
        column: Name,
    },
}

fn copied(column: Option<&Name>) -> Result<Option<Name>, AllocError>
    ensures { IfOk result (λ c. c ≡ option_map (λ c. c.now) column.entry) }
{
    match column {
        Some(column) => Ok(Some(column.clone()?)),
        None => Ok(None),
    }
}

// The leak by the rule at which the walk stopped badly.
fn leak_by(
    stop: Option<Stop>,
    table: &Name,
    column: Option<&Name>,
    perm: Perm,
) -> Result<Option<Audit>, AllocError>
    ensures { IfOk result (λ f. f
        ≡ leak_of table.now (option_map (λ c. c.now) column.entry) perm (bad_row stop)) }
{
    match stop {
        Some(Stop::Badly(rule)) => Ok(Some(Audit::Leak {
            table: table.clone()?,
            column: copied(column)?,
            perm,
            rule,
        })),
        Some(Stop::Well) | None => Ok(None),
    }
}

fn table_chain_fault(
    ctx: &Ctx,
    perm: Perm,
    opened: &[&ViewCol],
    table: &Name,
) -> Result<Option<Audit>, AllocError>
    ensures { IfOk result (λ f. f
        ≡ chain_fault ctx.now perm (map (λ c. c.now) opened.now) table.now None) }
{
    leak_by(table_reach(ctx, perm, opened, table), table, None, perm)
}

fn is_hidden(column: &ViewCol) -> bool
    ensures { result ≡ is_hidden column.now }
{
    column.is_formula && column.formula.is_none()
}

fn formula_fault(table: &Name, column: &ViewCol) -> Result<Option<Audit>, AllocError>
    ensures { IfOk result (λ f. f ≡ formula_fault table.now column.now) }
{
    if is_hidden(column) {
        return Ok(Some(Audit::HiddenFormula {
            table: table.clone()?,
            column: column.id.clone()?,
        }));
    }
    Ok(None)
}

// By where the walk of the table's chain stops for changes.
fn column_fault(
    ctx: &Ctx,
    opened: &[&ViewCol],
    table: &Name,
    column: &ViewCol,
    behind: Option<Stop>,
) -> Result<Option<Audit>, AllocError>
    requires { behind
        ≡ chain_stop ctx.now perm.U (map (λ c. c.now) opened.now) table.now None }
    ensures { IfOk result (λ f. f
        ≡ column_fault ctx.now (map (λ c. c.now) opened.now) table.now column.now) }
{
    let stop = column_reach(ctx, Perm::U, opened, table, &column.id, behind);
    match leak_by(stop, table, Some(&column.id), Perm::U)? {
        Some(fault) => Ok(Some(fault)),
        None => formula_fault(table, column),
    }
}

fn columns_fault(
    ctx: &Ctx,
    opened: &[&ViewCol],
    table: &Name,
    columns: &[ViewCol],
) -> Result<Option<Audit>, AllocError>
    ensures { IfOk result (λ f. f
        ≡ columns_fault ctx.now (map (λ c. c.now) opened.now) table.now columns.now) }
{
    let behind = table_reach(ctx, Perm::U, opened, table);
    for column in columns {
        if let Some(fault) = column_fault(ctx, opened, table, column, behind)? {
            return Ok(Some(fault));
        }
    }
    Ok(None)
}

fn rows_fault(ctx: &Ctx, opened: &[&ViewCol], table: &Name) -> Result<Option<Audit>, AllocError>
    ensures { IfOk result (λ f. f
        ≡ rows_fault ctx.now (map (λ c. c.now) opened.now) table.now) }
{
    match table_chain_fault(ctx, Perm::C, opened, table)? {
        Some(fault) => Ok(Some(fault)),
        None => table_chain_fault(ctx, Perm::D, opened, table),
    }
}

fn ruled_fault(
    ctx: &Ctx,
    opened: &[&ViewCol],
    table: &ViewTable,
) -> Result<Option<Audit>, AllocError>
    ensures { IfOk result (λ f. f
        ≡ ruled_fault ctx.now (map (λ c. c.now) opened.now) table.now) }
{
    match rows_fault(ctx, opened, &table.id)? {
        Some(fault) => Ok(Some(fault)),
        None => columns_fault(ctx, opened, &table.id, table.columns.as_slice()),
    }
}

#[tactic(auto, unfolding(crate::specs::Closed::table_fault))]
fn table_fault(alloc: Global, ctx: &Ctx, table: &ViewTable) -> Result<Option<Audit>, AllocError>
    ensures { IfOk result (λ f. f ≡ table_fault ctx.now table.now) }
{
    if is_metadata_id(table.id.as_str()) {
        return Ok(None);
    }
    let opened = open_columns(alloc, ctx, &table.id, table.columns.as_slice())?;
    ruled_fault(ctx, opened.as_slice(), table)
}

fn tables_fault(alloc: Global, ctx: &Ctx, tables: &[ViewTable]) -> Result<Option<Audit>, AllocError>
    ensures { IfOk result (λ f. f ≡ tables_fault ctx.now tables.now) }
{
    for table in tables {
        if let Some(fault) = table_fault(alloc, ctx, table)? {
            return Ok(Some(fault));
        }
    }
    Ok(None)
}

/// Whether verdicts on what the user writes can tell the user anything beyond this view, which is
/// what the context shows; and if so, by what first: tables by id, each for new rows, for rows that
/// go, and then its columns by id, each for changes and then for its formula.
///
/// Errors: out of memory. Memory: the names of the answer, and a list of the open columns of one
/// table. Cost: the rules about a table and the document, for each of its columns; of each that is
/// reached what it mentions, and that among the table's open columns.
pub fn audit_of(alloc: Global, ctx: &Ctx, view: &View) -> Result<Audit, AllocError>
    ensures { IfOk result (λ a. a ≡ audit ctx.now view.now.tables) }
{
    match tables_fault(alloc, ctx, view.tables.as_slice())? {
        Some(fault) => Ok(fault),
        None => Ok(Audit::Closed),
    }
}
