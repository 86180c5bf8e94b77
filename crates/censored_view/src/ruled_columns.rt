//! A table's rows and shown columns, each with what decides them.

ghost use Rattle.std.specs.Prelude.{◌≡◌, None, Some, IfOk, IfSome};
ghost use Rattle.censored_view.specs.Ruled.{AreRuled, IsDecidedBy, IsRuled, IsRuledTable, columns_in};
ghost use Rattle.censored_view.specs.Tested.{AreRowTests};

use crate::reading::Lets;
use crate::row_tests::RowTests;
use acl_formula::RowReader;
use cell_types::Name;
use doc_model::ViewCol;
use std::alloc::{AllocError, Global};

/// What decides the cells of a shown column.
#[derive(Drop)]
pub(crate) enum Deciding<'a> {
    /// Their rows alone.
    Rows,
    /// Rules of its own, which are asked for each cell.
    Asked,
    /// Rules of its own, which were chosen for all cells.
    Tests(RowTests<'a>),
}

/// A shown column, with what decides its cells.
#[derive(Drop)]
pub(crate) struct RuledColumn<'a> {
    pub column: &'a ViewCol,
    pub deciding: Deciding<'a>,
}

/// What decides the rows of a table and the cells of its shown columns. Where there are no tests of
/// the rows, the context is asked for each.
#[derive(Drop)]
pub(crate) struct RuledTable<'a> {
    pub tests: Option<RowTests<'a>>,
    pub columns: Vec<RuledColumn<'a>>,
}

fn deciding_of<'a, X: Lets>(
    alloc: Global,
    ctx: &'a X,
    table: &Name,
    column: &ViewCol,
) -> Result<Deciding<'a>, AllocError>
    ensures { IfOk result (IsDecidedBy (X.lets ctx.now table.now) column.now) }
{
    if !ctx.has_own_rules(table, &column.id) {
        return Ok(Deciding::Rows);
    }
    match ctx.own_tests(alloc, table, &column.id)? {
        Some(tests) => Ok(Deciding::Tests(tests)),
        None => Ok(Deciding::Asked),
    }
}

fn ruled_columns<'a, X: Lets>(
    alloc: Global,
    ctx: &'a X,
    table: &Name,
    columns: &'a [ViewCol],
) -> Result<Vec<RuledColumn<'a>>, AllocError>
    ensures columns { IfOk result (λ l. columns_in l.items ≡ columns.now) }
    ensures ruled { IfOk result (λ l. AreRuled (X.lets ctx.now table.now) l.items) }
{
    let mut ruled = Vec::with_capacity(alloc, columns.len())?;
    for column in columns {
        let deciding = deciding_of(alloc, ctx, table, column)?;
        ruled.push(RuledColumn { column, deciding })?;
    }
    Ok(ruled)
}

/// What decides the rows of a table and the cells of these shown columns of it, each asked once.
///
/// Errors: out of memory.
pub(crate) fn ruled_table<'a, X: Lets>(
    alloc: Global,
    ctx: &'a X,
    table: &Name,
    columns: &'a [ViewCol],
) -> Result<RuledTable<'a>, AllocError>
    ensures columns { IfOk result (λ t. columns_in t.columns.items ≡ columns.now) }
    ensures ruled { IfOk result (IsRuledTable (X.lets ctx.now table.now)) }
{
    let columns = ruled_columns(alloc, ctx, table, columns)?;
    let tests = ctx.row_tests(alloc, table)?;
    Ok(RuledTable { tests, columns })
}

/// Whether a row may be read alone, by the tests of its table where there are any.
///
/// Memory: none.
pub(crate) fn is_read_alone<X: Lets, W: RowReader>(
    ctx: &X,
    table: &Name,
    tests: &Option<RowTests<'_>>,
    row: &W,
) -> bool
    requires { IfSome tests.now (AreRowTests (X.lets ctx.now table.now)) }
    ensures { result ≡ (X.lets ctx.now table.now).cell None (W.told row.now) }
{
    match tests {
        Some(tests) => tests.answer(row).unwrap_or(false),
        None => ctx.is_cell_shown(table, None, row),
    }
}

/// Whether a row may be read in a column, by whether it may be read alone.
///
/// Memory: none.
pub(crate) fn is_read_in<X: Lets, W: RowReader>(
    ctx: &X,
    table: &Name,
    row: &W,
    alone: bool,
    column: &RuledColumn<'_>,
) -> bool
    requires ruled { IsRuled (X.lets ctx.now table.now) column.now }
    requires alone { alone ≡ (X.lets ctx.now table.now).cell None (W.told row.now) }
    ensures { result ≡ (X.lets ctx.now table.now).cell (Some column.now.column.now.id)
        (W.told row.now) }
{
    match &column.deciding {
        Deciding::Rows => alone,
        Deciding::Asked => ctx
            .own_answer(table, &column.column.id, row)
            .unwrap_or(alone),
        Deciding::Tests(tests) => tests.answer(row).unwrap_or(alone),
    }
}
