//! What a user may read under the rules in force.

ghost use Rattle.std.specs.Prelude.{◌≡◌, option_map};
ghost use Rattle.acl_reading.specs.Walk.{allows};
ghost use Rattle.acl_reading.specs.Shown.{has_own_rules, is_bare_shown, is_cell_shown, is_column_shown, is_formula_shown, own_answer};

use crate::cells::{column_lets, column_reads, table_lets};
use crate::walking::{column_shows, column_tells, table_shows};
use acl_formula::{AttributeRow, Perm, RowReader};
use acl_rules::{Ctx, Decision, decide};
use cell_types::Name;

fn allows(decision: Decision) -> bool
    ensures { result ≡ allows decision }
{
    match decision {
        Decision::Allow => true,
        Decision::Deny(_) => false,
    }
}

/// Whether the rules show a table that has no columns.
///
/// Memory: none.
pub fn is_bare_shown(ctx: &Ctx, table: &Name) -> bool
    ensures { result ≡ is_bare_shown ctx.now table.now }
{
    table_shows(&ctx.book, table.as_str(), &ctx.user)
}

/// Whether the rules show a column.
///
/// Memory: none.
pub fn is_column_shown(ctx: &Ctx, table: &Name, column: &Name) -> bool
    ensures { result ≡ is_column_shown ctx.now table.now column.now }
{
    column_shows(&ctx.book, table.as_str(), column.as_str(), &ctx.user)
}

/// Whether the rules show the formula of a column: where they allow to change the column.
///
/// Memory: none.
pub fn is_formula_shown(ctx: &Ctx, table: &Name, column: &Name) -> bool
    ensures { result ≡ is_formula_shown ctx.now table.now column.now }
{
    allows(decide::<AttributeRow>(ctx, Perm::S, Some(table), Some(column), None, None))
}

/// Whether a rule about reading lists the column. Where none does, its cells are read as their rows
/// alone are (`reading_law`).
///
/// Memory: none. Cost: the rules that are about the table.
pub fn has_own_rules(ctx: &Ctx, table: &Name, column: &Name) -> bool
    ensures { result ≡ has_own_rules ctx.now table.now column.now }
{
    column_tells(&ctx.book, table.as_str(), column.as_str())
}

/// What the rules that list the column decide of its cell in the row. Where they decide nothing, it
/// is read as the row alone is (`reading_law`).
///
/// Memory: none. Cost: the rules that are about the table; a formula is asked where its rule lists
/// the column and says something of reading.
pub fn own_answer<W: RowReader>(ctx: &Ctx, table: &Name, column: &Name, row: &W) -> Option<bool>
    ensures { result ≡ own_answer ctx.now table.now column.now (W.told row.now) }
{
    column_reads(&ctx.book, table.as_str(), column.as_str(), &ctx.user, row)
}

/// Whether the rules let a row be read in a column, or in a table that has none.
///
/// Memory: none.
pub fn is_cell_shown<W: RowReader>(ctx: &Ctx, table: &Name, column: Option<&Name>, row: &W) -> bool
    ensures { result ≡ is_cell_shown ctx.now table.now
        (option_map (λ c. c.now) column.entry) (W.told row.now) }
{
    match column {
        Some(column) => { column_lets(&ctx.book, table.as_str(), column.as_str(), &ctx.user, row) }
        None => table_lets(&ctx.book, table.as_str(), &ctx.user, row),
    }
}
