//! What a user action asks for, as a context shows it.

ghost use Rattle.std.specs.Prelude.{◌≡◌, filter, IfOk};
ghost use Rattle.doc_model.specs.Changes.{IsView};
ghost use Rattle.doc_model.specs.LaidOut.{IsLaidOut};
ghost use Rattle.doc_model.specs.Rows.{IsAscending};
ghost use Rattle.censored_view.specs.View.{view};
ghost use Rattle.view_refusals.specs.Parts.{is_row_requested, requested_part, rows_requested};

use cell_types::Name;
use censored_view::{Lets, Selection, part, rows_among};
use doc_model::{DocReader, UserAction, View};
use std::alloc::{AllocError, Global};
use user_actions::{row_ids, table_of};
use user_objections::asks_for;

// The rows that a user action names.
fn rows_requested(alloc: Global, action: &UserAction) -> Result<Vec<u32>, AllocError>
    ensures { IfOk result (λ l. l.items ≡ rows_requested action.now) }
{
    match action {
        UserAction::Update { rows, .. } | UserAction::Remove { rows, .. } => {
            Ok(row_ids(alloc, rows.as_slice())?.into_vec())
        }
        _ => Ok(Vec::new(alloc)),
    }
}

// The rows of a table that a user action asks for: all, where it names another one.
fn rows_asked(
    alloc: Global,
    action: &UserAction,
    table: &Name,
    rows: &[u32],
) -> Result<Vec<u32>, AllocError>
    requires { IsAscending rows.now }
    ensures { IfOk result
        (λ l. l.items ≡ filter (is_row_requested action.now table.now) rows.now) }
{
    if table.as_str() != table_of(action) {
        let all = Vec::from_slice(alloc, rows)?;
        return Ok(all);
    }
    let named = rows_among(alloc, rows_requested(alloc, action)?, rows)?;
    Ok(named)
}

// What a user action asks for.
#[derive(Drop)]
struct Asked<'a> {
    action: &'a UserAction,
}

impl Selection for Asked<'_> {
    ghost use Rattle.user_objections.specs.ObjectionLaws.{asks_for};
    ghost use Rattle.view_refusals.specs.Parts.{is_row_requested};

    ghost takes = { λ x table. asks_for x.action.now table };

    ghost takes_row = { λ x table row. is_row_requested x.action.now table row };

    fn takes_table(&self, table: &Name) -> bool {
        asks_for(self.action, table.as_str())
    }

    fn rows_taken(
        &self,
        alloc: Global,
        table: &Name,
        rows: &[u32],
    ) -> Result<Vec<u32>, AllocError> {
        rows_asked(alloc, self.action, table, rows)
    }
}

/// The tables that a user action asks for, as a context shows them, with the rows that it asks for.
///
/// Errors: out of memory. Cost: a decision and a copy for each cell of those rows, where the action
/// is about rows of rules also those of all resources, and a walk over the tables.
pub fn asked_of<X: Lets, D: DocReader>(
    alloc: Global,
    ctx: &X,
    tables: &D,
    action: &UserAction,
) -> Result<View, AllocError>
    requires { IsLaidOut (D.document tables.now) }
    ensures tables { IfOk result (λ v. v.tables
        ≡ requested_part action.now (view (X.lets ctx.now) (D.document tables.now))) }
    ensures is_view { IfOk result (λ v. IsView v.tables) }
{
    let asked = Asked { action };
    part(alloc, ctx, tables, &asked)
}
