//! Parts of a view: some tables, with some of their rows.

ghost use Rattle.std.specs.Prelude.{◌≡◌, cond, false, filter, IfOk, OnOk};
ghost use Rattle.doc_model.specs.ByIds.{find_id, has_id};
ghost use Rattle.doc_model.specs.Changes.{IsView, shown_table_id};
ghost use Rattle.doc_model.specs.Document.{table_id};
ghost use Rattle.doc_model.specs.LaidOut.{IsLaidOut};
ghost use Rattle.doc_readers.specs.Parts.{grid_at};
ghost use Rattle.plain_view.specs.PartsOfViews.{part_of};
ghost use Rattle.censored_view.specs.Parts.{part, seen_part, with_seen};
ghost use Rattle.censored_view.specs.View.{view};

use crate::reading::Lets;
use crate::tables::{put_seen, seen_part};
use cell_types::Name;
use doc_model::{DocReader, View, ViewTable, ViewTableList};
use doc_readers::rows_in;
use std::alloc::{AllocError, Global};

/// What a part of a view takes up: some tables, and some rows of these.
pub trait Selection {
    ghost use Rattle.std.specs.Prelude.{◌≡◌, ℕ, Bool, List, filter, IfOk};
    ghost use Rattle.doc_model.specs.Rows.{IsAscending};

    /// Whether the part takes up the table.
    ghost takes: { Self → List ℕ → Bool };

    /// Whether it takes up the row of the table.
    ghost takes_row: { Self → List ℕ → ℕ → Bool };

    /// Whether the part takes up the table.
    ///
    /// Memory: none.
    fn takes_table(&self, table: &Name) -> bool
        ensures { result ≡ takes self.now table.now };

    /// The rows of the table that the part takes up, of all its rows.
    ///
    /// Errors: out of memory.
    fn rows_taken(&self, alloc: Global, table: &Name, rows: &[u32]) -> Result<Vec<u32>, AllocError>
        requires { IsAscending rows.now }
        ensures { IfOk result (λ l. l.items ≡ filter (takes_row self.now table.now) rows.now) };
}

// Puts what is seen of the table in its place, where the part takes it up.
fn put_taken<X: Lets, D: DocReader, S: Selection>(
    alloc: Global,
    ctx: &X,
    tables: &D,
    selection: &S,
    id: &Name,
    shown: &mut Vec<ViewTable>,
) -> Result<(), AllocError>
    requires laid_out { IsLaidOut (D.document tables.now) }
    requires new { has_id shown_table_id shown.old.items id.now ≡ false }
    ensures put { OnOk result (shown.new.items ≡ cond (S.takes selection.now id.now)
        (with_seen (seen_part (X.lets ctx.now id.now) id.now
        (find_id table_id id.now (D.document tables.now))
        (filter (S.takes_row selection.now id.now) (grid_at (D.document tables.now) id.now).rows))
        shown.old.items) shown.old.items) }
{
    if !selection.takes_table(id) {
        return Ok(());
    }
    let rows = selection.rows_taken(alloc, id, rows_in(tables, id))?;
    let table = seen_part(alloc, ctx, tables, id, rows.as_slice())?;
    put_seen(shown, table)
}

/// The tables of a part of a view, by id.
///
/// Errors: out of memory.
pub(crate) fn part_tables<X: Lets, D: DocReader, S: Selection>(
    alloc: Global,
    ctx: &X,
    tables: &D,
    selection: &S,
) -> Result<Vec<ViewTable>, AllocError>
    requires { IsLaidOut (D.document tables.now) }
    ensures { IfOk result (λ l. l.items ≡ part (S.takes selection.now) (S.takes_row selection.now)
        (X.lets ctx.now) (D.document tables.now)) }
{
    let mut shown = Vec::new(alloc);
    let mut index = 0;
    while let Some(id) = tables.table(index) {
        put_taken(alloc, ctx, tables, selection, id, &mut shown)?;
        index += 1;
    }
    Ok(shown)
}

/// A part of what a context shows of a document.
///
/// Errors: out of memory. Cost: that of `shown_rows` for the rows that the part takes up, the
/// squares of its tables and of each one's columns, and a walk over the tables.
pub fn part<X: Lets, D: DocReader, S: Selection>(
    alloc: Global,
    ctx: &X,
    tables: &D,
    selection: &S,
) -> Result<View, AllocError>
    requires { IsLaidOut (D.document tables.now) }
    ensures tables { IfOk result (λ v. v.tables ≡ part_of (S.takes selection.now)
        (S.takes_row selection.now) (view (X.lets ctx.now) (D.document tables.now))) }
    ensures is_view { IfOk result (λ v. IsView v.tables) }
{
    let shown = part_tables(alloc, ctx, tables, selection)?;
    Ok(View {
        tables: ViewTableList::from(shown),
    })
}
