//! The whole view of a document.

ghost use Rattle.std.specs.Prelude.{◌≡◌, IfOk};
ghost use Rattle.doc_model.specs.Changes.{IsView};
ghost use Rattle.doc_model.specs.LaidOut.{IsLaidOut};
ghost use Rattle.censored_view.specs.View.{view};

use crate::parts::{Selection, part_tables};
use crate::reading::Lets;
use cell_types::Name;
use doc_model::{DocReader, View, ViewTableList};
use std::alloc::{AllocError, Global};

// All tables with all their rows.
#[derive(Drop)]
struct Everything;

impl Selection for Everything {
    ghost use Rattle.std.specs.Prelude.{true};

    ghost takes = { λ _ table. true };

    ghost takes_row = { λ _ table row. true };

    fn takes_table(&self, _table: &Name) -> bool {
        true
    }

    fn rows_taken(
        &self,
        alloc: Global,
        _table: &Name,
        rows: &[u32],
    ) -> Result<Vec<u32>, AllocError> {
        let all = Vec::from_slice(alloc, rows)?;
        Ok(all)
    }
}

/// What a context shows of a document.
///
/// Errors: out of memory. Cost: that of `shown_rows` for each table, and the squares of the tables
/// and of each table's columns.
pub fn whole_view<X: Lets, D: DocReader>(
    alloc: Global,
    ctx: &X,
    tables: &D,
) -> Result<View, AllocError>
    requires { IsLaidOut (D.document tables.now) }
    ensures tables { IfOk result (λ v. v.tables ≡ view (X.lets ctx.now) (D.document tables.now)) }
    ensures is_view { IfOk result (λ v. IsView v.tables) }
{
    let shown = part_tables(alloc, ctx, tables, &Everything)?;
    Ok(View {
        tables: ViewTableList::from(shown),
    })
}
