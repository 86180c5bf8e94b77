//! The changes of a view after a bundle of record actions.

ghost use Rattle.std.specs.Prelude.{◌≡◌, List, cond, false, IfOk, OnOk};
ghost use Rattle.doc_model.specs.ByIds.{has_id, put_by_id};
ghost use Rattle.doc_model.specs.Changes.{changes, shown_table_id};
ghost use Rattle.doc_model.specs.LaidOut.{IsLaidOut};
ghost use Rattle.censored_view.specs.View.{view};
ghost use Rattle.action_censor.specs.Back.{back};
ghost use Rattle.action_censor.specs.FollowLaws.{HidesSchema};
ghost use Rattle.action_censor.specs.ShownParts.{all_after, all_before, part_after, part_before, shows};
ghost use Rattle.action_censor.specs.Step.{Step};
ghost use Rattle.action_censor.specs.TouchedTables.{AreTouched, AreTouchedTables};

use crate::laws::narrow_law;
use crate::touched_table::TouchedTable;
use censored_view::{Lets, document_rows, is_shown, put_seen, shown_columns, shown_rows};
use doc_model::{DocReader, View, ViewActionList, ViewTable, ViewTableList};
use plain_view::changes;
use std::alloc::{AllocError, Global};

// The touched tables as they are shown, before the bundle and after it.
#[derive(Drop)]
struct Parts {
    before: Vec<ViewTable>,
    after: Vec<ViewTable>,
}

// A touched table as its rows were.
fn part_before<X: Lets, D: DocReader>(
    alloc: Global,
    ctx: &X,
    tables: &D,
    touched: &TouchedTable,
) -> Result<ViewTable, AllocError>
    requires { IsLaidOut (D.document tables.now) }
    ensures { IfOk result
        (λ t. t ≡ part_before (X.lets ctx.now) (D.document tables.now) touched.now) }
{
    let columns = shown_columns(alloc, ctx, tables, &touched.id)?;
    shown_rows(alloc, ctx, &touched.id, columns, touched.before.as_slice())
}

// And as they are.
fn part_after<X: Lets, D: DocReader>(
    alloc: Global,
    ctx: &X,
    tables: &D,
    touched: &TouchedTable,
) -> Result<ViewTable, AllocError>
    requires { IsLaidOut (D.document tables.now) }
    ensures { IfOk result
        (λ t. t ≡ part_after (X.lets ctx.now) (D.document tables.now) touched.now) }
{
    let columns = shown_columns(alloc, ctx, tables, &touched.id)?;
    let rows = document_rows(alloc, tables, &touched.id, touched.after.as_slice())?;
    let table = shown_rows(alloc, ctx, &touched.id, columns, rows.as_slice())?;
    Ok(table)
}

// Puts a touched table in its places where it is shown.
fn put_parts<X: Lets, D: DocReader>(
    alloc: Global,
    ctx: &X,
    tables: &D,
    touched: &TouchedTable,
    parts: &mut Parts,
) -> Result<(), AllocError>
    requires laid_out { IsLaidOut (D.document tables.now) }
    requires new_before { has_id shown_table_id parts.old.before.items touched.now.id ≡ false }
    requires new_after { has_id shown_table_id parts.old.after.items touched.now.id ≡ false }
    ensures before { OnOk result (parts.new.before.items
        ≡ cond (shows (X.lets ctx.now) (D.document tables.now) touched.now)
        (put_by_id shown_table_id (part_before (X.lets ctx.now) (D.document tables.now) touched.now)
        parts.old.before.items) parts.old.before.items) }
    ensures after { OnOk result (parts.new.after.items
        ≡ cond (shows (X.lets ctx.now) (D.document tables.now) touched.now)
        (put_by_id shown_table_id (part_after (X.lets ctx.now) (D.document tables.now) touched.now)
        parts.old.after.items) parts.old.after.items) }
{
    if !is_shown(ctx, tables, &touched.id) {
        return Ok(());
    }
    let before = part_before(alloc, ctx, tables, touched)?;
    put_seen(&mut parts.before, Some(before))?;
    let after = part_after(alloc, ctx, tables, touched)?;
    put_seen(&mut parts.after, Some(after))
}

fn all_parts<X: Lets, D: DocReader>(
    alloc: Global,
    ctx: &X,
    tables: &D,
    touched: &[TouchedTable],
) -> Result<Parts, AllocError>
    requires laid_out { IsLaidOut (D.document tables.now) }
    requires touched { AreTouched (D.document tables.now) touched.now }
    ensures before { IfOk result (λ p. p.before.items
        ≡ all_before (X.lets ctx.now) (D.document tables.now) touched.now) }
    ensures after { IfOk result (λ p. p.after.items
        ≡ all_after (X.lets ctx.now) (D.document tables.now) touched.now) }
{
    let mut parts = Parts {
        before: Vec::new(alloc),
        after: Vec::new(alloc),
    };
    for table in touched {
        put_parts(alloc, ctx, tables, table, &mut parts)?;
    }
    Ok(parts)
}

/// The changes of what a context shows, after a bundle of record actions that leaves the context as
/// it is. The touched tables are those of the bundle, the document is that after it.
///
/// Errors: out of memory.
/// Cost: that of `shown_rows` for the touched rows, before and after, and the squares of the
/// touched tables and of each one's columns.
pub fn follow<X: Lets, D: DocReader>(
    alloc: Global,
    ctx: &X,
    tables: &D,
    touched: &[TouchedTable],
) -> Result<ViewActionList, AllocError>
    requires laid_out { IsLaidOut (D.document tables.now) }
    requires touched { AreTouched (D.document tables.now) touched.now }
    requires schema { HidesSchema (X.lets ctx.now) }
    ensures { IfOk result (λ l. (ks : List Step)
        → AreTouchedTables ks (D.document tables.now) touched.now
        → l ≡ changes (view (X.lets ctx.now) (back ks (D.document tables.now)))
        (view (X.lets ctx.now) (D.document tables.now))) }
{
    narrow_law();
    let parts = all_parts(alloc, ctx, tables, touched)?;
    let before = View {
        tables: ViewTableList::from(parts.before),
    };
    let after = View {
        tables: ViewTableList::from(parts.after),
    };
    let told = changes(alloc, &before, &after)?;
    Ok(told)
}
