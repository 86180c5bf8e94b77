//! What contexts show of a document, and what has changed since.

ghost use Rattle.std.specs.Prelude.{◌≡◌, map, IfOk};
ghost use Rattle.std.specs.List.{AllByRecursion};
ghost use Rattle.doc_model.specs.Changes.{changes};
ghost use Rattle.doc_model.specs.LaidOut.{IsLaidOut};
ghost use Rattle.context_changes.specs.Told.{IsSeen, seen_by, told_since, view_of};

use acl_reading::RuleReading;
use acl_rules::Ctx;
use censored_view::{censored_view_law, whole_view};
use doc_model::{DocReader, View, ViewActionList};
use plain_view::changes;
use std::alloc::{AllocError, Global};

/// What a context shows of the document.
///
/// Errors: out of memory. Cost: that of `whole_view`.
pub fn view_of<D: DocReader>(alloc: Global, tables: &D, ctx: &Ctx) -> Result<View, AllocError>
    requires { IsLaidOut (D.document tables.now) }
    ensures value { IfOk result (λ v. v ≡ view_of (D.document tables.now) ctx.now) }
    ensures seen { IfOk result IsSeen }
{
    Ok(whole_view(alloc, &RuleReading { ctx }, tables)?)
}

/// What each context shows of the document, in order. It is kept for `tell_whole` while a bundle is
/// done that changes the schema or a context.
///
/// Errors: out of memory. Cost: for each context, that of `whole_view`.
pub fn see_all<D: DocReader>(
    alloc: Global,
    tables: &D,
    contexts: &[Ctx],
) -> Result<Vec<View>, AllocError>
    requires { IsLaidOut (D.document tables.now) }
    ensures value { IfOk result
        (λ l. l.items ≡ map (view_of (D.document tables.now)) contexts.now) }
    ensures seen { IfOk result (λ l. AllByRecursion IsSeen l.items) }
{
    censored_view_law();
    let mut views = Vec::new(alloc);
    for ctx in contexts {
        views.push(view_of(alloc, tables, ctx)?)?;
    }
    Ok(views)
}

// The changes from a view to what a context shows.
pub(crate) fn changes_since<D: DocReader>(
    alloc: Global,
    tables: &D,
    before: &View,
    ctx: &Ctx,
) -> Result<ViewActionList, AllocError>
    requires laid_out { IsLaidOut (D.document tables.now) }
    requires seen { IsSeen before.now }
    ensures { IfOk result
        (λ l. l ≡ changes before.now.tables (seen_by (D.document tables.now) ctx.now)) }
{
    let after = view_of(alloc, tables, ctx)?;
    Ok(changes(alloc, before, &after)?)
}

/// Place by place, the changes from a view before a bundle to what the context that is in force now
/// shows of the document after it.
///
/// Errors: out of memory. Cost: for each context, that of `whole_view` and of `changes`.
pub fn tell_whole<D: DocReader>(
    alloc: Global,
    tables: &D,
    before: &[View],
    contexts: &[Ctx],
) -> Result<Vec<ViewActionList>, AllocError>
    requires laid_out { IsLaidOut (D.document tables.now) }
    requires seen { AllByRecursion IsSeen before.now }
    ensures { IfOk result
        (λ l. l.items ≡ told_since (D.document tables.now) before.now contexts.now) }
{
    let mut told = Vec::new(alloc);
    for (view, ctx) in before.iter().zip(contexts) {
        told.push(changes_since(alloc, tables, view, ctx)?)?;
    }
    Ok(told)
}
