//! Users of whom the rules know something else after a bundle than before it: they are told from
//! what they saw, and all others by the rows that the bundle touched.

ghost use Rattle.std.specs.Prelude.{◌≡◌, Some, IfOk, OnOk};
ghost use Rattle.std.specs.List.{AllByRecursion};
ghost use Rattle.doc_model.specs.DocumentLaws.{IsWhole};
ghost use Rattle.recalc.specs.Evaluated.{filled};
ghost use Rattle.user_attrs.specs.Attributes.{attributes_of};
ghost use Rattle.context_changes.specs.Differing.{AreKeptOf, IsKeptOf, IsSeenIfKept, all_told_with, told_with_at};
ghost use Rattle.context_changes.specs.Told.{IsSeen};

use crate::views::{changes_since, view_of};
use acl_formula::UserInfo;
use acl_rules::Ctx;
use agreeing_contexts::{UserField, are_same_in};
use doc_model::{DocTables, View, ViewActionList};
use evaluated_doc::Doc;
use rule_contexts::context_with;
use std::alloc::{AllocError, Global};
use user_attrs::AttributeRule;

// What the context shows, where rules that ask for these fields get something else of its user now.
#[tactic(auto, using(recalc::proofs::FilledLaws::laid_out_law))]
fn view_if_differing<D: DocTables>(
    alloc: Global,
    doc: &Doc<D>,
    fields: &[UserField],
    ctx: &Ctx,
    user: &UserInfo,
) -> Result<Option<View>, AllocError>
    requires { IsWhole (D.document doc.now) }
    ensures kept { IfOk result
        (IsKeptOf (filled (D.document doc.now)) fields.now ctx.now user.now) }
    ensures seen { IfOk result IsSeenIfKept }
{
    if are_same_in(fields, &ctx.user, user) {
        return Ok(None);
    }
    Ok(Some(view_of(alloc, doc, ctx)?))
}

/// What each context shows of the document of whose user rules that ask for these fields get
/// something else now; nothing of others.
///
/// Errors: out of memory. Cost: for each user the fields, and of those who differ that of
/// `whole_view`.
pub fn see_differing<D: DocTables>(
    alloc: Global,
    doc: &Doc<D>,
    fields: &[UserField],
    contexts: &[Ctx],
    users: &[UserInfo],
) -> Result<Vec<Option<View>>, AllocError>
    requires { IsWhole (D.document doc.now) }
    ensures kept { IfOk result (λ l. AreKeptOf (filled (D.document doc.now)) fields.now
        contexts.now users.now l.items) }
    ensures seen { IfOk result (λ l. AllByRecursion IsSeenIfKept l.items) }
{
    let mut views = Vec::new(alloc);
    for (ctx, user) in contexts.iter().zip(users) {
        views.push(view_if_differing(alloc, doc, fields, ctx, user)?)?;
    }
    Ok(views)
}

// Tells the user of the context at a place what changed since this view.
#[tactic(auto, using(recalc::proofs::FilledLaws::laid_out_law))]
fn tell_at<D: DocTables>(
    alloc: Global,
    doc: &Doc<D>,
    attributes: &[AttributeRule],
    contexts: &[Ctx],
    place: usize,
    view: &View,
    told: &mut [ViewActionList],
) -> Result<(), AllocError>
    requires whole { IsWhole (D.document doc.now) }
    requires attributes { attributes.now ≡ attributes_of (D.document doc.now) }
    requires seen { IsSeen view.now }
    ensures { OnOk result (told.new
        ≡ told_with_at (D.document doc.now) contexts.now place (Some view.now) told.old) }
{
    let Some(ctx) = contexts.get(place) else {
        return Ok(());
    };
    if place < told.len() {
        let now = context_with(alloc, doc, attributes, &ctx.user.user)?;
        told[place] = changes_since(alloc, doc, view, &now)?;
    }
    Ok(())
}

/// Tells those from views who have one, by what is in force for them now; all others are told what
/// they are already. The last is told first.
///
/// Errors: out of memory; some are told then. Cost: for each view that of `context_with`, of
/// `whole_view` and of `changes`.
pub fn tell_differing<D: DocTables>(
    alloc: Global,
    doc: &Doc<D>,
    attributes: &[AttributeRule],
    contexts: &[Ctx],
    views: Vec<Option<View>>,
    told: &mut [ViewActionList],
) -> Result<(), AllocError>
    requires whole { IsWhole (D.document doc.now) }
    requires attributes { attributes.now ≡ attributes_of (D.document doc.now) }
    requires seen { AllByRecursion IsSeenIfKept views.items }
    ensures { OnOk result (told.new
        ≡ all_told_with (D.document doc.now) contexts.now views.items told.old) }
{
    let mut views = views;
    while let Some(kept) = views.pop() {
        if let Some(view) = kept {
            tell_at(alloc, doc, attributes, contexts, views.len(), &view, told)?;
        }
    }
    Ok(())
}
