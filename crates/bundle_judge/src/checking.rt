//! Steps done between their checks by the rules.

ghost use Rattle.std.specs.Prelude.{◌≡◌, ◌&&◌, [], ◌∷◌, not, true, false, map, option_map, IfOk, OnOk, MatchOption, None, Some};
ghost use Rattle.doc_model.specs.Apply.{all_valid, apply};
ghost use Rattle.doc_model.specs.DocumentLaws.{IsWhole};
ghost use Rattle.doc_model.specs.Valid.{valid};
ghost use Rattle.user_actions.specs.StepLaws.{action_of};
ghost use Rattle.acl_checks.specs.BeforeStep.{row_of};
ghost use Rattle.acl_checks.specs.Unchecked.{are_unchecked};
ghost use Rattle.recalc.specs.Evaluated.{filled};
ghost use Rattle.bundle_judge.specs.CarriedContexts.{MayCarry, carried_context, is_kept, renames};
ghost use Rattle.rule_contexts.specs.Context.{carry};
ghost use Rattle.bundle_judge.specs.Denials.{denial_at, denial_of, denied_by, denying_row};
ghost use Rattle.bundle_judge.specs.JudgedActions.{AreLetDone};
ghost use Rattle.bundle_judge.specs.Losses.{AreTold};
ghost use Rattle.bundle_judge.specs.Rollback.{AllLeadBack, gone_back};

use crate::bare_verdict::BareVerdict;
use crate::carried_context::CarriedContext;
use crate::rollback::{Trail, do_one};
use acl_checks::laws::unchecked_law;
use acl_checks::{after_step, are_unchecked, before_step};
use acl_rules::{Ctx, RuleId, rule_ref};
use doc_model::{DocTables, Step};
use evaluated_doc::Doc;
use std::alloc::{AllocError, Global};

// The denial of the action at that index by a rule, where one denies it.
fn denied_by(
    alloc: Global,
    ctx: &Ctx,
    index: u32,
    rule: Option<RuleId>,
) -> Result<Option<BareVerdict>, AllocError>
    ensures { IfOk result (λ o. o ≡ denied_by ctx.now index (option_map row_of rule)) }
{
    let Some(rule) = rule else {
        return Ok(None);
    };
    Ok(Some(BareVerdict::Denied {
        action: index,
        rule: rule_ref(alloc, &ctx.book, rule)?,
    }))
}

// Whether a step is checked: a direct one is, where the rules may deny anything.
fn is_checked(ctx: &Ctx, step: &Step) -> bool
    ensures { result ≡ (step.now.direct && not (are_unchecked ctx.now)) }
{
    step.direct && !are_unchecked(ctx)
}

// Does a valid step as `do_one` does it, and tells the rule that denies it.
fn do_between<D: DocTables>(
    alloc: Global,
    doc: &mut Doc<D>,
    ctx: &Ctx,
    step: &Step,
    trail: &mut Trail<D>,
) -> Result<Option<RuleId>, AllocError>
    requires whole { IsWhole (D.document doc.old) }
    requires valid { valid (D.document doc.old) step.now.action ≡ true }
    requires led { AllLeadBack D.fits D.undone trail.old.traces.items (D.document doc.old) }
    ensures denied { IfOk result
        (λ o. option_map row_of o ≡ denying_row ctx.now (D.document doc.old) step.now) }
    ensures whole { OnOk result (IsWhole (D.document doc.new)) }
    ensures done { OnOk result (D.document doc.new ≡ apply (D.document doc.old) step.now.action) }
    ensures led { AllLeadBack D.fits D.undone trail.new.traces.items (D.document doc.new) }
    ensures back { gone_back D.fits D.undone trail.new.traces.items (D.document doc.new)
        ≡ gone_back D.fits D.undone trail.old.traces.items (D.document doc.old) }
    ensures told { OnOk result (AreTold (D.document doc.old) (step.now ∷ [])
        trail.old.traces.items trail.new.traces.items trail.old.inverse trail.new.inverse) }
{
    unchecked_law();
    if is_checked(ctx, step) {
        let before = before_step(alloc, ctx, doc, &step.action)?;
        do_one(alloc, doc, step, trail)?;
        return Ok(after_step(ctx, &before, doc, &step.action));
    }
    do_one(alloc, doc, step, trail)?;
    Ok(None)
}

/// Does a valid step of the action at that index as `do_one` does it, and carries the context
/// along. Answers the denial of the step, where a rule denies it.
pub fn do_checked<D: DocTables>(
    alloc: Global,
    doc: &mut Doc<D>,
    carried: &mut CarriedContext<'_>,
    index: u32,
    step: &Step,
    trail: &mut Trail<D>,
) -> Result<Option<BareVerdict>, AllocError>
    requires whole { IsWhole (D.document doc.old) }
    requires valid { valid (D.document doc.old) step.now.action ≡ true }
    requires led { AllLeadBack D.fits D.undone trail.old.traces.items (D.document doc.old) }
    requires may_carry { is_kept carried.old ≡ true → renames step.now ≡ false }
    ensures denied { IfOk result
        (λ o. o ≡ denial_at (carried_context carried.old) (D.document doc.old) index step.now) }
    ensures carried { OnOk result (carried_context carried.new
        ≡ carry step.now.action (carried_context carried.old)) }
    ensures kept { OnOk result (is_kept carried.new ≡ is_kept carried.old) }
    ensures whole { OnOk result (IsWhole (D.document doc.new)) }
    ensures done { OnOk result (D.document doc.new ≡ apply (D.document doc.old) step.now.action) }
    ensures led { AllLeadBack D.fits D.undone trail.new.traces.items (D.document doc.new) }
    ensures back { gone_back D.fits D.undone trail.new.traces.items (D.document doc.new)
        ≡ gone_back D.fits D.undone trail.old.traces.items (D.document doc.old) }
    ensures told { OnOk result (AreTold (D.document doc.old) (step.now ∷ [])
        trail.old.traces.items trail.new.traces.items trail.old.inverse trail.new.inverse) }
{
    let rule = do_between(alloc, doc, carried.context(), step, trail)?;
    let denial = denied_by(alloc, carried.context(), index, rule)?;
    match carried.carry(alloc, &step.action) {
        Ok(()) => Ok(denial),
        Err(error) => {
            drop(denial);
            Err(error)
        }
    }
}

/// Does the valid steps of the action at that index, up to the first that a rule denies, as
/// `do_all` does them, and carries the context along. When out of memory, some of them are done.
pub fn do_all_checked<D: DocTables>(
    alloc: Global,
    doc: &mut Doc<D>,
    carried: &mut CarriedContext<'_>,
    index: u32,
    steps: &[Step],
    trail: &mut Trail<D>,
) -> Result<Option<BareVerdict>, AllocError>
    requires whole { IsWhole (D.document doc.old) }
    requires valid { all_valid (D.document doc.old) (map action_of steps.now) ≡ true }
    requires led { AllLeadBack D.fits D.undone trail.old.traces.items (D.document doc.old) }
    requires may_carry { MayCarry carried.old steps.now }
    ensures ok { IfOk result (λ o. MatchOption o
        (AreLetDone (carried_context carried.old) (D.document doc.old) index steps.now
        (carried_context carried.new) (D.document doc.new))
        (λ v. denial_of (carried_context carried.old) (D.document doc.old) index steps.now
        ≡ Some v)) }
    ensures kept { OnOk result (is_kept carried.new ≡ is_kept carried.old) }
    ensures led { AllLeadBack D.fits D.undone trail.new.traces.items (D.document doc.new) }
    ensures back { gone_back D.fits D.undone trail.new.traces.items (D.document doc.new)
        ≡ gone_back D.fits D.undone trail.old.traces.items (D.document doc.old) }
    ensures told { IfOk result (λ o. o ≡ None → AreTold (D.document doc.old) steps.now
        trail.old.traces.items trail.new.traces.items trail.old.inverse trail.new.inverse) }
{
    for step in steps {
        match do_checked(alloc, doc, carried, index, step, trail)? {
            Some(denial) => return Ok(Some(denial)),
            None => {}
        }
    }
    Ok(None)
}
