//! What is in force for a user at the start of a bundle, carried along through its steps.

ghost use Rattle.std.specs.Prelude.{◌≡◌, true, false, not, IfOk, OnErr, OnOk};
ghost use Rattle.std.specs.List.{list_any};
ghost use Rattle.acl_rules.specs.Carried.{is_rename};
ghost use Rattle.rule_contexts.specs.Context.{carry, context};
ghost use Rattle.bundle_judge.specs.CarriedContexts.{asks_rename, carried_context, is_kept, renames};

use acl_rules::{Ctx, carry};
use doc_model::{DocAction, DocTables, Step, UserAction};
use evaluated_doc::Doc;
use rule_contexts::context_of;
use std::alloc::{AllocError, Global};

/// The context of a user, as far as steps carry it along: one that is kept, where nothing renames
/// what rules are about, or one of the bundle's own.
#[derive(Drop)]
pub enum CarriedContext<'a> {
    Kept(&'a Ctx),
    Own(Ctx),
}

fn is_rename(action: &DocAction) -> bool
    ensures { result ≡ is_rename action.now }
{
    matches!(
        action,
        DocAction::RenameTable { .. } | DocAction::RenameColumn { .. }
    )
}

fn asks_rename(action: &UserAction) -> bool
    ensures { result ≡ asks_rename action.now }
{
    matches!(
        action,
        UserAction::RenameTable { .. } | UserAction::RenameColumn { .. }
    )
}

/// Whether one of the steps renames what rules are about.
///
/// Memory: none.
pub fn rename_any(steps: &[Step]) -> bool
    ensures { result ≡ list_any renames steps.now }
{
    steps.iter().any(|step| is_rename(&step.action))
}

/// Whether one of the user actions asks for a rename.
///
/// Memory: none.
pub fn ask_renames(requested: &[UserAction]) -> bool
    ensures { result ≡ list_any asks_rename requested.now }
{
    requested.iter().any(|action| asks_rename(action))
}

impl<'a> CarriedContext<'a> {
    /// The context that is in force, to be carried along: where it is moved, the same read anew.
    ///
    /// Errors: out of memory. Memory: none where it is not moved.
    pub fn of<D: DocTables>(
        alloc: Global,
        doc: &Doc<D>,
        ctx: &'a Ctx,
        is_moved: bool,
    ) -> Result<CarriedContext<'a>, AllocError>
        requires { ctx.now ≡ context ctx.now.user.user (D.document doc.now) }
        ensures value { IfOk result (λ x. carried_context x ≡ ctx.now) }
        ensures kept { IfOk result (λ x. is_kept x ≡ not is_moved) }
    {
        if is_moved {
            let own = context_of(alloc, doc, &ctx.user.user)?;
            return Ok(CarriedContext::Own(own));
        }
        Ok(CarriedContext::Kept(ctx))
    }

    /// The context, as far as it is carried.
    pub fn context(&self) -> &Ctx
        ensures { result.now ≡ carried_context self.now }
    {
        match self {
            CarriedContext::Kept(ctx) => *ctx,
            CarriedContext::Own(ctx) => ctx,
        }
    }

    /// Carries it along through a document action.
    ///
    /// Errors: out of memory; it is then as it was. Memory: none where nothing is renamed.
    #[tactic(auto, using(crate::proofs::CarriedLemmas::stays_in_force))]
    pub fn carry(&mut self, alloc: Global, action: &DocAction) -> Result<(), AllocError>
        requires { is_kept self.old ≡ true → is_rename action.now ≡ false }
        ensures ok { OnOk result
            (carried_context self.new ≡ carry action.now (carried_context self.old)) }
        ensures err { OnErr result (self.new ≡ self.old) }
        ensures kept { is_kept self.new ≡ is_kept self.old }
    {
        match self {
            CarriedContext::Kept(_) => Ok(()),
            CarriedContext::Own(ctx) => carry(alloc, &mut ctx.book, action),
        }
    }
}
