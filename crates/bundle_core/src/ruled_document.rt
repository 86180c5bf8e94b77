//! An evaluated document, with what is known of its rules.

ghost use Rattle.std.specs.Prelude.{◌≡◌, None, Some, true, IfOk, OnErr};
ghost use Rattle.std.specs.List.{list_all};
ghost use Rattle.doc_model.specs.Changes.{IsView};
ghost use Rattle.doc_model.specs.DocumentLaws.{IsWhole};
ghost use Rattle.doc_model.specs.LaidOut.{IsLaidOut};
ghost use Rattle.doc_model.specs.WellFormed.{is_well_formed};
ghost use Rattle.action_limits.specs.Tallies.{IsTally};
ghost use Rattle.undo_bundles.specs.BundleLog.{undo_of};
ghost use Rattle.bundle_judge.specs.JudgedBundles.{IsDoneBundle, IsJudgedBundle};
ghost use Rattle.bundle_judge.specs.Judgement.{judge};
ghost use Rattle.bundle_judge.specs.Rollback.{AllLeadBack, gone_back};
ghost use Rattle.bundle_judge.specs.Undo.{judge_own_undo};
ghost use Rattle.context_changes.specs.Known.{AreKnown};
ghost use Rattle.censored_view.specs.View.{view as shown_by};
ghost use Rattle.acl_reading.specs.RulesLet.{rules_let};
ghost use Rattle.rule_contexts.specs.Context.{view, view_in};
ghost use Rattle.bundle_core.specs.Mailbox.{asked_table};
ghost use Rattle.bundle_core.specs.Renaming.{rules_alone};

use acl_reading::RuleReading;
use acl_rules::Ctx;
use action_limits::Tally;
use bundle_judge::{JudgedBundle, Trail, judge, judge_own_undo};
use cell_types::Name;
use censored_view::{Selection, part, whole_view};
use context_changes::KnownContexts;
use doc_model::{DocReader, DocTables, User, UserAction, View};
use doc_readers::is_acl_id;
use evaluated_doc::Doc;
use std::alloc::{AllocError, Global};
use std::marker::Model;
use undo_bundles::BundleLog;

/// An evaluated document, with what is in force for users in it, as far as it was asked for. It is
/// seen as the document alone.
#[derive(Drop)]
pub(crate) struct RuledDocument<D: DocTables> {
    pub doc: Doc<D>,
    pub known: KnownContexts,
}

impl<D: DocTables> Model for RuledDocument<D> {
    ghost use Rattle.context_changes.specs.Known.{AreKnown};

    ghost Value = { D };

    ghost view = { λ r. r.doc };

    ghost invariant = { λ r. AreKnown (D.document r.doc) r.known };
}

// The table of that id, with all its rows.
#[derive(Drop)]
struct Asked<'a> {
    table: &'a str,
}

impl Selection for Asked<'_> {
    ghost use Rattle.std.specs.Prelude.{true};
    ghost use Rattle.std.specs.Str.{bytes_eq};

    ghost takes = { λ x table. bytes_eq table x.table.now };

    ghost takes_row = { λ _ table row. true };

    fn takes_table(&self, table: &Name) -> bool {
        table.as_str() == self.table
    }

    fn rows_taken(
        &self,
        alloc: Global,
        _table: &Name,
        rows: &[u32],
    ) -> Result<Vec<u32>, AllocError> {
        let all = Vec::from_slice(alloc, rows)?;
        Ok(all)
    }
}

// All tables, with the rows of the two tables of rules alone.
#[derive(Drop)]
struct RuleRows;

impl Selection for RuleRows {
    ghost use Rattle.std.specs.Prelude.{true};
    ghost use Rattle.doc_model.specs.MetadataIds.{is_acl_id};

    ghost takes = { λ _ table. true };

    ghost takes_row = { λ _ table row. is_acl_id table };

    fn takes_table(&self, _table: &Name) -> bool {
        true
    }

    fn rows_taken(
        &self,
        alloc: Global,
        table: &Name,
        rows: &[u32],
    ) -> Result<Vec<u32>, AllocError> {
        if !is_acl_id(table.as_str()) {
            return Ok(Vec::new(alloc));
        }
        let all = Vec::from_slice(alloc, rows)?;
        Ok(all)
    }
}

// What a context shows of the document.
#[tactic(auto, using(recalc::proofs::FilledLaws::laid_out_law))]
fn view_in<D: DocTables>(alloc: Global, doc: &Doc<D>, ctx: &Ctx) -> Result<View, AllocError>
    requires { IsWhole (D.document doc.now) }
    ensures seen { IfOk result (λ v. v.tables ≡ view_in ctx.now (D.document doc.now)) }
    ensures is_view { IfOk result (λ v. IsView v.tables) }
{
    whole_view(alloc, &RuleReading { ctx }, doc)
}

/// The table of that id as a context shows it of an evaluated document, alone; nothing where it
/// does not show it.
///
/// Errors: out of memory. Cost: the rows of the table.
pub fn shown_table<E: DocReader>(
    alloc: Global,
    evaluated: &E,
    ctx: &Ctx,
    table: &str,
) -> Result<View, AllocError>
    requires { IsLaidOut (E.document evaluated.now) }
    ensures seen { IfOk result (λ v. v.tables
        ≡ asked_table table.now (shown_by (rules_let ctx.now) (E.document evaluated.now))) }
    ensures is_view { IfOk result (λ v. IsView v.tables) }
{
    part(alloc, &RuleReading { ctx }, evaluated, &Asked { table })
}

// The table of that id as a context shows it, alone; nothing where it does not show it.
#[tactic(auto, using(recalc::proofs::FilledLaws::laid_out_law))]
fn table_in<D: DocTables>(
    alloc: Global,
    doc: &Doc<D>,
    ctx: &Ctx,
    table: &str,
) -> Result<View, AllocError>
    requires { IsWhole (D.document doc.now) }
    ensures seen { IfOk result (λ v. v.tables
        ≡ asked_table table.now (view_in ctx.now (D.document doc.now))) }
    ensures is_view { IfOk result (λ v. IsView v.tables) }
{
    shown_table(alloc, doc, ctx, table)
}

// What a context shows of the document, of which no rows are made but those of rules.
#[tactic(auto, using(recalc::proofs::FilledLaws::laid_out_law))]
fn columns_in<D: DocTables>(alloc: Global, doc: &Doc<D>, ctx: &Ctx) -> Result<View, AllocError>
    requires { IsWhole (D.document doc.now) }
    ensures { IfOk result (λ v. v.tables
        ≡ rules_alone (view_in ctx.now (D.document doc.now))) }
{
    part(alloc, &RuleReading { ctx }, doc, &RuleRows)
}

impl<D: DocTables> RuledDocument<D> {
    /// The document, where nothing was asked of it yet.
    ///
    /// Errors: out of memory.
    pub fn new(alloc: Global, doc: Doc<D>) -> Result<Self, AllocError>
        ensures { IfOk result (λ r. r ≡ doc) }
    {
        let known = KnownContexts::load(alloc, &doc)?;
        Ok(RuledDocument { doc, known })
    }

    /// The document, with its cells evaluated.
    pub fn evaluated(&self) -> &Doc<D>
        ensures { result.now ≡ self.now }
    {
        &self.doc
    }

    /// What the user sees now.
    pub fn view_seen(&self, alloc: Global, user: &User) -> Result<View, AllocError>
        requires { IsWhole (D.document self.now) }
        ensures seen { IfOk result (λ v. v.tables ≡ view user.now (D.document self.now)) }
        ensures is_view { IfOk result (λ v. IsView v.tables) }
    {
        let found = self.known.found(alloc, &self.doc, user)?;
        view_in(alloc, &self.doc, found.context())
    }

    /// The tables and columns that the user sees now, with no rows but those of rules.
    pub fn columns_seen(&self, alloc: Global, user: &User) -> Result<View, AllocError>
        requires { IsWhole (D.document self.now) }
        ensures { IfOk result (λ v. v.tables
            ≡ rules_alone (view user.now (D.document self.now))) }
    {
        let found = self.known.found(alloc, &self.doc, user)?;
        columns_in(alloc, &self.doc, found.context())
    }

    /// The table of that id as the user sees it now, alone; nothing where the user does not see it.
    pub fn table_seen(&self, alloc: Global, user: &User, table: &str) -> Result<View, AllocError>
        requires { IsWhole (D.document self.now) }
        ensures seen { IfOk result (λ v. v.tables
            ≡ asked_table table.now (view user.now (D.document self.now))) }
        ensures is_view { IfOk result (λ v. IsView v.tables) }
    {
        let found = self.known.found(alloc, &self.doc, user)?;
        table_in(alloc, &self.doc, found.context(), table)
    }
}

/// Judges a bundle of the user by what is in force for the user in the document, as `judge` of
/// `bundle_judge` does.
///
/// Errors: out of memory.
pub(crate) fn judge_for<D: DocTables>(
    alloc: Global,
    doc: &mut Doc<D>,
    known: &KnownContexts,
    tally: Tally,
    user: &User,
    requested: &[UserAction],
) -> Result<(JudgedBundle, Trail<D>), AllocError>
    requires known { AreKnown (D.document doc.old) known.now }
    requires whole { IsWhole (D.document doc.old) }
    requires tally { IsTally (D.document doc.old) tally }
    requires well_formed { list_all is_well_formed requested.now ≡ true }
    ensures judged { IfOk result (λ r. IsJudgedBundle
        (judge user.now (D.document doc.old) requested.now) None (D.document doc.old) r.0) }
    ensures done { IfOk result (λ r. IsDoneBundle (D.document doc.old) (D.document doc.new)
        r.1.traces.items r.1.inverse r.0) }
    ensures led { IfOk result
        (λ r. AllLeadBack D.fits D.undone r.1.traces.items (D.document doc.new)) }
    ensures back { IfOk result (λ r. gone_back D.fits D.undone r.1.traces.items
        (D.document doc.new) ≡ D.document doc.old) }
    ensures err { OnErr result (D.document doc.new ≡ D.document doc.old) }
{
    let found = known.found(alloc, doc, user)?;
    judge(alloc, doc, tally, found.context(), requested)
}

/// Judges the undo of the bundle of that number in a user's log by what is in force for the user in
/// the document, as `judge_own_undo` of `bundle_judge` does.
///
/// Errors: out of memory.
pub(crate) fn judge_undo_for<D: DocTables>(
    alloc: Global,
    doc: &mut Doc<D>,
    known: &KnownContexts,
    tally: Tally,
    user: &User,
    log: &BundleLog,
    number: u64,
) -> Result<(JudgedBundle, Trail<D>), AllocError>
    requires known { AreKnown (D.document doc.old) known.now }
    requires whole { IsWhole (D.document doc.old) }
    requires tally { IsTally (D.document doc.old) tally }
    ensures judged { IfOk result (λ r. IsJudgedBundle
        (judge_own_undo user.now (undo_of log.now.log number) (D.document doc.old))
        (Some number) (D.document doc.old) r.0) }
    ensures done { IfOk result (λ r. IsDoneBundle (D.document doc.old) (D.document doc.new)
        r.1.traces.items r.1.inverse r.0) }
    ensures led { IfOk result
        (λ r. AllLeadBack D.fits D.undone r.1.traces.items (D.document doc.new)) }
    ensures back { IfOk result (λ r. gone_back D.fits D.undone r.1.traces.items
        (D.document doc.new) ≡ D.document doc.old) }
    ensures err { OnErr result (D.document doc.new ≡ D.document doc.old) }
{
    let found = known.found(alloc, doc, user)?;
    judge_own_undo(alloc, doc, tally, found.context(), log, number)
}
