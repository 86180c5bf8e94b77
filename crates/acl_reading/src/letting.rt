//! The rules in force as what lets a user read.

ghost use Rattle.std.specs.Prelude.{◌≡◌, IfOk};
ghost use Rattle.censored_view.specs.Tested.{AreRowTests};
ghost use Rattle.acl_reading.specs.RulesLet.{is_owner, reach_of, reached, shown_of};

use crate::choosing::{always, own_tests, row_tests};
use crate::shown::{
    has_own_rules, is_bare_shown, is_cell_shown, is_column_shown, is_formula_shown, own_answer,
};
use acl_formula::RowReader;
use acl_rules::Ctx;
use cell_types::Name;
use censored_view::{Lets, RowTests};
use doc_readers::{is_acl_id, is_schema_id};
use std::alloc::{AllocError, Global};

/// The rules in force for a user, as what lets the user read. The schema tables are hidden, and the
/// tables of the access rules are shown to owners alone.
#[derive(Clone, Copy)]
pub struct RuleReading<'a> {
    pub ctx: &'a Ctx,
}

// How far a table is shown, before its rules are asked.
#[derive(Clone, Copy)]
pub(crate) enum Reach {
    Hidden,
    Whole,
    ByRules,
}

fn is_owner(ctx: &Ctx) -> bool
    ensures { result ≡ is_owner ctx.now }
{
    match &ctx.user.user.access {
        Some(access) => access.as_str() == "owners",
        None => false,
    }
}

fn reach_of(ctx: &Ctx, table: &Name) -> Reach
    ensures { result ≡ reach_of ctx.now table.now }
{
    if is_schema_id(table.as_str()) {
        return Reach::Hidden;
    }
    if !is_acl_id(table.as_str()) {
        return Reach::ByRules;
    }
    if is_owner(ctx) {
        Reach::Whole
    } else {
        Reach::Hidden
    }
}

// The tests of the rows of a table that is shown so far.
fn tests_within<'a>(
    alloc: Global,
    ctx: &'a Ctx,
    table: &Name,
    reach: Reach,
) -> Result<RowTests<'a>, AllocError>
    ensures { IfOk result (AreRowTests (reached reach (shown_of ctx.now table.now))) }
{
    match reach {
        Reach::Hidden => Ok(always(alloc, &ctx.user, false)),
        Reach::Whole => Ok(always(alloc, &ctx.user, true)),
        Reach::ByRules => row_tests(alloc, ctx, table),
    }
}

impl Lets for RuleReading<'_> {
    ghost use Rattle.acl_reading.specs.RulesLet.{rules_let};

    ghost lets = { λ r. rules_let r.ctx.now };

    #[tactic(auto, using(crate::proofs::LettingLemmas::let_by_reach))]
    fn is_bare_shown(&self, table: &Name) -> bool {
        match reach_of(self.ctx, table) {
            Reach::Hidden => false,
            Reach::Whole => true,
            Reach::ByRules => is_bare_shown(self.ctx, table),
        }
    }

    #[tactic(auto, using(crate::proofs::LettingLemmas::let_by_reach))]
    fn is_column_shown(&self, table: &Name, column: &Name) -> bool {
        match reach_of(self.ctx, table) {
            Reach::Hidden => false,
            Reach::Whole => true,
            Reach::ByRules => is_column_shown(self.ctx, table, column),
        }
    }

    #[tactic(auto, using(crate::proofs::LettingLemmas::let_by_reach))]
    fn is_formula_shown(&self, table: &Name, column: &Name) -> bool {
        match reach_of(self.ctx, table) {
            Reach::Hidden => false,
            Reach::Whole => true,
            Reach::ByRules => is_formula_shown(self.ctx, table, column),
        }
    }

    fn has_own_rules(&self, table: &Name, column: &Name) -> bool {
        match reach_of(self.ctx, table) {
            Reach::Hidden | Reach::Whole => false,
            Reach::ByRules => has_own_rules(self.ctx, table, column),
        }
    }

    fn own_answer<W: RowReader>(&self, table: &Name, column: &Name, row: &W) -> Option<bool> {
        match reach_of(self.ctx, table) {
            Reach::Hidden | Reach::Whole => None,
            Reach::ByRules => own_answer(self.ctx, table, column, row),
        }
    }

    #[tactic(auto, using(crate::proofs::LettingLemmas::let_by_reach))]
    fn is_cell_shown<W: RowReader>(&self, table: &Name, column: Option<&Name>, row: &W) -> bool {
        match reach_of(self.ctx, table) {
            Reach::Hidden => false,
            Reach::Whole => true,
            Reach::ByRules => is_cell_shown(self.ctx, table, column, row),
        }
    }

    fn row_tests<'a>(
        &'a self,
        alloc: Global,
        table: &Name,
    ) -> Result<Option<RowTests<'a>>, AllocError> {
        let tests = tests_within(alloc, self.ctx, table, reach_of(self.ctx, table))?;
        Ok(Some(tests))
    }

    fn own_tests<'a>(
        &'a self,
        alloc: Global,
        table: &Name,
        column: &Name,
    ) -> Result<Option<RowTests<'a>>, AllocError> {
        match reach_of(self.ctx, table) {
            Reach::Hidden | Reach::Whole => Ok(None),
            Reach::ByRules => {
                let tests = own_tests(alloc, self.ctx, table, column)?;
                Ok(Some(tests))
            }
        }
    }
}
