//! The audit of a document, of which no row is read.

ghost use Rattle.std.specs.Prelude.{◌≡◌, IfOk};
ghost use Rattle.doc_model.specs.LaidOut.{IsLaidOut};
ghost use Rattle.acl_reading.specs.RulesLet.{rules_let};
ghost use Rattle.censored_view.specs.View.{view};
ghost use Rattle.rule_audit.specs.Closed.{audit};

use crate::faults::{Audit, audit_of};
use acl_reading::RuleReading;
use acl_rules::Ctx;
use cell_types::Name;
use censored_view::{Selection, part};
use doc_model::DocReader;
use std::alloc::{AllocError, Global};

// All tables without their rows.
#[derive(Drop)]
struct Rowless;

impl Selection for Rowless {
    ghost use Rattle.std.specs.Prelude.{true, false};

    ghost takes = { λ _ table. true };

    ghost takes_row = { λ _ table row. false };

    fn takes_table(&self, _table: &Name) -> bool {
        true
    }

    fn rows_taken(
        &self,
        alloc: Global,
        _table: &Name,
        _rows: &[u32],
    ) -> Result<Vec<u32>, AllocError> {
        Ok(Vec::new(alloc))
    }
}

/// Whether verdicts on what the user writes can tell the user anything beyond what the context
/// shows of the document; and if so, by what first.
///
/// Errors: out of memory. Memory: the tables and columns that the user sees, while it is at work.
/// Cost: the squares of the tables and of each one's columns, and that of `audit_of`; no row is
/// read.
pub fn audit<D: DocReader>(alloc: Global, ctx: &Ctx, tables: &D) -> Result<Audit, AllocError>
    requires { IsLaidOut (D.document tables.now) }
    ensures { IfOk result (λ a. a
        ≡ audit ctx.now (view (rules_let ctx.now) (D.document tables.now))) }
{
    let shown = part(alloc, &RuleReading { ctx }, tables, &Rowless)?;
    audit_of(alloc, ctx, &shown)
}
