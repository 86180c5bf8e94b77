//! The rows of rules in the order in which they are asked.

ghost use Rattle.std.specs.Prelude.{◌≡◌, IfOk, map};
ghost use Rattle.doc_model.specs.Rows.{IsAscending};
ghost use Rattle.acl_rules.specs.Loaded.{by_place, rule_rows};
ghost use Rattle.acl_rules.specs.Placing.{placed};
ghost use Rattle.acl_rules.specs.RuleIds.{AreRuleIds};

use crate::rule_ids::{RuleIds, rule_ids};
use crate::told_cells::number_in;
use doc_model::DocReader;
use std::alloc::{AllocError, Global};

/// The rows of the rules, none where their table is not there.
fn rule_rows<'a, D: DocReader>(tables: &'a D, ids: &RuleIds) -> &'a [u32]
    requires { AreRuleIds ids.now }
    ensures value { result.now ≡ rule_rows (D.document tables.now) }
    ensures ascending { IsAscending result.now }
{
    match tables.rows(&ids.rules) {
        Some(rows) => rows,
        None => &[],
    }
}

// Each row with its place in front.
fn placed_rows<D: DocReader>(
    alloc: Global,
    tables: &D,
    ids: &RuleIds,
    rows: &[u32],
) -> Result<Vec<(i64, u32)>, AllocError>
    requires { AreRuleIds ids.now }
    ensures { IfOk result (λ v. v.items ≡ map (placed (D.document tables.now)) rows.now) }
{
    let mut made = Vec::new(alloc);
    for row in rows {
        let place = number_in(tables, &ids.rules, &ids.place, *row);
        made.push((place, *row))?;
    }
    Ok(made)
}

/// The rows of the rules with their places, in the order of these; rows of one place in the order
/// of their numbers.
///
/// Errors: out of memory. Cost: sorting them.
#[tactic(auto, using(crate::proofs::PlacingLemmas::sorted_placed))]
pub(crate) fn rows_by_place<D: DocReader>(
    alloc: Global,
    tables: &D,
    ids: &RuleIds,
) -> Result<Vec<(i64, u32)>, AllocError>
    requires { AreRuleIds ids.now }
    ensures { IfOk result (λ v. v.items ≡ map (placed (D.document tables.now))
        (by_place (D.document tables.now) (rule_rows (D.document tables.now)))) }
{
    let mut sorted = placed_rows(alloc, tables, ids, rule_rows(tables, ids))?;
    sorted.sort()?;
    Ok(sorted)
}

/// The rows of a document's rules with their places, in the order in which rules are asked.
///
/// Errors: out of memory.
/// Memory: a pair of numbers for each rule. Cost: sorting them.
pub fn rules_by_place<D: DocReader>(
    alloc: Global,
    tables: &D,
) -> Result<Vec<(i64, u32)>, AllocError>
    ensures { IfOk result (λ v. v.items ≡ map (placed (D.document tables.now))
        (by_place (D.document tables.now) (rule_rows (D.document tables.now)))) }
{
    let ids = rule_ids(alloc)?;
    rows_by_place(alloc, tables, &ids)
}
