//! The rules of a document.

ghost use Rattle.std.specs.Prelude.{◌≡◌, [], ◌∷◌, List, ℕ, None, Some, IfOk, OnOk, OnErr, MatchOption, length, slice_get};
ghost use Rattle.acl_rules.specs.Chain.{is_on, is_of, of_document};
ghost use Rattle.acl_rules.specs.RuleBook.{BookRule, has_no_rules, paired, resources_in, rules_in, memo_of};
ghost use Rattle.acl_rules.specs.Places.{places_of};

use crate::decision::RuleId;
use crate::resource::Resource;
use crate::resources::Resources;
use crate::rule::Rule;
use cell_types::CellText;
use doc_model::RuleRef;
use std::alloc::{AllocError, Global};
use std::marker::Model;

/// The rules of a document in their order, each with what it is about.
#[derive(Drop)]
pub struct RuleBook {
    rules: Vec<Rule>,
    resources: Resources,
}

impl Model for RuleBook {
    ghost use Rattle.std.specs.Prelude.{◌≡◌, List, length};
    ghost use Rattle.std.specs.Coded.{codes};
    ghost use Rattle.acl_rules.specs.contracts.rule.Rule as rule;
    ghost use Rattle.acl_rules.specs.RuleBook.{BookRule, paired};

    ghost Value = { List BookRule };

    ghost coded = { Prim.hlevel (codes, rule.the_row.coded) };

    ghost view = { λ b. paired b.rules.items b.resources };

    ghost invariant = { λ b. length b.rules.items ≡ length b.resources };
}

impl RuleBook {
    /// The book of these rules, each about the resource at its place.
    pub fn new(
        alloc: Global,
        rules: Vec<Rule>,
        resources: Vec<Option<Resource>>,
    ) -> Result<Self, AllocError>
        requires { length rules.items ≡ length resources.items }
        ensures { IfOk result (λ book. book ≡ paired rules.items resources.items) }
    {
        match Resources::new(alloc, resources) {
            Ok(resources) => Ok(RuleBook { rules, resources }),
            Err(error) => {
                drop(rules);
                Err(error)
            }
        }
    }
}

impl RuleBook {
    /// Whether there is no rule.
    ///
    /// Memory: none.
    #[tactic(auto, using(crate::proofs::PlaceLemmas::none_paired))]
    pub fn is_empty(&self) -> bool
        ensures { result ≡ has_no_rules self.now }
    {
        self.rules.as_slice().is_empty()
    }

    /// The rule at a place, with what it is about.
    ///
    /// Memory: none.
    pub fn rule_at(&self, place: usize) -> Option<(&Rule, &Option<Resource>)>
        ensures { MatchOption result (slice_get self.now place ≡ None) (λ found.
            slice_get self.now place
            ≡ Some (record { rule = found.0.now; resource = found.1.now })) }
    {
        pair_at(self.rules.as_slice(), self.resources.as_slice(), place)
    }

    /// What the rules are about, in their order.
    #[tactic(auto, using(crate::proofs::CarryLemmas::resources_paired))]
    pub(crate) fn resources(&self) -> &[Option<Resource>]
        ensures { result.now ≡ resources_in self.now }
    {
        self.resources.as_slice()
    }

    /// Puts what the rules are about in the place of what they were about.
    ///
    /// Errors: out of memory; the book is then as it was.
    #[tactic(auto, using(crate::proofs::CarryLemmas::resources_paired, crate::proofs::PlaceLemmas::rules_paired))]
    pub(crate) fn put_resources(
        &mut self,
        alloc: Global,
        list: Vec<Option<Resource>>,
    ) -> Result<(), AllocError>
        requires { length list.items ≡ length (resources_in self.old) }
        ensures ok { OnOk result (self.new ≡ paired (rules_in self.old) list.items) }
        ensures err { OnErr result (self.new ≡ self.old) }
    {
        self.resources = Resources::new(alloc, list)?;
        Ok(())
    }

    /// Where the rules stand that are about the table or columns of it.
    ///
    /// Memory: none.
    #[tactic(auto, using(crate::proofs::PlaceLemmas::places_paired))]
    pub fn places_on(&self, table: &str) -> &[usize]
        ensures { result.now ≡ places_of (λ (b : BookRule). is_on table.now b.resource) self.now }
    {
        self.resources.places_on(table)
    }

    /// Where the rules stand that are about the document.
    ///
    /// Memory: none.
    #[tactic(auto, using(crate::proofs::PlaceLemmas::places_paired))]
    pub fn places_on_document(&self) -> &[usize]
        ensures { result.now ≡ places_of (λ (b : BookRule). is_of of_document b.resource) self.now }
    {
        self.resources.places_on_document()
    }
}

#[tactic(auto, using(crate::proofs::PlaceLemmas::paired_at, crate::proofs::PlaceLemmas::paired_past, crate::proofs::PlaceLemmas::paired_past_resources))]
fn pair_at<'a>(
    rules: &'a [Rule],
    resources: &'a [Option<Resource>],
    place: usize,
) -> Option<(&'a Rule, &'a Option<Resource>)>
    ensures { MatchOption result (slice_get (paired rules.now resources.now) place ≡ None)
        (λ found. slice_get (paired rules.now resources.now) place
        ≡ Some (record { rule = found.0.now; resource = found.1.now })) }
{
    match rules.get(place) {
        None => None,
        Some(rule) => match resources.get(place) {
            None => None,
            Some(resource) => Some((rule, resource)),
        },
    }
}

// The memo of the first rule with this row.
fn memo_of<'a>(rules: &'a [Rule], row: u32, none: &'a str) -> &'a str
    requires { none.now ≡ [] }
    ensures { result.now ≡ memo_of rules.now row }
{
    for rule in rules {
        if rule.row == row {
            return rule.memo.as_str();
        }
    }
    none
}

/// The rule that denied, with its memo. The memo of the rule behind all others is empty.
///
/// Memory: the memo's. Cost: linear in the rules.
#[tactic(auto, using(crate::proofs::PlaceLemmas::rules_paired))]
pub fn rule_ref(alloc: Global, book: &RuleBook, rule: RuleId) -> Result<RuleRef, AllocError>
    ensures row { IfOk result (λ r. r.row ≡ rule.row) }
    ensures memo { IfOk result (λ r. r.memo ≡ memo_of (rules_in book.now) rule.row) }
{
    let memo = CellText::copy_of(alloc, memo_of(book.rules.as_slice(), rule.row, ""))?;
    Ok(RuleRef {
        row: rule.row,
        memo,
    })
}
