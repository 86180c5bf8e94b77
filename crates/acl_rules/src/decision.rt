//! What a rule decides, and the rule behind all others.

ghost use Rattle.std.specs.Prelude.{◌≡◌};
ghost use Rattle.acl_formula.specs.Asked.{asked_by};
ghost use Rattle.acl_rules.specs.Decided.{truth_in, is_match, decides, answer, is_allowed_so, built_in};

use crate::book::RuleBook;
use crate::rule::Rule;
use acl_formula::{Perm, PermSet, RowReader, RuleTruth, UserInfo, eval_rule};
use doc_model::User;

/// A rule by its row of `_grist_ACLRules`; 0 is the built-in rule behind all others.
#[derive(Clone, Copy, Debug, PartialEq, Eq)]
pub struct RuleId {
    pub row: u32,
}

/// What is decided of a permission.
#[derive(Clone, Copy, Debug, PartialEq, Eq)]
pub enum Decision {
    Allow,
    /// By the rule that denies it.
    Deny(RuleId),
}

/// A user, with the rules that are in force.
#[derive(Drop)]
pub struct Ctx {
    pub book: RuleBook,
    pub user: UserInfo,
}

// What a rule's formula comes to.
fn truth_in<W: RowReader>(
    rule: &Rule,
    user: &UserInfo,
    rec: Option<&W>,
    new_rec: Option<&W>,
) -> RuleTruth
    ensures { result ≡ truth_in (asked_by W.told user.now rec.entry new_rec.entry) rule.now }
{
    match &rule.formula {
        Some(tree) => eval_rule(tree, user, rec, new_rec),
        None => RuleTruth::Fails,
    }
}

fn is_match(perm: Perm, permissions: &PermSet, truth: RuleTruth) -> bool
    ensures { result ≡ is_match perm permissions.now truth }
{
    match truth {
        RuleTruth::True => true,
        RuleTruth::False => false,
        RuleTruth::Fails => permissions.denied.has(perm),
    }
}

/// Whether the rule decides the permission. The formula is asked last.
///
/// Memory: none.
pub fn decides<W: RowReader>(
    perm: Perm,
    rule: &Rule,
    user: &UserInfo,
    rec: Option<&W>,
    new_rec: Option<&W>,
) -> bool
    ensures { result ≡ decides (asked_by W.told user.now rec.entry new_rec.entry) perm rule.now }
{
    let permissions = &rule.permissions;
    if !permissions.allowed.has(perm) && !permissions.denied.has(perm) {
        return false;
    }
    is_match(perm, permissions, truth_in(rule, user, rec, new_rec))
}

// What the rule decides.
pub(crate) fn answer(perm: Perm, rule: &Rule) -> Decision
    ensures { result ≡ answer perm rule.now }
{
    if rule.permissions.denied.has(perm) {
        return Decision::Deny(RuleId { row: rule.row });
    }
    Decision::Allow
}

fn is_allowed_so(user: &User, perm: Perm) -> bool
    ensures { result ≡ is_allowed_so user.now.access perm }
{
    match &user.access {
        Some(access) => match access.as_str() {
            "owners" | "editors" => true,
            "viewers" => matches!(perm, Perm::R),
            _ => false,
        },
        None => false,
    }
}

/// What the rule behind all others decides.
///
/// Memory: none.
pub fn built_in(user: &User, perm: Perm) -> Decision
    ensures { result ≡ built_in user.now.access perm }
{
    if is_allowed_so(user, perm) {
        return Decision::Allow;
    }
    Decision::Deny(RuleId { row: 0 })
}
