//! Which rules end the walk of a chain, and which are about reading.

ghost use Rattle.std.specs.Prelude.{◌≡◌};
ghost use Rattle.acl_formula.specs.declared.permissions.Perm.TheVariants as perm;
ghost use Rattle.acl_rules.specs.Decided.{mentions};
ghost use Rattle.acl_reading.specs.Walk.{allows_reading, asks_row, built_in_shows, ends_walk};

use acl_formula::{AttributeRow, Perm, UserInfo};
use acl_rules::{Decision, Rule, built_in, decides};
use doc_model::User;

// Whether the rule's formula uses a row.
fn asks_row(rule: &Rule) -> bool
    ensures { result ≡ asks_row rule.now }
{
    match &rule.formula {
        Some(tree) => tree.uses_row(),
        None => false,
    }
}

/// Whether the rule allows reading.
pub(crate) fn allows_reading(rule: &Rule) -> bool
    ensures { result ≡ allows_reading rule.now }
{
    rule.permissions.allowed.has(Perm::R)
}

/// Whether the rule says something of reading.
pub(crate) fn tells_of_reading(rule: &Rule) -> bool
    ensures { result ≡ mentions perm.R rule.now.permissions }
{
    allows_reading(rule) || rule.permissions.denied.has(Perm::R)
}

/// Whether the rule ends the walk of a chain.
pub(crate) fn ends_walk(rule: &Rule, user: &UserInfo) -> bool
    ensures { result ≡ ends_walk user.now rule.now }
{
    if asks_row(rule) {
        return allows_reading(rule);
    }
    decides::<AttributeRow>(Perm::R, rule, user, None, None)
}

/// Whether the rule behind all others allows reading.
pub(crate) fn built_in_shows(user: &User) -> bool
    ensures { result ≡ built_in_shows user.now.access }
{
    match built_in(user, Perm::R) {
        Decision::Allow => true,
        Decision::Deny(_) => false,
    }
}
