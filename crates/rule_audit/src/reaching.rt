//! Which rules are reached, and whether what they mention is safe.

ghost use Rattle.std.specs.Prelude.{◌≡◌, ℕ, map, Option, Some, None};
ghost use Rattle.std.specs.List.{list_all};
ghost use Rattle.formula_parse.specs.Lexemes.{is_id};
ghost use Rattle.acl_rules.specs.Decided.{mentions};
ghost use Rattle.rule_audit.specs.Closed.{chain_stop};
ghost use Rattle.rule_audit.specs.Reached.{ends_reach, has_open, is_column_safe, is_field_safe, is_given, is_rule_safe, is_safe, reach_stop};

use crate::opening::asks_row;
use crate::question::Question;
use crate::stop::Stop;
use crate::walking::{column_chain_stop, table_chain_stop};
use acl_formula::{AttributeRow, Mention, Perm, UserInfo};
use acl_rules::{Ctx, Rule, decides};
use cell_types::Name;
use doc_model::ViewCol;

#[tactic(auto, unfolding(formula_parse::specs::Lexemes::id_word))]
fn is_id(name: &str) -> bool
    ensures { result ≡ is_id name.now }
{
    name == "id"
}

// Whether what the open column holds is told: of a row that goes, and of a new row or a changed one
// where it has no formula.
fn is_given(perm: Perm, column: &ViewCol) -> bool
    ensures { result ≡ is_given perm column.now }
{
    matches!(perm, Perm::D) || !column.is_formula
}

fn is_column_safe(perm: Perm, opened: &[&ViewCol], name: &str) -> bool
    ensures { result ≡ is_column_safe perm (map (λ c. c.now) opened.now) name.now }
{
    for column in opened {
        if column.id.as_str() == name && is_given(perm, column) {
            return true;
        }
    }
    false
}

fn has_open(opened: &[&ViewCol]) -> bool
    ensures { result ≡ has_open (map (λ c. c.now) opened.now) }
{
    opened.first().is_some()
}

fn is_field_safe(perm: Perm, opened: &[&ViewCol], name: &Name) -> bool
    ensures { result ≡ is_field_safe perm (map (λ c. c.now) opened.now) name.now }
{
    if is_id(name.as_str()) {
        return has_open(opened);
    }
    is_column_safe(perm, opened, name.as_str())
}

fn is_safe(perm: Perm, opened: &[&ViewCol], mention: &Mention) -> bool
    ensures { result ≡ is_safe perm (map (λ c. c.now) opened.now) mention.now }
{
    match mention {
        Mention::Rec(name) | Mention::NewRec(name) => is_field_safe(perm, opened, name),
        Mention::User(_) => true,
    }
}

fn are_safe(perm: Perm, opened: &[&ViewCol], mentions: &[Mention]) -> bool
    ensures { result ≡ list_all (is_safe perm (map (λ c. c.now) opened.now)) mentions.now }
{
    mentions
        .iter()
        .all(|mention| is_safe(perm, opened, mention))
}

fn is_rule_safe(perm: Perm, opened: &[&ViewCol], rule: &Rule) -> bool
    ensures { result ≡ is_rule_safe (is_safe perm (map (λ c. c.now) opened.now)) rule.now }
{
    match &rule.formula {
        Some(tree) => are_safe(perm, opened, tree.mentions()),
        None => true,
    }
}

// Whether no rule behind this one is reached.
fn ends_reach(user: &UserInfo, perm: Perm, rule: &Rule) -> bool
    ensures { result ≡ ends_reach user.now perm rule.now }
{
    !asks_row(rule) && decides::<AttributeRow>(perm, rule, user, None, None)
}

fn mentions(perm: Perm, rule: &Rule) -> bool
    ensures { result ≡ mentions perm rule.now.permissions }
{
    rule.permissions.allowed.has(perm) || rule.permissions.denied.has(perm)
}

fn reach_stop(user: &UserInfo, perm: Perm, opened: &[&ViewCol], rule: &Rule) -> Option<Stop>
    ensures { result
        ≡ reach_stop user.now perm (is_safe perm (map (λ c. c.now) opened.now)) rule.now }
{
    if !mentions(perm, rule) {
        return None;
    }
    if !is_rule_safe(perm, opened, rule) {
        return Some(Stop::Badly(rule.row));
    }
    if ends_reach(user, perm, rule) {
        return Some(Stop::Well);
    }
    None
}

#[derive(Clone, Copy)]
struct Reaching<'a> {
    user: &'a UserInfo,
    perm: Perm,
    opened: &'a [&'a ViewCol],
}

impl Question for Reaching<'_> {
    ghost use Rattle.std.specs.Prelude.{map};
    ghost use Rattle.rule_audit.specs.Reached.{is_safe, reach_stop};

    ghost says = { λ q. reach_stop q.user.now q.perm
        (is_safe q.perm (map (λ c. c.now) q.opened.now)) };

    fn says(&self, rule: &Rule) -> Option<Stop> {
        reach_stop(self.user, self.perm, self.opened, rule)
    }
}

/// Where the walk stops over the rules of a table's chain that are reached.
///
/// Memory: none.
pub(crate) fn table_reach(ctx: &Ctx, perm: Perm, opened: &[&ViewCol], table: &Name) -> Option<Stop>
    ensures { result
        ≡ chain_stop ctx.now perm (map (λ c. c.now) opened.now) table.now None }
{
    let user = &ctx.user;
    let reaching = Reaching { user, perm, opened };
    table_chain_stop(&ctx.book, table, &reaching)
}

/// Where it stops over those of a column's chain, by where it stops over the table's.
///
/// Memory: none.
pub(crate) fn column_reach(
    ctx: &Ctx,
    perm: Perm,
    opened: &[&ViewCol],
    table: &Name,
    column: &Name,
    behind: Option<Stop>,
) -> Option<Stop>
    requires { behind ≡ chain_stop ctx.now perm (map (λ c. c.now) opened.now) table.now None }
    ensures { result
        ≡ chain_stop ctx.now perm (map (λ c. c.now) opened.now) table.now (Some column.now) }
{
    let user = &ctx.user;
    let reaching = Reaching { user, perm, opened };
    column_chain_stop(&ctx.book, table, column, &reaching, behind)
}
