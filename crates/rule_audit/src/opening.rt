//! Which columns are open: each row can be read in them.

ghost use Rattle.std.specs.Prelude.{◌≡◌, ◌++◌, [], ◌∷◌, cond, filter, map, IfOk, OnOk};
ghost use Rattle.doc_model.specs.declared.view.ViewCol.{ViewCol};
ghost use Rattle.acl_reading.specs.Walk.{asks_row};
ghost use Rattle.rule_audit.specs.Open.{ends_open, is_open, open_stop};

use crate::question::Question;
use crate::stop::Stop;
use crate::walking::{column_chain_stop, table_chain_stop};
use acl_formula::{AttributeRow, Perm, UserInfo};
use acl_rules::{Ctx, Decision, Rule, built_in, decides};
use cell_types::Name;
use doc_model::ViewCol;
use std::alloc::{AllocError, Global};

/// Whether the rule's formula uses a row.
pub(crate) fn asks_row(rule: &Rule) -> bool
    ensures { result ≡ asks_row rule.now }
{
    match &rule.formula {
        Some(tree) => tree.uses_row(),
        None => false,
    }
}

// Whether the rule ends the walk: one that uses a row where it denies reading, and any other where
// it decides.
fn ends_open(user: &UserInfo, rule: &Rule) -> bool
    ensures { result ≡ ends_open user.now rule.now }
{
    if asks_row(rule) {
        return rule.permissions.denied.has(Perm::R);
    }
    decides::<AttributeRow>(Perm::R, rule, user, None, None)
}

fn open_stop(user: &UserInfo, rule: &Rule) -> Option<Stop>
    ensures { result ≡ open_stop user.now rule.now }
{
    if !ends_open(user, rule) {
        return None;
    }
    if rule.permissions.denied.has(Perm::R) {
        return Some(Stop::Badly(rule.row));
    }
    Some(Stop::Well)
}

#[derive(Clone, Copy)]
struct Opening<'a> {
    user: &'a UserInfo,
}

impl Question for Opening<'_> {
    ghost use Rattle.rule_audit.specs.Open.{open_stop};

    ghost says = { λ q. open_stop q.user.now };

    fn says(&self, rule: &Rule) -> Option<Stop> {
        open_stop(self.user, rule)
    }
}

// Whether the column is open: the rules let each row be read in it.
fn is_open(ctx: &Ctx, table: &Name, column: &Name) -> bool
    ensures { result ≡ is_open ctx.now table.now column.now }
{
    let opening = Opening { user: &ctx.user };
    let behind = table_chain_stop(&ctx.book, table, &opening);
    match column_chain_stop(&ctx.book, table, column, &opening, behind) {
        Some(Stop::Well) => true,
        Some(Stop::Badly(_)) => false,
        None => match built_in(&ctx.user.user, Perm::R) {
            Decision::Allow => true,
            Decision::Deny(_) => false,
        },
    }
}

// Puts a column behind the others where it is open.
fn push_open<'a>(
    ctx: &Ctx,
    table: &Name,
    opened: &mut Vec<&'a ViewCol>,
    column: &'a ViewCol,
) -> Result<(), AllocError>
    ensures { OnOk result (map (λ c. c.now) opened.new.items
        ≡ map (λ c. c.now) opened.old.items
        ++ cond (is_open ctx.now table.now column.now.id) (column.now ∷ []) []) }
{
    if !is_open(ctx, table, &column.id) {
        return Ok(());
    }
    opened.push(column)?;
    Ok(())
}

/// The open columns of these of a shown table.
///
/// Errors: out of memory. Cost: a walk of the rules about the table and the document for each
/// column.
pub(crate) fn open_columns<'a>(
    alloc: Global,
    ctx: &Ctx,
    table: &Name,
    columns: &'a [ViewCol],
) -> Result<Vec<&'a ViewCol>, AllocError>
    ensures { IfOk result (λ l. map (λ c. c.now) l.items
        ≡ filter (λ (d : ViewCol). is_open ctx.now table.now d.id) columns.now) }
{
    let mut opened = Vec::new(alloc);
    for column in columns {
        push_open(ctx, table, &mut opened, column)?;
    }
    Ok(opened)
}
