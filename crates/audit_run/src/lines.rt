//! The lines of an audit, one for each user, made before any is written.

ghost use Rattle.std.specs.Prelude.{◌≡◌, ◌++◌, [], codes, IfOk, OnOk, option_map, string_bytes};
ghost use Rattle.serde_json.specs.Data.{no_members, member, string, boolean};
ghost use Rattle.serde_json.specs.View.{members_view, view as data_of};
ghost use Rattle.serde_json.specs.Written.{compact_text};
ghost use Rattle.doc_model.specs.DocumentLaws.{IsWhole};
ghost use Rattle.acl_rules.specs.Loaded.{book_of};
ghost use Rattle.user_attrs.specs.Attributes.{attributes_of};
ghost use Rattle.rule_contexts.specs.Context.{context, view, view_in};
ghost use Rattle.rule_audit.specs.Closed.{audit};
ghost use Rattle.audit_run.specs.AuditLines.{audit_data, audit_line, column_data, fault_data, letter, line_for, lines_for};

use acl_formula::Perm;
use acl_rules::Ctx;
use cell_types::Name;
use doc_model::{DocTables, User};
use evaluated_doc::Doc;
use grist_json::with_member;
use rule_audit::{Audit, audit};
use rule_contexts::context_with;
use serde_json::{Map, Value};
use std::alloc::{AllocError, Global};
use user_attrs::{AttributeRule, load_attributes, user_info};

fn letter(perm: Perm) -> &'static str
    ensures { result.now ≡ letter perm }
{
    match perm {
        Perm::R => "R",
        Perm::U => "U",
        Perm::C => "C",
        Perm::D => "D",
        Perm::S => "S",
    }
}

fn column_value(alloc: Global, column: &Option<Name>) -> Result<Value, AllocError>
    ensures { IfOk result (λ v. data_of v ≡ column_data column.now) }
{
    match column {
        Some(column) => Value::try_from_str(alloc, column.as_str()),
        None => Ok(Value::Null),
    }
}

// The members that each line has.
fn members(alloc: Global, closed: bool, token: &str) -> Result<Map<String, Value>, AllocError>
    ensures { IfOk result (λ m. members_view m.entries
        ≡ member (codes "closed") (boolean closed)
        (member (codes "token") (string token.now) no_members)) }
{
    let token = Value::try_from_str(alloc, token)?;
    let made = with_member(alloc, Map::new(alloc), "token", token)?;
    with_member(alloc, made, "closed", Value::Bool(closed))
}

// A user who is told more: for this permission, by this rule.
fn fault_value(
    alloc: Global,
    column: Value,
    perm: &str,
    rule: Value,
    table: &Name,
    token: &str,
) -> Result<Value, AllocError>
    ensures { IfOk result (λ v. data_of v
        ≡ fault_data (data_of column) perm.now (data_of rule) table.now token.now) }
{
    let made = members(alloc, false, token)?;
    let made = with_member(alloc, made, "column", column)?;
    let perm = Value::try_from_str(alloc, perm)?;
    let made = with_member(alloc, made, "perm", perm)?;
    let made = with_member(alloc, made, "rule", rule)?;
    let table = Value::try_from_str(alloc, table.as_str())?;
    Ok(Value::Object(with_member(alloc, made, "table", table)?))
}

fn audit_value(alloc: Global, token: &str, audit: &Audit) -> Result<Value, AllocError>
    ensures { IfOk result (λ v. data_of v ≡ audit_data token.now audit.now) }
{
    match audit {
        Audit::Closed => Ok(Value::Object(members(alloc, true, token)?)),
        Audit::Leak {
            table,
            column,
            perm,
            rule,
        } => {
            let column = column_value(alloc, column)?;
            fault_value(
                alloc,
                column,
                letter(*perm),
                Value::from(*rule),
                table,
                token,
            )
        }
        Audit::HiddenFormula { table, column } => {
            let column = Value::try_from_str(alloc, column.as_str())?;
            fault_value(alloc, column, "S", Value::Null, table, token)
        }
    }
}

fn line_text(alloc: Global, token: &str, audit: &Audit) -> Result<String, AllocError>
    ensures { IfOk result (λ t. string_bytes t ≡ compact_text (audit_data token.now audit.now)) }
{
    let value = audit_value(alloc, token, audit)?;
    Ok(value.to_string(alloc)?)
}

// Writes the line of a user behind the text.
#[tactic(auto, unfolding(crate::specs::AuditLines::audit_line))]
fn push_line(alloc: Global, text: &mut String, token: &str, audit: &Audit) -> Result<(), AllocError>
    ensures { OnOk result
        (string_bytes text.new ≡ string_bytes text.old ++ audit_line token.now audit.now) }
{
    let line = line_text(alloc, token, audit)?;
    text.push_str(line.as_str())?;
    text.push_str("\n")
}

// Has the context say what is in force for another user.
fn turn_to<D: DocTables>(
    alloc: Global,
    doc: &Doc<D>,
    attributes: &[AttributeRule],
    ctx: &mut Ctx,
    user: &User,
) -> Result<(), AllocError>
    requires attributes { attributes.now ≡ attributes_of (D.document doc.now) }
    requires book { ctx.old.book ≡ book_of (D.document doc.now) }
    ensures { OnOk result (ctx.new ≡ context user.now (D.document doc.now)) }
{
    ctx.user = user_info(alloc, attributes, user, doc)?;
    Ok(())
}

// What an audit says of the user for whom the context is in force.
#[tactic(auto, using(recalc::proofs::FilledLaws::laid_out_law))]
fn audited<D: DocTables>(alloc: Global, doc: &Doc<D>, ctx: &Ctx) -> Result<Audit, AllocError>
    ensures { IfOk result (λ a. a ≡ audit ctx.now (view_in ctx.now (D.document doc.now))) }
{
    let _tables = doc.tables();
    audit(alloc, ctx, doc)
}

// Writes the line of one user more behind the text.
fn push_user<D: DocTables>(
    alloc: Global,
    doc: &Doc<D>,
    attributes: &[AttributeRule],
    ctx: &mut Ctx,
    user: &User,
    text: &mut String,
) -> Result<(), AllocError>
    requires attributes { attributes.now ≡ attributes_of (D.document doc.now) }
    requires book { ctx.old.book ≡ book_of (D.document doc.now) }
    ensures book { OnOk result (ctx.new.book ≡ book_of (D.document doc.now)) }
    ensures line { OnOk result (string_bytes text.new
        ≡ string_bytes text.old ++ line_for (D.document doc.now) user.now) }
{
    turn_to(alloc, doc, attributes, ctx, user)?;
    let told = audited(alloc, doc, ctx)?;
    push_line(alloc, text, user.token.as_str(), &told)
}

// Writes the lines of the users behind the text.
fn push_lines<D: DocTables>(
    alloc: Global,
    doc: &Doc<D>,
    attributes: &[AttributeRule],
    ctx: &mut Ctx,
    users: &[User],
    text: &mut String,
) -> Result<(), AllocError>
    requires attributes { attributes.now ≡ attributes_of (D.document doc.now) }
    requires book { ctx.old.book ≡ book_of (D.document doc.now) }
    ensures { OnOk result (string_bytes text.new
        ≡ string_bytes text.old ++ lines_for (D.document doc.now) users.now) }
{
    for user in users {
        push_user(alloc, doc, attributes, ctx, user, text)?;
    }
    Ok(())
}

/// The lines of an audit of these users in the document.
///
/// Errors: out of memory. Memory: the lines, the rules and the attributes; and, while it is asked
/// of one user, what that user sees of the tables and columns.
pub(crate) fn lines_of<D: DocTables>(
    alloc: Global,
    doc: &Doc<D>,
    users: &[User],
) -> Result<String, AllocError>
    ensures { IfOk result (λ t. string_bytes t ≡ lines_for (D.document doc.now) users.now) }
{
    let mut text = String::new(alloc);
    if let Some(first) = users.first() {
        let attributes = load_attributes(alloc, doc.tables())?;
        let mut ctx = context_with(alloc, doc, attributes.as_slice(), first)?;
        push_lines(
            alloc,
            doc,
            attributes.as_slice(),
            &mut ctx,
            users,
            &mut text,
        )?;
    }
    Ok(text)
}
