//! The texts of attributes of users.

ghost use Rattle.std.specs.Prelude.{◌≡◌, ◌++◌, Some, IfOk, OnOk, string_bytes};
ghost use Rattle.formula_records.specs.RecordTables.{only};
ghost use Rattle.user_attrs.specs.AttributeText.{property_text};
ghost use Rattle.rename_flow.specs.AttributeTexts.{attribute_change, attribute_text};

use crate::text_change::{TextChange, kept};
use cell_types::CellText;
use formula_records::RecordTables;
use rename_marks::{ColumnRename, is_replaced, is_unresolved};
use std::alloc::{AllocError, Global};
use user_attrs::{AttributeRule, UserProperty};

fn property_text(property: UserProperty) -> &'static str
    ensures { result.now ≡ property_text property }
{
    match property {
        UserProperty::Email => "Email",
        UserProperty::Name => "Name",
        UserProperty::UserId => "UserID",
    }
}

// Adds a text, and another one.
fn push_both(out: &mut String, first: &str, second: &str) -> Result<(), AllocError>
    ensures { OnOk result (string_bytes out.new ≡ string_bytes out.old ++ first.now ++ second.now) }
{
    out.push_str(first)?;
    out.push_str(second)
}

#[tactic(auto, unfolding(crate::specs::AttributeTexts::attribute_text))]
fn attribute_text(alloc: Global, rule: &AttributeRule, column: &str) -> Result<CellText, AllocError>
    ensures { IfOk result (λ t. t ≡ attribute_text rule.now column.now) }
{
    let mut text = String::new(alloc);
    push_both(&mut text, "{\"charId\":\"", property_text(rule.property))?;
    push_both(&mut text, "\",\"lookupColId\":\"", column)?;
    push_both(&mut text, "\",\"name\":\"", rule.name.as_str())?;
    push_both(&mut text, "\",\"tableId\":\"", rule.table.as_str())?;
    text.push_str("\"}")?;
    CellText::from_string(text)
}

// The change of an attribute that looks in that table.
fn rule_change(
    alloc: Global,
    rename: &ColumnRename,
    rule: &AttributeRule,
    tables: &RecordTables,
) -> Result<TextChange, AllocError>
    requires { tables.now ≡ only rule.now.table }
    ensures { IfOk result (λ c. c ≡ attribute_change rename.now (Some rule.now)) }
{
    let unresolved = u32::from(is_unresolved(rename, tables, &rule.column));
    if !is_replaced(rename, tables, &rule.column) {
        return Ok(kept(unresolved));
    }
    let text = attribute_text(alloc, rule, rename.new.as_str())?;
    Ok(TextChange {
        text: Some(text),
        unresolved,
    })
}

/// What a rename makes of an attribute, where there is one.
///
/// Errors: out of memory.
pub(crate) fn attribute_change(
    alloc: Global,
    rename: &ColumnRename,
    rule: &Option<AttributeRule>,
) -> Result<TextChange, AllocError>
    ensures { IfOk result (λ c. c ≡ attribute_change rename.now rule.now) }
{
    let Some(rule) = rule else {
        return Ok(kept(0));
    };
    let tables = RecordTables::only(alloc, &rule.table)?;
    rule_change(alloc, rename, rule, &tables)
}
