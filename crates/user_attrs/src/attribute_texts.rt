//! The texts that say an attribute.

ghost use Rattle.std.specs.Prelude.{◌≡◌, IfOk, option_map, true};
ghost use Rattle.cell_types.specs.NameRule.{is_name};
ghost use Rattle.serde_json.specs.Read.{read};
ghost use Rattle.serde_json.specs.View.{view};
ghost use Rattle.user_attrs.specs.AttributeText.{Tells, attribute_from, attribute_of, property_of, rule_of};

use crate::attribute_rule::{AttributeRule, UserProperty};
use action_lines::Fields;
use name_rules::{is_name, name_of};
use serde_json::{Category, Value};
use std::alloc::{AllocError, Global};

// The property of users that a text names.
fn property_of(text: &str) -> Option<UserProperty>
    ensures { result ≡ property_of text.now }
{
    match text {
        "Email" => Some(UserProperty::Email),
        "Name" => Some(UserProperty::Name),
        "UserID" => Some(UserProperty::UserId),
        _ => None,
    }
}

fn named(
    alloc: Global,
    property: UserProperty,
    name: &str,
    table: &str,
    column: &str,
) -> Result<AttributeRule, AllocError>
    requires name { is_name name.now ≡ true }
    requires table { is_name table.now ≡ true }
    requires column { is_name column.now ≡ true }
    ensures { IfOk result (λ r. r ≡ record {
      name = name.now;
      table = table.now;
      column = column.now;
      property = property;
    }) }
{
    let name = name_of(alloc, name)?;
    let table = name_of(alloc, table)?;
    let column = name_of(alloc, column)?;
    Ok(AttributeRule {
        name,
        table,
        column,
        property,
    })
}

// The attribute of these texts, where they say one.
fn rule_of(
    alloc: Global,
    property: Option<UserProperty>,
    name: &str,
    table: &str,
    column: &str,
) -> Result<Option<AttributeRule>, AllocError>
    ensures { IfOk result (λ o. o ≡ rule_of property name.now table.now column.now) }
{
    let Some(property) = property else {
        return Ok(None);
    };
    if !is_name(name) || !is_name(table) || !is_name(column) {
        return Ok(None);
    }
    Ok(Some(named(alloc, property, name, table, column)?))
}

#[tactic(auto, unfolding(crate::specs::AttributeText::attribute_from))]
fn attribute_from(alloc: Global, value: &Value) -> Result<Option<AttributeRule>, AllocError>
    ensures { IfOk result (λ o. o ≡ attribute_from (view value.now)) }
{
    let Some(mut fields) = Fields::of(value) else {
        return Ok(None);
    };
    let Some(property) = fields.take_text("charId") else {
        return Ok(None);
    };
    let Some(column) = fields.take_text("lookupColId") else {
        return Ok(None);
    };
    let Some(name) = fields.take_text("name") else {
        return Ok(None);
    };
    let Some(table) = fields.take_text("tableId") else {
        return Ok(None);
    };
    if !fields.is_done() {
        return Ok(None);
    }
    rule_of(alloc, property_of(property), name, table, column)
}

// The JSON that a text is, if it is one.
fn json_of(alloc: Global, text: &str) -> Result<Option<Value>, AllocError>
    ensures { IfOk result (λ o. option_map view o ≡ read text.now) }
{
    match Value::from_str(alloc, text) {
        Ok(value) => Ok(Some(value)),
        Err(e) => {
            if let Category::Memory = e.classify() {
                return Err(AllocError);
            }
            Ok(None)
        }
    }
}

fn attribute_of(alloc: Global, text: &str) -> Result<Option<AttributeRule>, AllocError>
    ensures { IfOk result (λ o. o ≡ attribute_of text.now) }
{
    match json_of(alloc, text)? {
        Some(value) => attribute_from(alloc, &value),
        None => Ok(None),
    }
}

/// Reads the text of an attribute: an object with the keys `charId` (`Email`, `Name` or `UserID`),
/// `lookupColId`, `name` and `tableId` (three names), and no others. Any other text says none.
///
/// Errors: out of memory.
/// Memory: the JSON, and the names. Source: docs/PROTOCOL.md, "access rules".
pub fn read_attribute(alloc: Global, text: &str) -> Result<Option<AttributeRule>, AllocError>
    ensures tells { IfOk result (λ o. Tells o text.now) }
    ensures exact { IfOk result (λ o. o ≡ attribute_of text.now) }
{
    attribute_of(alloc, text)
}
