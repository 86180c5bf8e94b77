//! Verdicts as JSON.
ghost use Rattle.std.specs.Prelude.{◌≡◌, IfOk, codes};
ghost use Rattle.serde_json.specs.Data.{object, no_members, member};
ghost use Rattle.serde_json.specs.View.{view, members_view};
ghost use Rattle.grist_json.specs.Actions.{actions_data};
ghost use Rattle.grist_json.specs.Replies.{limit_name, number_data, id_data, ids_data, ret_data, rets_data, refusal_fields, put_action, error_data, limited_fields, unresolved_fields, denied_fields, verdict_data};

use crate::json_parts::{object_of_one, with_member};
use crate::printed_actions::actions_value;
use doc_model::{LimitKind, Refusal, RetValue, RuleRef, Verdict, ViewAction};
use serde_json::{Map, Value};
use std::alloc::{AllocError, Global};

fn limit_name(what: LimitKind) -> &'static str
    ensures { result.now ≡ limit_name what }
{
    match what {
        LimitKind::Actions => "actions",
        LimitKind::Sessions => "sessions",
        LimitKind::Tables => "tables",
        LimitKind::Columns => "columns",
        LimitKind::Rows => "rows",
        LimitKind::RowId => "rowId",
        LimitKind::Cells => "cells",
        LimitKind::Weight => "weight",
    }
}

fn id_value(id: Option<u32>) -> Value
    ensures { view result ≡ id_data id }
{
    match id {
        Some(id) => Value::from(id),
        None => Value::Null,
    }
}

fn ids_value(alloc: Global, ids: &[Option<u32>]) -> Result<Value, AllocError>
    ensures { IfOk result (λ v. view v ≡ ids_data ids.now) }
{
    let mut values = Vec::new(alloc);
    for id in ids {
        values.push(id_value(*id))?;
    }
    Ok(Value::Array(values))
}

fn ret_value(alloc: Global, value: &RetValue) -> Result<Value, AllocError>
    ensures { IfOk result (λ v. view v ≡ ret_data value.now) }
{
    match value {
        RetValue::Null => Ok(Value::Null),
        RetValue::Id(id) => Ok(Value::from(*id)),
        RetValue::Ids(ids) => ids_value(alloc, ids.as_slice()),
        RetValue::Name(name) => Value::try_from_str(alloc, name.as_str()),
    }
}

fn rets_value(alloc: Global, values: &[RetValue]) -> Result<Value, AllocError>
    ensures { IfOk result (λ v. view v ≡ rets_data values.now) }
{
    let mut shown = Vec::new(alloc);
    for value in values {
        shown.push(ret_value(alloc, value)?)?;
    }
    Ok(Value::Array(shown))
}

// The fields that each refusal has: {"code":number,"name":name}.
fn refusal_fields(alloc: Global, refusal: Refusal) -> Result<Map<String, Value>, AllocError>
    ensures { IfOk result (λ m. members_view m.entries ≡ refusal_fields refusal) }
{
    let name = Value::try_from_str(alloc, refusal.name())?;
    let fields = with_member(alloc, Map::new(alloc), "name", name)?;
    with_member(alloc, fields, "code", Value::from(refusal.number()))
}

// The fields, with the action where there is one.
fn with_action(
    alloc: Global,
    fields: Map<String, Value>,
    action: Option<u32>,
) -> Result<Map<String, Value>, AllocError>
    ensures { IfOk result (λ m.
        members_view m.entries ≡ put_action action (members_view fields.entries)) }
{
    match action {
        Some(action) => with_member(alloc, fields, "action", Value::from(action)),
        None => Ok(fields),
    }
}

// The refusal of these fields, with the action where there is one.
fn error_value(
    alloc: Global,
    fields: Map<String, Value>,
    action: Option<u32>,
) -> Result<Value, AllocError>
    ensures { IfOk result (λ v. view v ≡ error_data action (members_view fields.entries)) }
{
    let fields = with_action(alloc, fields, action)?;
    object_of_one(alloc, "error", Value::Object(fields))
}

// The fields of a refusal for a bound, without the action.
fn limited_fields(
    alloc: Global,
    what: LimitKind,
    bound: u64,
) -> Result<Map<String, Value>, AllocError>
    ensures { IfOk result (λ m. members_view m.entries ≡ limited_fields what bound) }
{
    let what = Value::try_from_str(alloc, limit_name(what))?;
    let fields = refusal_fields(alloc, Refusal::Limit)?;
    let fields = with_member(alloc, fields, "what", what)?;
    with_member(alloc, fields, "bound", Value::from(bound))
}

// The fields of a refusal of a renaming.
fn unresolved_fields(alloc: Global, count: u32) -> Result<Map<String, Value>, AllocError>
    ensures { IfOk result (λ m. members_view m.entries ≡ unresolved_fields count) }
{
    let fields = refusal_fields(alloc, Refusal::Unresolved)?;
    with_member(alloc, fields, "count", Value::from(count))
}

// The fields of a refusal by a rule, without the action.
fn denied_fields(alloc: Global, rule: &RuleRef) -> Result<Map<String, Value>, AllocError>
    ensures { IfOk result (λ m. members_view m.entries ≡ denied_fields rule.now) }
{
    let memo = Value::try_from_str(alloc, rule.memo.as_str())?;
    let fields = refusal_fields(alloc, Refusal::Denied)?;
    let fields = with_member(alloc, fields, "memo", memo)?;
    with_member(alloc, fields, "rule", Value::from(rule.row))
}

fn changes_value(alloc: Global, actions: &[ViewAction]) -> Result<Value, AllocError>
    ensures { IfOk result (λ v.
        view v ≡ object (member (codes "actions") (actions_data actions.now) no_members)) }
{
    object_of_one(alloc, "actions", actions_value(alloc, actions)?)
}

fn undone_value(alloc: Global, number: u64) -> Result<Value, AllocError>
    ensures { IfOk result (λ v.
        view v ≡ object (member (codes "bundle") (number_data number) no_members)) }
{
    object_of_one(alloc, "bundle", Value::from(number))
}

fn bundle_value(alloc: Global, number: u64, values: &[RetValue]) -> Result<Value, AllocError>
    ensures { IfOk result (λ v. view v ≡ object
        (member (codes "bundle") (number_data number)
        (member (codes "retValues") (rets_data values.now) no_members))) }
{
    let values = rets_value(alloc, values)?;
    let members = with_member(alloc, Map::new(alloc), "retValues", values)?;
    let number = Value::from(number);
    Ok(Value::Object(with_member(alloc, members, "bundle", number)?))
}

pub(crate) fn verdict_value(alloc: Global, verdict: &Verdict) -> Result<Value, AllocError>
    ensures { IfOk result (λ v. view v ≡ verdict_data verdict.now) }
{
    match verdict {
        Verdict::Done => object_of_one(alloc, "ok", Value::Null),
        Verdict::Changes(actions) => {
            object_of_one(alloc, "ok", changes_value(alloc, actions.as_slice())?)
        }
        Verdict::Bundle { number, values } => {
            object_of_one(
                alloc,
                "ok",
                bundle_value(alloc, *number, values.as_slice())?,
            )
        }
        Verdict::Undone { number } => object_of_one(alloc, "ok", undone_value(alloc, *number)?),
        Verdict::Refused { refusal, action } => {
            error_value(alloc, refusal_fields(alloc, *refusal)?, *action)
        }
        Verdict::Limited {
            what,
            bound,
            action,
        } => error_value(alloc, limited_fields(alloc, *what, *bound)?, *action),
        Verdict::Unresolved { count } => {
            error_value(alloc, unresolved_fields(alloc, *count)?, None)
        }
        Verdict::Denied { action, rule } => {
            error_value(alloc, denied_fields(alloc, rule)?, Some(*action))
        }
    }
}
