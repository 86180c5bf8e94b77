//! Arrays and objects, made part by part. Who calls these owns one part at a time.
ghost use Rattle.std.specs.Prelude.{◌≡◌, IfOk, [], ◌∷◌, ◌++◌, map};
ghost use Rattle.serde_json.specs.Data.{array, object, string, no_members, member, put};
ghost use Rattle.serde_json.specs.View.{view, items_of, members_view};
ghost use Rattle.doc_model.specs.Schema.{type_text};

use cell_types::ColType;
use doc_model::type_text;
use serde_json::{Map, Value};
use std::alloc::{AllocError, Global};

/// The list with one value more.
pub fn with(list: Vec<Value>, value: Value) -> Result<Vec<Value>, AllocError>
    ensures { IfOk result (λ l. map view l.items ≡ map view list.items ++ view value ∷ []) }
{
    let mut list = list;
    serde_json::push(&mut list, value)?;
    Ok(list)
}

/// The array of the list with one value more.
pub fn array_with(list: Vec<Value>, value: Value) -> Result<Value, AllocError>
    ensures { IfOk result (λ v.
        view v ≡ array (items_of (map view list.items ++ view value ∷ []))) }
{
    Ok(Value::Array(with(list, value)?))
}

// The list of one text.
pub(crate) fn texts_of_one(alloc: Global, text: &str) -> Result<Vec<Value>, AllocError>
    ensures { IfOk result (λ l. map view l.items ≡ string text.now ∷ []) }
{
    with(Vec::new(alloc), Value::try_from_str(alloc, text)?)
}

/// The list of two texts.
pub fn texts_of_two(alloc: Global, first: &str, second: &str) -> Result<Vec<Value>, AllocError>
    ensures { IfOk result (λ l. map view l.items ≡ string first.now ∷ string second.now ∷ []) }
{
    let list = texts_of_one(alloc, first)?;
    with(list, Value::try_from_str(alloc, second)?)
}

/// The members with one more.
pub fn with_member(
    alloc: Global,
    members: Map<String, Value>,
    key: &str,
    value: Value,
) -> Result<Map<String, Value>, AllocError>
    ensures { IfOk result (λ m.
        members_view m.entries ≡ put key.now (view value) (members_view members.entries)) }
{
    let mut members = members;
    serde_json::put(&mut members, alloc, key, value)?;
    Ok(members)
}

/// The text of a type.
pub fn type_value(alloc: Global, ty: &ColType) -> Result<Value, AllocError>
    ensures { IfOk result (λ v. view v ≡ string (type_text ty.now)) }
{
    let text = type_text(alloc, ty)?;
    Value::try_from_str(alloc, text.as_str())
}

// The object of one member.
pub(crate) fn object_of_one(alloc: Global, key: &str, value: Value) -> Result<Value, AllocError>
    ensures { IfOk result (λ v. view v ≡ object (member key.now (view value) no_members)) }
{
    Ok(Value::Object(with_member(alloc, Map::new(alloc), key, value)?))
}
