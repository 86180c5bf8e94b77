//! Whether what rules ask for is the same of two users.

ghost use Rattle.std.specs.Prelude.{◌≡◌, ◌↔◌, None, Some, IsTrue, MatchOption, option_map};
ghost use Rattle.formula_parse.specs.Lexemes.{is_id};
ghost use Rattle.acl_formula.specs.RuleFields.{cell_in, found_field, is_own, named_field, read, user_field};
ghost use Rattle.agreeing_contexts.specs.Agreement.{AreSameIn, IsSameIn};
ghost use Rattle.agreeing_contexts.specs.Told.{told};

use crate::field::UserField;
use acl_formula::{Attribute, AttributeRow, NamedCell, UserInfo};
use cell_types::{CellValue, Name, Same};

// What a rule gets of a field: a cell that is kept, or a value that takes no memory.
#[derive(Drop)]
pub(crate) enum FieldValue<'a> {
    Kept(&'a CellValue),
    Made(CellValue),
}

impl FieldValue<'_> {
    fn value(&self) -> &CellValue
        ensures { result.now ≡ told self.now }
    {
        match self {
            FieldValue::Kept(value) => *value,
            FieldValue::Made(value) => value,
        }
    }
}

fn cell_in<'a>(cells: &'a [NamedCell], name: &Name) -> Option<&'a CellValue>
    ensures { MatchOption result (cell_in cells.now name.now ≡ None)
        (λ v. cell_in cells.now name.now ≡ Some v.now) }
{
    for cell in cells {
        if cell.column.as_str() == name.as_str() {
            return Some(&cell.value);
        }
    }
    None
}

// A cell that rules read: an error is nothing.
fn readable<'a>(cells: &'a [NamedCell], name: &Name) -> Option<FieldValue<'a>>
    ensures { option_map told result ≡ read (cell_in cells.now name.now) }
{
    match cell_in(cells, name) {
        None | Some(CellValue::Err(_)) => None,
        Some(value) => Some(FieldValue::Kept(value)),
    }
}

#[tactic(auto, unfolding(formula_parse::specs::Lexemes::id_word))]
fn is_id(name: &str) -> bool
    ensures { result ≡ is_id name.now }
{
    name == "id"
}

// A field of the row that an attribute found.
fn found_field<'a>(found: &'a Option<AttributeRow>, name: &Name) -> Option<FieldValue<'a>>
    ensures { option_map told result ≡ found_field found.now name.now }
{
    let Some(row) = found else {
        return Some(FieldValue::Made(CellValue::Null));
    };
    if is_id(name.as_str()) {
        return Some(FieldValue::Made(CellValue::Int(i64::from(row.row))));
    }
    readable(row.cells.as_slice(), name)
}

// A field of the first attribute of that name.
fn named_field<'a>(attributes: &'a [Attribute], field: &UserField) -> Option<FieldValue<'a>>
    ensures { option_map told result
        ≡ named_field attributes.now field.now.attribute field.now.name }
{
    for attribute in attributes {
        if attribute.name.as_str() == field.attribute.as_str() {
            return found_field(&attribute.row, &field.name);
        }
    }
    None
}

// Whether the user has a field of its own of that name.
fn is_own(name: &str) -> bool
    ensures { result ≡ is_own name.now }
{
    name == "Access" || name == "Email" || name == "Name" || name == "UserID"
}

fn user_field<'a>(user: &'a UserInfo, field: &UserField) -> Option<FieldValue<'a>>
    ensures { option_map told result
        ≡ user_field user.now field.now.attribute field.now.name }
{
    if is_own(field.attribute.as_str()) {
        return None;
    }
    named_field(user.attributes.as_slice(), field)
}

fn same_value(left: &Option<FieldValue<'_>>, right: &Option<FieldValue<'_>>) -> bool
    ensures { IsTrue result ↔ (option_map told left.now ≡ option_map told right.now) }
{
    match (left, right) {
        (None, None) => true,
        (Some(left), Some(right)) => left.value().same_as(right.value()),
        _ => false,
    }
}

fn is_same_in(left: &UserInfo, right: &UserInfo, field: &UserField) -> bool
    ensures { IsTrue result ↔ IsSameIn left.now right.now field.now }
{
    same_value(&user_field(left, field), &user_field(right, field))
}

/// Whether rules that ask for these fields get the same of both users.
///
/// Memory: none. Cost: for each field the attributes and the columns before it.
pub fn are_same_in(fields: &[UserField], left: &UserInfo, right: &UserInfo) -> bool
    ensures { IsTrue result ↔ AreSameIn fields.now left.now right.now }
{
    for field in fields {
        if !is_same_in(left, right, field) {
            return false;
        }
    }
    true
}
