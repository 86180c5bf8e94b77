//! The columns of a record action.
ghost use Rattle.std.specs.Prelude.{◌≡◌, IfOk, option_map};
ghost use Rattle.serde_json.specs.View.{view, members_view};
ghost use Rattle.action_lines.specs.Columns.{is_after, cells_from, filled_from, columns_from, columns_in};

use crate::fields::Fields;
use crate::spelled::read_given;
use cell_types::{CellText, CellValue, ValueList};
use doc_model::{UserColumn, UserColumnList};
use serde_json::Value;
use std::alloc::{AllocError, Global};

// The name comes after that of the column before, if there is one.
fn is_after(before: Option<&str>, name: &str) -> bool
    ensures { result ≡ is_after (option_map (λ b. b.now) before.entry) name.now }
{
    match before {
        Some(before) => before < name,
        None => true,
    }
}

// The values of a column: one for each row of the action.
#[tactic(auto, unfolding(crate::specs::Columns::cells_from))]
fn cells_of(
    alloc: Global,
    single: bool,
    count: usize,
    value: &Value,
) -> Result<Option<ValueList>, AllocError>
    ensures { IfOk result (λ o. o ≡ cells_from single count (view value.now)) }
{
    let Some(values) = read_given::<CellValue>(alloc, single, value)? else {
        return Ok(None);
    };
    if values.len() != count {
        return Ok(None);
    }
    Ok(Some(ValueList::from(values)))
}

// The column of that name, behind the one before.
#[tactic(auto, unfolding(crate::specs::Columns::filled_from))]
fn filled_of(
    alloc: Global,
    single: bool,
    count: usize,
    before: Option<&str>,
    name: &str,
    value: &Value,
) -> Result<Option<UserColumn>, AllocError>
    ensures { IfOk result (λ o. o ≡ filled_from single count
        (option_map (λ b. b.now) before.entry) name.now (view value.now)) }
{
    if !is_after(before, name) {
        return Ok(None);
    }
    let id = CellText::copy_of(alloc, name)?;
    match cells_of(alloc, single, count, value)? {
        Some(values) => Ok(Some(UserColumn { id, values })),
        None => Ok(None),
    }
}

// The columns that the members name, each with a value for each row.
fn columns_of(
    alloc: Global,
    single: bool,
    count: usize,
    mut fields: Fields<'_>,
) -> Result<Option<UserColumnList>, AllocError>
    ensures { IfOk result (λ o. o ≡ columns_from single count (members_view fields.entry.left)) }
{
    let mut columns = UserColumnList::new(alloc);
    let mut before = None;
    while let Some((name, value)) = fields.next_field() {
        match filled_of(alloc, single, count, before, name, value)? {
            Some(column) => columns.push(column)?,
            None => return Ok(None),
        }
        before = Some(name);
    }
    Ok(Some(columns))
}

/// The columns that an object names, each with a value for each row.
#[tactic(auto, unfolding(crate::specs::Columns::columns_in))]
pub fn columns_in(
    alloc: Global,
    single: bool,
    count: usize,
    value: &Value,
) -> Result<Option<UserColumnList>, AllocError>
    ensures { IfOk result (λ o. o ≡ columns_in single count (view value.now)) }
{
    match Fields::of(value) {
        Some(fields) => columns_of(alloc, single, count, fields),
        None => Ok(None),
    }
}
