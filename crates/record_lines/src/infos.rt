//! What records say of columns.
ghost use Rattle.std.specs.Prelude.{◌≡◌, IfOk};
ghost use Rattle.serde_json.specs.View.{view, items_view, members_view};
ghost use Rattle.record_lines.specs.Infos.{info_from, described_from, added_from, column_from};
ghost use Rattle.record_lines.specs.Reading.{table_from, added_column, named_info};

use crate::names::name_of;
use crate::recorded::{Recorded, read_list};
use action_lines::{Fields, Items, row_of};
use cell_types::{CellText, Name};
use doc_model::{ColDef, ColDefList, ColInfo};
use meta_schema::type_of;
use serde_json::Value;
use std::alloc::{AllocError, Global};

// What is said of a column without its row.
#[tactic(auto, unfolding(crate::specs::Infos::info_from))]
fn info_of(alloc: Global, value: &Value) -> Result<Option<ColInfo>, AllocError>
    ensures { IfOk result (λ o. o ≡ info_from (view value.now)) }
{
    let Some(mut fields) = Fields::of(value) else {
        return Ok(None);
    };
    let Some(formula) = fields.take_text("formula") else {
        return Ok(None);
    };
    let Some(flag) = fields.take("isFormula") else {
        return Ok(None);
    };
    let Some(ty) = fields.take_text("type") else {
        return Ok(None);
    };
    let Some(is_formula) = flag.as_bool() else {
        return Ok(None);
    };
    let Some(ty) = type_of(alloc, ty)? else {
        return Ok(None);
    };
    if !fields.is_done() {
        return Ok(None);
    }
    Ok(Some(ColInfo {
        ty,
        is_formula,
        formula: CellText::copy_of(alloc, formula)?,
    }))
}

// The column of that formula and that id, of what stands behind the id.
#[tactic(auto, unfolding(crate::specs::Infos::described_from))]
fn described_of(
    alloc: Global,
    formula: &str,
    id: Name,
    mut fields: Fields<'_>,
) -> Result<Option<ColDef>, AllocError>
    ensures { IfOk result (λ o.
        o ≡ described_from formula.now id (members_view fields.entry.left)) }
{
    let Some(flag) = fields.take("isFormula") else {
        return Ok(None);
    };
    let Some(place) = fields.take("row") else {
        return Ok(None);
    };
    let Some(ty) = fields.take_text("type") else {
        return Ok(None);
    };
    let Some(is_formula) = flag.as_bool() else {
        return Ok(None);
    };
    let Some(row) = row_of(place) else {
        return Ok(None);
    };
    let Some(ty) = type_of(alloc, ty)? else {
        return Ok(None);
    };
    if !fields.is_done() {
        return Ok(None);
    }
    let formula = CellText::copy_of(alloc, formula)?;
    let info = ColInfo {
        ty,
        is_formula,
        formula,
    };
    Ok(Some(ColDef { id, info, row }))
}

// The column of that id, of what stands beside it.
#[tactic(auto, unfolding(crate::specs::Infos::added_from))]
fn added_of(alloc: Global, id: Name, value: &Value) -> Result<Option<ColDef>, AllocError>
    ensures { IfOk result (λ o. o ≡ added_from id (view value.now)) }
{
    let Some(mut fields) = Fields::of(value) else {
        return Ok(None);
    };
    match fields.take_text("formula") {
        Some(formula) => described_of(alloc, formula, id, fields),
        None => Ok(None),
    }
}

// A column with its id.
#[tactic(auto, unfolding(crate::specs::Infos::column_from))]
fn column_of(alloc: Global, value: &Value) -> Result<Option<ColDef>, AllocError>
    ensures { IfOk result (λ o. o ≡ column_from (view value.now)) }
{
    let Some(mut fields) = Fields::of(value) else {
        return Ok(None);
    };
    let Some(formula) = fields.take_text("formula") else {
        return Ok(None);
    };
    let Some(id) = fields.take_text("id") else {
        return Ok(None);
    };
    match name_of(alloc, id)? {
        Some(id) => described_of(alloc, formula, id, fields),
        None => Ok(None),
    }
}

impl Recorded for ColDef {
    ghost use Rattle.record_lines.specs.Infos.{column_from};

    ghost from = { column_from };

    fn read(alloc: Global, value: &Value) -> Result<Option<ColDef>, AllocError> {
        column_of(alloc, value)
    }
}

/// The columns of a new table, and the row that describes it.
#[tactic(auto, unfolding(crate::specs::Reading::table_from))]
pub(crate) fn table_of(
    alloc: Global,
    items: Items<'_>,
) -> Result<Option<(ColDefList, u32)>, AllocError>
    ensures { IfOk result (λ o. o ≡ table_from (items_view items.entry.left.now)) }
{
    let Some((columns, row)) = items.two() else {
        return Ok(None);
    };
    let Some(columns) = read_list::<ColDef>(alloc, columns)? else {
        return Ok(None);
    };
    match row_of(row) {
        Some(row) => Ok(Some((ColDefList::from(columns), row))),
        None => Ok(None),
    }
}

/// A new column.
#[tactic(auto, unfolding(crate::specs::Reading::added_column))]
pub(crate) fn added_column(alloc: Global, items: Items<'_>) -> Result<Option<ColDef>, AllocError>
    ensures { IfOk result (λ o. o ≡ added_column (items_view items.entry.left.now)) }
{
    let Some((id, info)) = items.text_beside() else {
        return Ok(None);
    };
    match name_of(alloc, id)? {
        Some(id) => added_of(alloc, id, info),
        None => Ok(None),
    }
}

/// The name of a column, and what it becomes.
#[tactic(auto, unfolding(crate::specs::Reading::named_info))]
pub(crate) fn named_info(
    alloc: Global,
    items: Items<'_>,
) -> Result<Option<(Name, ColInfo)>, AllocError>
    ensures { IfOk result (λ o. o ≡ named_info (items_view items.entry.left.now)) }
{
    let Some((id, info)) = items.text_beside() else {
        return Ok(None);
    };
    let Some(id) = name_of(alloc, id)? else {
        return Ok(None);
    };
    match info_of(alloc, info)? {
        Some(info) => Ok(Some((id, info))),
        None => Ok(None),
    }
}
