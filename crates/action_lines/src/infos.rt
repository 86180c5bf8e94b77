//! What is said of columns, as lines spell it.
ghost use Rattle.std.specs.Prelude.{◌≡◌, IfOk, option_map};
ghost use Rattle.serde_json.specs.Find.{as_str, as_bool};
ghost use Rattle.serde_json.specs.View.{view, members_view};
ghost use Rattle.action_lines.specs.Infos.{maybe, col_from, said_from, info_from, column_from};

use crate::fields::Fields;
use crate::spelled::Spelled;
use cell_types::CellText;
use doc_model::UserCol;
use serde_json::Value;
use std::alloc::{AllocError, Global};

// A copy of the text, where there is a value; nothing where that is no text.
fn maybe_text(alloc: Global, value: Option<&Value>) -> Result<Option<Option<CellText>>, AllocError>
    ensures { IfOk result (λ o. o ≡ maybe as_str (option_map (λ v. view v.now) value.entry)) }
{
    let Some(value) = value else {
        return Ok(Some(None));
    };
    match value.as_str() {
        Some(text) => Ok(Some(Some(CellText::copy_of(alloc, text)?))),
        None => Ok(None),
    }
}

fn maybe_bool(value: Option<&Value>) -> Option<Option<bool>>
    ensures { result ≡ maybe as_bool (option_map (λ v. view v.now) value.entry) }
{
    let Some(value) = value else {
        return Some(None);
    };
    match value.as_bool() {
        Some(truth) => Some(Some(truth)),
        None => None,
    }
}

// The column of that id which the formula, the flag and the type describe.
#[tactic(auto, unfolding(crate::specs::Infos::col_from))]
fn col_of(
    alloc: Global,
    id: &str,
    formula: Option<&Value>,
    is_formula: Option<&Value>,
    ty: Option<&Value>,
) -> Result<Option<UserCol>, AllocError>
    ensures { IfOk result (λ o. o ≡ col_from id.now (option_map (λ v. view v.now) formula.entry)
        (option_map (λ v. view v.now) is_formula.entry) (option_map (λ v. view v.now) ty.entry)) }
{
    let Some(is_formula) = maybe_bool(is_formula) else {
        return Ok(None);
    };
    let Some(formula) = maybe_text(alloc, formula)? else {
        return Ok(None);
    };
    let id = CellText::copy_of(alloc, id)?;
    match maybe_text(alloc, ty)? {
        Some(ty) => Ok(Some(UserCol {
            id,
            ty,
            is_formula,
            formula,
        })),
        None => Ok(None),
    }
}

// The column that the formula, the id and the members behind it describe.
#[tactic(auto, unfolding(crate::specs::Infos::said_from))]
fn said_of(
    alloc: Global,
    formula: Option<&Value>,
    id: &str,
    mut fields: Fields<'_>,
) -> Result<Option<UserCol>, AllocError>
    ensures { IfOk result (λ o. o ≡ said_from (option_map (λ v. view v.now) formula.entry) id.now
        (members_view fields.entry.left)) }
{
    let is_formula = fields.take_optional("isFormula")?;
    let ty = fields.take_optional("type")?;
    if fields.is_done() {
        col_of(alloc, id, formula, is_formula, ty)
    } else {
        Ok(None)
    }
}

/// What is said of the column of that id, which stands beside it.
#[tactic(auto, unfolding(crate::specs::Infos::info_from))]
pub(crate) fn info_of(alloc: Global, id: &str, value: &Value) -> Result<Option<UserCol>, AllocError>
    ensures { IfOk result (λ o. o ≡ info_from id.now (view value.now)) }
{
    let Some(mut fields) = Fields::of(value) else {
        return Ok(None);
    };
    let formula = fields.take_optional("formula")?;
    said_of(alloc, formula, id, fields)
}

// What is said of a column, its id with it.
#[tactic(auto, unfolding(crate::specs::Infos::column_from))]
fn column_of(alloc: Global, value: &Value) -> Result<Option<UserCol>, AllocError>
    ensures { IfOk result (λ o. o ≡ column_from (view value.now)) }
{
    let Some(mut fields) = Fields::of(value) else {
        return Ok(None);
    };
    let formula = fields.take_optional("formula")?;
    let Some(id) = fields.take_text("id") else {
        return Ok(None);
    };
    said_of(alloc, formula, id, fields)
}

impl Spelled for UserCol {
    ghost use Rattle.action_lines.specs.Infos.{column_from};

    ghost from = { column_from };

    fn read(alloc: Global, value: &Value) -> Result<Option<UserCol>, AllocError> {
        column_of(alloc, value)
    }
}
