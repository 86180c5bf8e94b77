//! What a column becomes as a user says.

ghost use Rattle.std.specs.Prelude.{◌≡◌, IfOk};
ghost use Rattle.user_actions.specs.Columns.{formula_given, formula_said, gives_formula, has_type, info_said, kind_said, may_become, may_be_new, new_info, type_said};

use crate::infos::{is_type, type_of};
use cell_types::{CellText, ColType, MAX_TEXT_BYTES};
use doc_model::{ColInfo, UserCol};
use std::alloc::{AllocError, Global};

fn has_type(column: &UserCol) -> bool
    ensures { result ≡ has_type column.now }
{
    match &column.ty {
        Some(text) => is_type(text.as_str()),
        None => true,
    }
}

// The formula that is given, empty where none is.
fn formula_given(column: &UserCol) -> &str
    ensures { result.now ≡ formula_given column.now }
{
    match &column.formula {
        Some(text) => text.as_str(),
        None => "",
    }
}

// Whether it is a formula column then.
fn kind_said(was_formula: bool, column: &UserCol) -> bool
    ensures { result ≡ kind_said was_formula column.now }
{
    match column.is_formula {
        Some(is_formula) => is_formula,
        None => was_formula,
    }
}

/// Whether a data column or a formula column may become as the user says.
///
/// Memory: none.
pub fn may_become(was_formula: bool, column: &UserCol) -> bool
    ensures { result ≡ may_become was_formula column.now }
{
    let bytes = formula_given(column).len();
    has_type(column) && bytes <= MAX_TEXT_BYTES && (kind_said(was_formula, column) || bytes == 0)
}

fn gives_formula(column: &UserCol) -> bool
    ensures { result ≡ gives_formula column.now }
{
    formula_given(column).len() > 0
}

/// Whether a new column may be as the user says.
///
/// Memory: none.
pub fn may_be_new(column: &UserCol) -> bool
    ensures { result ≡ may_be_new column.now }
{
    may_become(gives_formula(column), column)
}

fn type_said(alloc: Global, other: &ColType, column: &UserCol) -> Result<ColType, AllocError>
    ensures { IfOk result (λ t. t ≡ type_said other.now column.now) }
{
    match &column.ty {
        Some(text) => match type_of(alloc, text.as_str())? {
            Some(ty) => Ok(ty),
            None => other.clone(),
        },
        None => other.clone(),
    }
}

fn formula_said(old: &ColInfo, column: &UserCol) -> Result<CellText, AllocError>
    ensures { IfOk result (λ f. f ≡ formula_said old.now column.now) }
{
    if let Some(text) = &column.formula {
        return text.clone();
    }
    if kind_said(old.is_formula, column) {
        return old.formula.clone();
    }
    Ok(CellText::empty())
}

/// What a column becomes as the user says.
///
/// Memory: its type and its formula.
pub(crate) fn info_said(
    alloc: Global,
    old: &ColInfo,
    column: &UserCol,
) -> Result<ColInfo, AllocError>
    ensures { IfOk result (λ i. i ≡ info_said old.now column.now) }
{
    Ok(ColInfo {
        ty: type_said(alloc, &old.ty, column)?,
        is_formula: kind_said(old.is_formula, column),
        formula: formula_said(old, column)?,
    })
}

// What a new column is where no more is said of it.
fn new_info(column: &UserCol) -> ColInfo
    ensures { result ≡ new_info column.now }
{
    ColInfo {
        ty: ColType::Any,
        is_formula: gives_formula(column),
        formula: CellText::empty(),
    }
}

/// What a new column is as the user says.
///
/// Memory: its type and its formula.
pub(crate) fn new_info_said(alloc: Global, column: &UserCol) -> Result<ColInfo, AllocError>
    ensures { IfOk result (λ i. i ≡ info_said (new_info column.now) column.now) }
{
    let start = new_info(column);
    info_said(alloc, &start, column)
}
