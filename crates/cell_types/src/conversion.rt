//! Conversion: what a value becomes in a column of a type.

ghost use Rattle.std.specs.Prelude.{◌≡◌, IfOk};
ghost use Rattle.cell_types.specs.Conversion.{as_text, default_value, fit, fit_text, fit_int, fit_bool, fit_date, says_true, says_false};

use crate::reference::{to_ref, to_ref_list};
use crate::{CellText, CellValue, ColType, decimal_value, text_of};
use std::alloc::{AllocError, Global};

/// What the value becomes in a column of the type: a value of the type where the table of
/// docs/DEFINITIONS.md has one, else its text, which such a column also holds.
///
/// Memory: the result alone; a value that fits is copied once.
pub fn convert(alloc: Global, ty: &ColType, value: &CellValue) -> Result<CellValue, AllocError>
    ensures { IfOk result (λ v. v ≡ fit ty.now value.now) }
{
    match ty {
        ColType::Any => value.clone(),
        ColType::Text => to_text(alloc, value),
        ColType::Int => to_int(alloc, value),
        ColType::Bool => to_bool(alloc, value),
        ColType::Date => to_date(alloc, value),
        ColType::Ref(table) => to_ref(alloc, ty, table, value),
        ColType::RefList(table) => to_ref_list(alloc, ty, table, value),
    }
}

/// What a new cell of a column of the type holds.
///
/// Memory: none.
pub fn default_of(ty: &ColType) -> CellValue
    ensures { result ≡ default_value ty.now }
{
    match ty {
        ColType::Any | ColType::Date | ColType::RefList(_) => CellValue::Null,
        ColType::Text => CellValue::Text(CellText::empty()),
        ColType::Int | ColType::Ref(_) => CellValue::Int(0),
        ColType::Bool => CellValue::Bool(false),
    }
}

/// A copy of a value.
pub fn copy_of(value: &CellValue) -> Result<CellValue, AllocError>
    ensures { IfOk result (λ v. v ≡ value.now) }
{
    value.clone()
}

/// The value's text, or the type's default where that text is too long.
pub(crate) fn shown(alloc: Global, ty: &ColType, value: &CellValue) -> Result<CellValue, AllocError>
    ensures { IfOk result (λ v. v ≡ as_text ty.now value.now) }
{
    match text_of(alloc, value)? {
        Some(text) => Ok(CellValue::Text(text)),
        None => Ok(default_of(ty)),
    }
}

fn to_text(alloc: Global, value: &CellValue) -> Result<CellValue, AllocError>
    ensures { IfOk result (λ v. v ≡ fit_text value.now) }
{
    match value {
        CellValue::Null | CellValue::Text(_) | CellValue::Err(_) | CellValue::Censored => {
            value.clone()
        }
        _ => shown(alloc, &ColType::Text, value),
    }
}

fn to_int(alloc: Global, value: &CellValue) -> Result<CellValue, AllocError>
    ensures { IfOk result (λ v. v ≡ fit_int value.now) }
{
    match value {
        CellValue::Null | CellValue::Int(_) | CellValue::Err(_) | CellValue::Censored => {
            value.clone()
        }
        CellValue::Bool(truth) => Ok(CellValue::Int(if *truth { 1 } else { 0 })),
        CellValue::Date(seconds) => Ok(CellValue::Int(*seconds)),
        CellValue::Text(text) => {
            if text.is_empty() {
                return Ok(CellValue::Null);
            }
            match decimal_value(text.as_str()) {
                Some(number) => Ok(CellValue::Int(number)),
                None => value.clone(),
            }
        }
        _ => shown(alloc, &ColType::Int, value),
    }
}

fn to_bool(alloc: Global, value: &CellValue) -> Result<CellValue, AllocError>
    ensures { IfOk result (λ v. v ≡ fit_bool value.now) }
{
    match value {
        CellValue::Null => Ok(CellValue::Bool(false)),
        CellValue::Int(number) => Ok(CellValue::Bool(*number != 0)),
        CellValue::Bool(_) | CellValue::Err(_) | CellValue::Censored => value.clone(),
        CellValue::Text(text) => {
            if text.is_empty() || says_false(text.as_str()) {
                return Ok(CellValue::Bool(false));
            }
            if says_true(text.as_str()) {
                return Ok(CellValue::Bool(true));
            }
            value.clone()
        }
        _ => shown(alloc, &ColType::Bool, value),
    }
}

fn to_date(alloc: Global, value: &CellValue) -> Result<CellValue, AllocError>
    ensures { IfOk result (λ v. v ≡ fit_date value.now) }
{
    match value {
        CellValue::Null | CellValue::Date(_) | CellValue::Err(_) | CellValue::Censored => {
            value.clone()
        }
        CellValue::Int(number) => Ok(CellValue::Date(*number)),
        CellValue::Text(text) => {
            if text.is_empty() {
                return Ok(CellValue::Null);
            }
            value.clone()
        }
        _ => shown(alloc, &ColType::Date, value),
    }
}

fn says_true(text: &str) -> bool
    ensures { result ≡ says_true text.now }
{
    text.eq_ignore_ascii_case("true")
        || text.eq_ignore_ascii_case("yes")
        || text.eq_ignore_ascii_case("1")
}

fn says_false(text: &str) -> bool
    ensures { result ≡ says_false text.now }
{
    text.eq_ignore_ascii_case("false")
        || text.eq_ignore_ascii_case("no")
        || text.eq_ignore_ascii_case("0")
}
