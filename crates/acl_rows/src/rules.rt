//! Rows of rules.

ghost use Rattle.std.specs.Prelude.{◌≡◌, Some, IfOk};
ghost use Rattle.doc_model.specs.Rows.{IsAscending};
ghost use Rattle.acl_rows.specs.GoodRows.{are_permissions, has_good_notes, has_good_texts, holds_text, is_attribute, is_formula, is_good_rule, is_memo, is_position, is_zero_or, names_resource};

use crate::row_cells::RowCells;
use crate::texts::text_in;
use acl_formula::{parse_rule, read_permissions};
use cell_types::CellValue;
use doc_readers::holds_row;
use formula_parse::ParseFault;
use std::alloc::{AllocError, Global};
use user_attrs::read_attribute;

// Whether it is 0 or one of the rows.
fn is_zero_or(rows: &[u32], row: u32) -> bool
    requires { IsAscending rows.now }
    ensures { result ≡ is_zero_or rows.now (Some row) }
{
    row == 0 || holds_row(rows, row)
}

// Whether it is no row, or that of a resource.
fn names_resource(resources: &[u32], cell: &CellValue) -> bool
    requires { IsAscending resources.now }
    ensures { result ≡ names_resource resources.now cell.now }
{
    match cell {
        CellValue::Int(number) => match u32::try_from(*number) {
            Ok(row) => is_zero_or(resources, row),
            Err(_) => false,
        },
        _ => false,
    }
}

// Whether rules may be ordered by it.
fn is_position(cell: &CellValue) -> bool
    ensures { result ≡ is_position cell.now }
{
    matches!(cell, CellValue::Null | CellValue::Int(_))
}

fn is_formula(alloc: Global, text: &str) -> Result<bool, AllocError>
    ensures { IfOk result (λ b. b ≡ is_formula text.now) }
{
    match parse_rule(alloc, text) {
        Ok(rule) => {
            drop(rule);
            Ok(true)
        }
        Err(ParseFault::Syntax { .. }) => Ok(false),
        Err(ParseFault::NoMemory) => Err(AllocError),
    }
}

fn holds_formula(alloc: Global, cell: &CellValue) -> Result<bool, AllocError>
    ensures { IfOk result (λ b. b ≡ holds_text is_formula cell.now) }
{
    match text_in(cell) {
        Some(text) => is_formula(alloc, text),
        None => Ok(false),
    }
}

fn are_permissions(text: &str) -> bool
    ensures { result ≡ are_permissions text.now }
{
    read_permissions(text).is_some()
}

fn holds_permissions(cell: &CellValue) -> bool
    ensures { result ≡ holds_text are_permissions cell.now }
{
    match text_in(cell) {
        Some(text) => are_permissions(text),
        None => false,
    }
}

// Whether an attribute of users is said, or nothing.
fn is_attribute(alloc: Global, text: &str) -> Result<bool, AllocError>
    ensures { IfOk result (λ b. b ≡ is_attribute text.now) }
{
    if text.is_empty() {
        return Ok(true);
    }
    Ok(read_attribute(alloc, text)?.is_some())
}

fn holds_attribute(alloc: Global, cell: &CellValue) -> Result<bool, AllocError>
    ensures { IfOk result (λ b. b ≡ holds_text is_attribute cell.now) }
{
    match text_in(cell) {
        Some(text) => is_attribute(alloc, text),
        None => Ok(false),
    }
}

fn holds_memo(cell: &CellValue) -> bool
    ensures { result ≡ holds_text is_memo cell.now }
{
    text_in(cell).is_some()
}

// Whether a rule's attribute and its memo are good.
fn has_good_notes<R: RowCells>(alloc: Global, row: &R) -> Result<bool, AllocError>
    ensures { IfOk result (λ b. b ≡ has_good_notes (R.told row.now)) }
{
    if !holds_attribute(alloc, &row.cell(alloc, "userAttributes")?)? {
        return Ok(false);
    }
    Ok(holds_memo(&row.cell(alloc, "memo")?))
}

// Whether a rule's cells but for its resource and its place are good.
fn has_good_texts<R: RowCells>(alloc: Global, row: &R) -> Result<bool, AllocError>
    ensures { IfOk result (λ b. b ≡ has_good_texts (R.told row.now)) }
{
    if !holds_formula(alloc, &row.cell(alloc, "aclFormula")?)? {
        return Ok(false);
    }
    if !holds_permissions(&row.cell(alloc, "permissionsText")?) {
        return Ok(false);
    }
    has_good_notes(alloc, row)
}

/// Whether the row may stand among the rules, beside the rows of these resources.
///
/// Errors: out of memory. Cost: the texts, and the logarithm of the resources.
pub fn is_good_rule<R: RowCells>(
    alloc: Global,
    resources: &[u32],
    row: &R,
) -> Result<bool, AllocError>
    requires { IsAscending resources.now }
    ensures { IfOk result (λ b. b ≡ is_good_rule resources.now (R.told row.now)) }
{
    if !names_resource(resources, &row.cell(alloc, "resource")?) {
        return Ok(false);
    }
    if !is_position(&row.cell(alloc, "rulePos")?) {
        return Ok(false);
    }
    has_good_texts(alloc, row)
}
