//! What one cell of a document says.

ghost use Rattle.std.specs.Prelude.{◌≡◌, IfOk, option_copied};
ghost use Rattle.meta_schema.specs.Decoding.{holds, name_in, text_in, told, truth_in, type_in};

use crate::type_texts::{name_of, type_of};
use cell_types::{CellText, CellValue, ColType, Name};
use doc_model::DocTables;
use std::alloc::{AllocError, Global};

/// The text that a cell holds.
#[tactic(auto, using(doc_readers::proofs::CellLemmas::cell_told))]
pub(crate) fn text_in<'a, D: DocTables>(
    tables: &'a D,
    table: &Name,
    column: &Name,
    row: u32,
) -> Option<&'a CellText>
    ensures { option_copied result
        ≡ text_in (told (D.document tables.now) table.now column.now row) }
{
    match tables.cell(table, column, row) {
        Some(CellValue::Text(text)) => Some(text),
        _ => None,
    }
}

/// The truth value that a cell holds.
#[tactic(auto, using(doc_readers::proofs::CellLemmas::cell_told))]
pub(crate) fn truth_in<D: DocTables>(
    tables: &D,
    table: &Name,
    column: &Name,
    row: u32,
) -> Option<bool>
    ensures { result ≡ truth_in (told (D.document tables.now) table.now column.now row) }
{
    match tables.cell(table, column, row) {
        Some(CellValue::Bool(truth)) => Some(*truth),
        _ => None,
    }
}

/// Whether a cell holds the wanted row.
#[tactic(auto, using(doc_readers::proofs::CellLemmas::cell_told))]
pub(crate) fn holds<D: DocTables>(
    tables: &D,
    table: &Name,
    column: &Name,
    row: u32,
    wanted: u32,
) -> bool
    ensures { result ≡ holds (told (D.document tables.now) table.now column.now row) wanted }
{
    match tables.cell(table, column, row) {
        Some(CellValue::Int(number)) => *number == i64::from(wanted),
        _ => false,
    }
}

/// The name that a cell holds.
pub(crate) fn name_in<D: DocTables>(
    alloc: Global,
    tables: &D,
    table: &Name,
    column: &Name,
    row: u32,
) -> Result<Option<Name>, AllocError>
    ensures { IfOk result
        (λ o. o ≡ name_in (told (D.document tables.now) table.now column.now row)) }
{
    match text_in(tables, table, column, row) {
        Some(text) => name_of(alloc, text.as_str()),
        None => Ok(None),
    }
}

/// The type that a cell holds.
pub(crate) fn type_in<D: DocTables>(
    alloc: Global,
    tables: &D,
    table: &Name,
    column: &Name,
    row: u32,
) -> Result<Option<ColType>, AllocError>
    ensures { IfOk result
        (λ o. o ≡ type_in (told (D.document tables.now) table.now column.now row)) }
{
    match text_in(tables, table, column, row) {
        Some(text) => type_of(alloc, text.as_str()),
        None => Ok(None),
    }
}
