//! A small document to look attributes up in: texts and numbers in the columns of a new table.

ghost use Rattle.std.specs.Prelude.{IfOk, OnOk};
ghost use Rattle.doc_model.specs.DocumentLaws.{IsWhole};

use crate::samples::name;
use cell_types::{CellText, CellValue, RowList, ValueList};
use doc_actions::apply;
use doc_model::laws::new_document_law;
use doc_model::{CellColumn, ColumnList, DocAction};
use row_tables::RowTables;
use std::alloc::{AllocError, Global};

/// The id of a column, and three texts or three numbers of it.
#[derive(Clone, Copy)]
pub(crate) enum Three {
    Texts(&'static str, &'static str, &'static str, &'static str),
    Numbers(&'static str, i64, i64, i64),
}

fn text(alloc: Global, text: &str) -> Result<CellValue, AllocError> {
    Ok(CellValue::Text(CellText::copy_of(alloc, text)?))
}

fn texts(alloc: Global, given: [&str; 3]) -> Result<ValueList, AllocError> {
    let mut values = ValueList::new(alloc);
    for one in given {
        values.push(text(alloc, one)?)?;
    }
    Ok(values)
}

fn numbers(alloc: Global, given: [i64; 3]) -> Result<ValueList, AllocError> {
    let mut values = ValueList::new(alloc);
    for one in given {
        values.push(CellValue::Int(one))?;
    }
    Ok(values)
}

fn column(alloc: Global, id: &str, values: ValueList) -> Result<CellColumn, AllocError> {
    match name(alloc, id) {
        Ok(id) => Ok(CellColumn { id, values }),
        Err(error) => {
            drop(values);
            Err(error)
        }
    }
}

fn column_of(alloc: Global, given: Three) -> Result<CellColumn, AllocError> {
    match given {
        Three::Texts(id, a, b, c) => column(alloc, id, texts(alloc, [a, b, c])?),
        Three::Numbers(id, a, b, c) => column(alloc, id, numbers(alloc, [a, b, c])?),
    }
}

fn columns_of(alloc: Global, given: &[Three]) -> Result<ColumnList, AllocError> {
    let mut columns = ColumnList::new(alloc);
    for one in given {
        columns.push(column_of(alloc, *one)?)?;
    }
    Ok(columns)
}

fn added(
    alloc: Global,
    table: &str,
    rows: [u32; 3],
    given: &[Three],
) -> Result<DocAction, AllocError> {
    let columns = columns_of(alloc, given)?;
    let rows = RowList::from(Vec::from_array(alloc, rows)?);
    match name(alloc, table) {
        Ok(table) => Ok(DocAction::BulkAdd {
            table,
            rows,
            columns,
        }),
        Err(error) => {
            drop(columns);
            drop(rows);
            Err(error)
        }
    }
}

/// Adds three rows to a table.
pub(crate) fn add_rows(
    alloc: Global,
    document: &mut RowTables,
    table: &str,
    rows: [u32; 3],
    given: &[Three],
) -> Result<(), AllocError>
    requires { IsWhole document.old }
    ensures { IsWhole document.new }
{
    let action = added(alloc, table, rows, given)?;
    let done = apply(alloc, document, &action).is_ok();
    drop(action);
    if done { Ok(()) } else { Err(AllocError) }
}

/// A new document: the table `Table1` with the columns `A`, `B` and `C`, and no row.
pub(crate) fn new_document(alloc: Global) -> Result<RowTables, AllocError>
    ensures { IfOk result (λ document. IsWhole document) }
{
    new_document_law();
    RowTables::new_document(alloc)
}
