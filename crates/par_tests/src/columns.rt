//! Formula columns made of texts.

use cell_types::{CellText, Name};
use formula_parse::parse;
use par_recalc::{ColumnFormula, FormulaList};
use std::alloc::{AllocError, Global};

/// A table, a column of it and the column's formula.
pub type Texts = (&'static str, &'static str, &'static str);

fn name_of(alloc: Global, text: &str) -> Result<Name, AllocError> {
    match Name::try_new(CellText::copy_of(alloc, text)?) {
        Some(name) => Ok(name),
        None => Err(AllocError),
    }
}

fn column_of(alloc: Global, texts: &Texts) -> Result<ColumnFormula, AllocError> {
    let Ok(formula) = parse(alloc, texts.2) else {
        return Err(AllocError);
    };
    let table = name_of(alloc, texts.0)?;
    let column = name_of(alloc, texts.1)?;
    Ok(ColumnFormula {
        table,
        column,
        formula,
    })
}

/// Columns in this order.
pub fn columns_of(alloc: Global, given: &[Texts]) -> Result<FormulaList, AllocError> {
    let mut columns = FormulaList::new(alloc);
    for texts in given {
        columns.push(column_of(alloc, texts)?)?;
    }
    Ok(columns)
}
