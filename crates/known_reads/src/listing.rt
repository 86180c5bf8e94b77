//! The formula columns of a document, with their trees.

ghost use Rattle.std.specs.Prelude.{◌≡◌, Some, IfOk, OnOk};
ghost use Rattle.doc_model.specs.ByIds.{AreDistinct, find_id};
ghost use Rattle.doc_model.specs.Column.{column_id};
ghost use Rattle.doc_model.specs.DocumentLaws.{IsWhole};
ghost use Rattle.doc_readers.specs.Parts.{grid_at};
ghost use Rattle.known_reads.specs.Listed.{AreListed};

use cell_types::Name;
use doc_model::{ColDef, DocTables};
use formula_parse::Formula;
use par_recalc::{ColumnFormula, FormulaList};
use recalc::tree_of;
use std::alloc::{AllocError, Global};

fn column_formula(
    table: &Name,
    column: &Name,
    formula: Formula,
) -> Result<ColumnFormula, AllocError>
    ensures { IfOk result (λ made. (made.table ≡ table.now) × (made.column ≡ column.now)
        × (made.formula ≡ formula)) }
{
    Ok(ColumnFormula {
        table: table.clone()?,
        column: column.clone()?,
        formula,
    })
}

// Lists a column, where it is a formula column whose text has a tree.
fn push_column<D: DocTables>(
    alloc: Global,
    tables: &D,
    table: &Name,
    column: &ColDef,
    formulas: &mut FormulaList,
) -> Result<(), AllocError>
    requires there { find_id column_id column.now.id
        (grid_at (D.document tables.now) table.now).columns ≡ Some column.now }
    requires listed { AreListed (D.document tables.now) formulas.old }
    ensures { OnOk result (AreListed (D.document tables.now) formulas.new) }
{
    if !column.info.is_formula {
        return Ok(());
    }
    let Some(formula) = tree_of(alloc, &column.info.formula)? else {
        return Ok(());
    };
    formulas.push(column_formula(table, &column.id, formula)?)?;
    Ok(())
}

// Lists the columns of a table.
fn push_columns<D: DocTables>(
    alloc: Global,
    tables: &D,
    table: &Name,
    formulas: &mut FormulaList,
) -> Result<(), AllocError>
    requires distinct { AreDistinct column_id
        (grid_at (D.document tables.now) table.now).columns }
    requires listed { AreListed (D.document tables.now) formulas.old }
    ensures { OnOk result (AreListed (D.document tables.now) formulas.new) }
{
    let mut index = 0;
    while let Some(column) = tables.column(table, index) {
        push_column(alloc, tables, table, column, formulas)?;
        index += 1;
    }
    Ok(())
}

/// The formula columns whose texts have a tree, table by table, column by column.
///
/// Errors: out of memory. Memory: the trees, once more.
pub(crate) fn formula_list<D: DocTables>(
    alloc: Global,
    tables: &D,
) -> Result<FormulaList, AllocError>
    requires { IsWhole (D.document tables.now) }
    ensures { IfOk result (AreListed (D.document tables.now)) }
{
    let mut formulas = FormulaList::new(alloc);
    let mut index = 0;
    while let Some(table) = tables.table(index) {
        push_columns(alloc, tables, table, &mut formulas)?;
        index += 1;
    }
    Ok(formulas)
}
