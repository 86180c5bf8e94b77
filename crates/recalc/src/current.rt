//! Which documents have formulas.

ghost use Rattle.std.specs.Prelude.{◌≡◌};
ghost use Rattle.doc_model.specs.DocumentLaws.{IsWhole};
ghost use Rattle.doc_readers.specs.Parts.{grid_at};
ghost use Rattle.recalc.specs.Current.{brings_formula, has_formula, has_formulas};

use cell_types::Name;
use doc_model::{ColDef, DocAction, DocReader, DocTables};

/// Whether a column of the table has a formula.
///
/// Memory: none. Cost: linear in the columns.
pub fn has_formula<R: DocReader>(doc: &R, table: &Name) -> bool
    ensures { result ≡ has_formula (grid_at (R.document doc.now) table.now).columns }
{
    let mut index = 0;
    while let Some(column) = doc.column(table, index) {
        if column.info.is_formula {
            return true;
        }
        index += 1;
    }
    false
}

/// Whether a column of some table has a formula.
///
/// Memory: none. Cost: linear in the columns.
pub fn has_formulas<D: DocTables>(tables: &D) -> bool
    requires { IsWhole (D.document tables.now) }
    ensures { result ≡ has_formulas (D.document tables.now) }
{
    let mut index = 0;
    while let Some(table) = tables.table(index) {
        if has_formula(tables, table) {
            return true;
        }
        index += 1;
    }
    false
}

fn have_formula(columns: &[ColDef]) -> bool
    ensures { result ≡ has_formula columns.now }
{
    columns.iter().any(|column| column.info.is_formula)
}

/// Whether an action gives a column a formula.
///
/// Memory: none. Cost: linear in the columns of a new table.
pub fn brings_formula(action: &DocAction) -> bool
    ensures { result ≡ brings_formula action.now }
{
    match action {
        DocAction::AddTable { columns, .. } => have_formula(columns.as_slice()),
        DocAction::AddColumn { column, .. } => column.info.is_formula,
        DocAction::ModifyColumn { info, .. } => info.is_formula,
        _ => false,
    }
}
