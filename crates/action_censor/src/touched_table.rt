//! What a bundle did to tables, made once for all who are told of it.

ghost use Rattle.std.specs.Prelude.{◌≡◌, ◌++◌, ◌∷◌, [], cond, map, true, IfOk, OnOk};
ghost use Rattle.std.specs.List.{AllByRecursion};
ghost use Rattle.doc_model.specs.LaidOut.{IsLaidOut};
ghost use Rattle.doc_model.specs.ByIds.{has_id};
ghost use Rattle.doc_model.specs.Document.{table_id};
ghost use Rattle.action_censor.specs.Step.{are_records, is_table_of, step_of};
ghost use Rattle.action_censor.specs.Touched.{tables_told, with_names};
ghost use Rattle.action_censor.specs.TouchedTables.{AreTouchedTables, IsTouchedTable, touched_id};

use crate::old_rows::old_rows;
use crate::steps::StepTrace;
use crate::table_names::named_tables;
use crate::touched_rows::rows_touched;
use acl_formula::AttributeRow;
use cell_types::Name;
use censored_view::rows_there;
use doc_model::DocReader;
use doc_readers::{has_table, rows_in};
use std::alloc::{AllocError, Global};

/// A table that a bundle is about: its rows that the bundle is about, as they were before it, and
/// those of them that are there after it.
#[derive(Drop)]
pub struct TouchedTable {
    pub(crate) id: Name,
    pub(crate) before: Vec<AttributeRow>,
    pub(crate) after: Vec<u32>,
}

fn touched_table<D: DocReader>(
    alloc: Global,
    tables: &D,
    steps: &[StepTrace<'_>],
    id: &Name,
) -> Result<TouchedTable, AllocError>
    requires laid_out { IsLaidOut (D.document tables.now) }
    requires records { are_records (map step_of steps.now) ≡ true }
    requires there { has_id table_id (D.document tables.now) id.now ≡ true }
    requires about { is_table_of (map step_of steps.now) id.now ≡ true }
    ensures id { IfOk result (λ t. t.id ≡ id.now) }
    ensures made { IfOk result
        (λ t. IsTouchedTable (map step_of steps.now) (D.document tables.now) t) }
{
    let touched = rows_touched(alloc, steps, id)?;
    let before = old_rows(alloc, tables, steps, id, touched.as_slice())?;
    let after = rows_there(alloc, touched.as_slice(), rows_in(tables, id))?;
    let name = id.clone()?;
    Ok(TouchedTable {
        id: name,
        before,
        after,
    })
}

// Adds a table that steps are about, where it is there.
fn add_touched<D: DocReader>(
    alloc: Global,
    tables: &D,
    steps: &[StepTrace<'_>],
    id: &Name,
    touched: &mut Vec<TouchedTable>,
) -> Result<(), AllocError>
    requires laid_out { IsLaidOut (D.document tables.now) }
    requires records { are_records (map step_of steps.now) ≡ true }
    requires about { is_table_of (map step_of steps.now) id.now ≡ true }
    ensures ids { OnOk result (map touched_id touched.new.items ≡ map touched_id touched.old.items
        ++ cond (has_id table_id (D.document tables.now) id.now) (id.now ∷ []) []) }
    ensures each { OnOk result
        (AllByRecursion (IsTouchedTable (map step_of steps.now) (D.document tables.now))
        touched.old.items
        → AllByRecursion (IsTouchedTable (map step_of steps.now) (D.document tables.now))
        touched.new.items) }
{
    if !has_table(tables, id) {
        return Ok(());
    }
    let table = touched_table(alloc, tables, steps, id)?;
    touched.push(table)?;
    Ok(())
}

// Those of the named tables that are there.
fn tables_there<D: DocReader>(
    alloc: Global,
    tables: &D,
    steps: &[StepTrace<'_>],
    names: &[Name],
) -> Result<Vec<TouchedTable>, AllocError>
    requires laid_out { IsLaidOut (D.document tables.now) }
    requires records { are_records (map step_of steps.now) ≡ true }
    requires named { names.now ≡ with_names [] (tables_told (map step_of steps.now)) }
    ensures { IfOk result
        (λ l. AreTouchedTables (map step_of steps.now) (D.document tables.now) l.items) }
{
    let mut touched = Vec::new(alloc);
    for id in names {
        add_touched(alloc, tables, steps, id, &mut touched)?;
    }
    Ok(touched)
}

/// The tables that a bundle of record actions is about, by its steps and the evaluated document
/// after it. Those whom it changed something for are told by `follow`.
///
/// Errors: out of memory.
/// Cost: the cells of the touched rows, and sorting these; for each touched table the steps' cells
/// and the rows that their actions name.
pub fn touched_tables<D: DocReader>(
    alloc: Global,
    tables: &D,
    steps: &[StepTrace<'_>],
) -> Result<Vec<TouchedTable>, AllocError>
    requires laid_out { IsLaidOut (D.document tables.now) }
    requires records { are_records (map step_of steps.now) ≡ true }
    ensures { IfOk result
        (λ l. AreTouchedTables (map step_of steps.now) (D.document tables.now) l.items) }
{
    let names = named_tables(alloc, steps)?;
    let touched = tables_there(alloc, tables, steps, names.as_slice())?;
    Ok(touched)
}
