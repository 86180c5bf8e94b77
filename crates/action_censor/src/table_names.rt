//! The tables that steps are about.

ghost use Rattle.std.specs.Prelude.{◌≡◌, [], ◌∷◌, map, IfOk, MatchOption, OnOk};
ghost use Rattle.std.specs.List.{list_any};
ghost use Rattle.std.specs.Str.{bytes_eq};
ghost use Rattle.cell_types.specs.declared.cell.CellOld.{CellOld};
ghost use Rattle.action_censor.specs.Step.{step_of};
ghost use Rattle.action_censor.specs.Touched.{table_named, tables_in, tables_told, with_name, with_names};

use crate::steps::StepTrace;
use cell_types::{CellOld, Name};
use doc_model::DocAction;
use std::alloc::{AllocError, Global};

// The table of a record action.
fn table_named(action: &DocAction) -> Option<&Name>
    ensures { MatchOption result (table_named action.now ≡ [])
        (λ table. table_named action.now ≡ table.now ∷ []) }
{
    match action {
        DocAction::BulkAdd { table, .. }
        | DocAction::BulkUpdate { table, .. }
        | DocAction::BulkRemove { table, .. } => Some(table),
        _ => None,
    }
}

fn is_noted(names: &[Name], name: &Name) -> bool
    ensures { result ≡ list_any (λ m. bytes_eq m name.now) names.now }
{
    names.iter().any(|other| other.as_str() == name.as_str())
}

fn note_name(names: &mut Vec<Name>, name: &Name) -> Result<(), AllocError>
    ensures { OnOk result (names.new.items ≡ with_name names.old.items name.now) }
{
    if !is_noted(names.as_slice(), name) {
        names.push(name.clone()?)?;
    }
    Ok(())
}

fn note_cells(names: &mut Vec<Name>, cells: &[CellOld]) -> Result<(), AllocError>
    ensures { OnOk result (names.new.items
        ≡ with_names names.old.items (map (λ (o : CellOld). o.cell.table) cells.now)) }
{
    for old in cells {
        note_name(names, &old.cell.table)?;
    }
    Ok(())
}

fn note_action(names: &mut Vec<Name>, action: &DocAction) -> Result<(), AllocError>
    ensures { OnOk result (names.new.items
        ≡ with_names names.old.items (table_named action.now)) }
{
    match table_named(action) {
        Some(table) => note_name(names, table),
        None => Ok(()),
    }
}

#[tactic(auto, using(crate::proofs::NameLemmas::names_append))]
fn note_step(names: &mut Vec<Name>, step: &StepTrace<'_>) -> Result<(), AllocError>
    ensures { OnOk result (names.new.items
        ≡ with_names names.old.items (tables_in (step_of step.now))) }
{
    note_action(names, step.action)?;
    note_cells(names, step.cells)
}

/// The tables that steps of records are about, each once.
///
/// Errors: out of memory. Cost: the steps and their cells, each times the tables.
pub(crate) fn named_tables(alloc: Global, steps: &[StepTrace<'_>]) -> Result<Vec<Name>, AllocError>
    ensures { IfOk result
        (λ l. l.items ≡ with_names [] (tables_told (map step_of steps.now))) }
{
    let mut names = Vec::new(alloc);
    for step in steps {
        note_step(&mut names, step)?;
    }
    Ok(names)
}
