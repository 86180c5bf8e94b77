//! Which rows of one table were there before the steps that add or remove them.

ghost use Rattle.std.specs.Prelude.{◌≡◌, ℕ, cond, map, nat_eq, None, Some, unwrap_or, IfOk, OnOk};
ghost use Rattle.std.specs.HashMap.{get};
ghost use Rattle.doc_model.specs.Records.{or_else};
ghost use Rattle.doc_model.specs.Rows.{has};
ghost use Rattle.action_censor.specs.Step.{step_of};
ghost use Rattle.action_censor.specs.Touched.{first_there, told_there};

use crate::steps::StepTrace;
use cell_types::Name;
use doc_model::DocAction;
use std::alloc::{AllocError, Global};
use std::collections::HashMap;

/// Rows that steps add or remove, each with whether it was there before the first that does.
pub(crate) type ThereBefore = HashMap<u32, bool>;

// Notes a row that is not noted yet.
fn note_row(noted: &mut ThereBefore, row: u32, there: bool) -> Result<(), AllocError>
    ensures { OnOk result ((r : ℕ) → get nat_eq noted.new r
        ≡ or_else (get nat_eq noted.old r) (cond (nat_eq row r) (Some there) None)) }
{
    if noted.contains_key(&row) {
        return Ok(());
    }
    noted.insert(row, there)?;
    Ok(())
}

fn note_rows(noted: &mut ThereBefore, rows: &[u32], there: bool) -> Result<(), AllocError>
    ensures { OnOk result ((r : ℕ) → get nat_eq noted.new r
        ≡ or_else (get nat_eq noted.old r) (cond (has rows.now r) (Some there) None)) }
{
    for row in rows {
        note_row(noted, *row, there)?;
    }
    Ok(())
}

// Notes the rows that an action adds to the table or removes from it.
fn note_action(noted: &mut ThereBefore, id: &Name, action: &DocAction) -> Result<(), AllocError>
    ensures { OnOk result ((r : ℕ) → get nat_eq noted.new r
        ≡ or_else (get nat_eq noted.old r) (told_there action.now id.now r)) }
{
    match action {
        DocAction::BulkAdd { table, rows, .. } if table.as_str() == id.as_str() => {
            note_rows(noted, rows.as_slice(), false)
        }
        DocAction::BulkRemove { table, rows } if table.as_str() == id.as_str() => {
            note_rows(noted, rows.as_slice(), true)
        }
        _ => Ok(()),
    }
}

/// The rows of the table that steps add or remove.
///
/// Errors: out of memory. Cost: the rows that their actions add and remove.
pub(crate) fn there_before(
    alloc: Global,
    steps: &[StepTrace<'_>],
    id: &Name,
) -> Result<ThereBefore, AllocError>
    ensures { IfOk result
        (λ noted. (r : ℕ) → get nat_eq noted r ≡ first_there (map step_of steps.now) id.now r) }
{
    let mut noted = HashMap::new(alloc);
    for step in steps {
        note_action(&mut noted, id, step.action)?;
    }
    Ok(noted)
}

/// Whether a row was there before the steps, by whether it is there after them.
///
/// Memory: none.
pub(crate) fn was_there(noted: &ThereBefore, row: u32, now: bool) -> bool
    ensures { result ≡ unwrap_or (get nat_eq noted.now row) now }
{
    match noted.get(&row) {
        Some(there) => *there,
        None => now,
    }
}
