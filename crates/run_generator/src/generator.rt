//! A generator: what is left of a script, one request after the other.
ghost use Rattle.std.specs.Prelude.{◌≡◌, ◌≤◌, ◌<◌, ◌+◌, ◌++◌, ◌∷◌, ◌*◌, [], ℕ, true, IfOk, Some, MatchOption};
ghost use Rattle.run_generator.specs.Left.{adds_from, left_from, updates_from};
ghost use Rattle.run_generator.specs.Made.{IsMade};
ghost use Rattle.run_generator.specs.Script.{bundles_of, pause_after, updated_rows};
ghost use Rattle.run_generator.specs.Stages.{IsAtStage, drawn_before, row_bound};
ghost use Rattle.run_generator.specs.Draws.{drawn};
ghost use Rattle.run_generator.specs.declared.stage.Stage.TheVariants.{AddRows, UpdateRow};

use crate::record_actions::{Drawn, ROWS_AT_ONCE, adds_rows, updates_row};
use crate::requests::{adds_rule, adds_table, bundle, first_asks, opens, second_asks};
use crate::stage::Stage;
use doc_model::{Entry, Request};
use std::alloc::{AllocError, Global};
use std::marker::Model;

/// How many rows are updated at most.
const MAX_UPDATED_ROWS: u32 = 200;

/// The script of a generated run, of which it has a number and a place. It is seen as the entries
/// that are left.
#[derive(Drop)]
pub struct Generator {
    rows: u32,
    number: u64,
    stage: Stage,
}

impl Model for Generator {
    ghost use Rattle.std.specs.Prelude.{List, ◌≤◌, ◌<◌};
    ghost use Rattle.doc_model.specs.declared.entry.Entry.{Entry};
    ghost use Rattle.run_generator.specs.Left.{left_from};
    ghost use Rattle.run_generator.specs.Stages.{IsAtStage, row_bound};

    ghost Value = { List Entry };

    ghost view = { λ g. left_from g.rows g.stage };

    ghost invariant = { λ g. (0 < g.rows) × (g.rows ≤ row_bound) × (g.number ≤ 2147483648)
        × IsAtStage g.rows g.number g.stage };
}

/// An entry of a script, and where the script goes on.
#[derive(Drop)]
struct Made {
    entry: Entry,
    number: u64,
    next: Stage,
}

fn updates(rows: u32) -> u32
    ensures { result ≡ updated_rows rows }
{
    rows.min(MAX_UPDATED_ROWS)
}

fn bundles(rows: u32) -> u32
    requires { rows ≤ row_bound }
    ensures { result ≡ bundles_of rows }
{
    rows.div_ceil(ROWS_AT_ONCE)
}

// Where the script goes on before the bundle of that number: behind the last one with the updates.
fn before_bundle(rows: u32, number: u32) -> Stage
    requires rows { (0 < rows) × (rows ≤ row_bound) }
    requires there { number ≤ bundles_of rows }
    ensures left { left_from rows result ≡ adds_from rows number }
    ensures stage { (x : ℕ) → x ≡ drawn rows (drawn_before rows number)
        → IsAtStage rows x result }
{
    if number < bundles(rows) {
        Stage::AddRows { number }
    } else {
        Stage::UpdateRow { row: 1 }
    }
}

// Where the script goes on behind the bundle of that number.
fn behind_bundle(rows: u32, number: u32) -> Stage
    requires rows { (0 < rows) × (rows ≤ row_bound) }
    requires there { number < bundles_of rows }
    ensures left { left_from rows result ≡ pause_after number ++ adds_from rows (number + 1) }
    ensures stage { (x : ℕ) → x ≡ drawn rows (drawn_before rows (number + 1))
        → IsAtStage rows x result }
{
    let next = number + 1;
    if next.is_multiple_of(10) {
        Stage::Pause { number: next }
    } else {
        before_bundle(rows, next)
    }
}

// Where the script goes on behind the update of that row.
fn behind_update(rows: u32, row: u32) -> Stage
    requires there { (0 < row) × (row ≤ updated_rows rows) }
    ensures left { left_from rows result ≡ updates_from rows (row + 1) }
    ensures stage { (x : ℕ) → x ≡ drawn rows (2 * rows + row) → IsAtStage rows x result }
{
    if row < updates(rows) {
        Stage::UpdateRow { row: row + 1 }
    } else {
        Stage::SyncFirst
    }
}

// The request of a bundle of rows.
fn add_bundle(alloc: Global, rows: u32, bundle_number: u32, number: u64) -> Result<Made, AllocError>
    requires rows { (0 < rows) × (rows ≤ row_bound) }
    requires few { number ≤ 2147483648 }
    requires stage { IsAtStage rows number (AddRows bundle_number) }
    ensures { IfOk result (λ m. IsMade rows (AddRows bundle_number) m) }
{
    let Drawn { action, number } = adds_rows(alloc, rows, bundle_number, number)?;
    Ok(Made {
        entry: first_asks(alloc, bundle(alloc, action)?)?,
        number,
        next: behind_bundle(rows, bundle_number),
    })
}

// The request of the update of a row.
fn update_row(alloc: Global, rows: u32, row: u32, number: u64) -> Result<Made, AllocError>
    requires few { number ≤ 2147483648 }
    requires stage { IsAtStage rows number (UpdateRow row) }
    ensures { IfOk result (λ m. IsMade rows (UpdateRow row) m) }
{
    let Drawn { action, number } = updates_row(alloc, rows, row, number)?;
    Ok(Made {
        entry: second_asks(alloc, bundle(alloc, action)?)?,
        number,
        next: behind_update(rows, row),
    })
}

// The entry, and where the script goes on; no number is drawn.
fn going_on(entry: Entry, number: u64, next: Stage) -> Option<Made>
    ensures { result ≡ Some (record { entry = entry; number = number; next = next }) }
{
    Some(Made {
        entry,
        number,
        next,
    })
}

// What a stage asks for.
fn make(alloc: Global, rows: u32, number: u64, stage: Stage) -> Result<Option<Made>, AllocError>
    requires rows { (0 < rows) × (rows ≤ row_bound) }
    requires few { number ≤ 2147483648 }
    requires stage { IsAtStage rows number stage }
    ensures { IfOk result (λ o. MatchOption o (left_from rows stage ≡ []) (IsMade rows stage)) }
{
    Ok(match stage {
        Stage::OpenFirst => {
            let entry = first_asks(alloc, opens(alloc, "g1")?)?;
            going_on(entry, number, Stage::OpenSecond)
        }
        Stage::OpenSecond => {
            let entry = second_asks(alloc, opens(alloc, "g2")?)?;
            going_on(entry, number, Stage::AddTable)
        }
        Stage::AddTable => {
            let entry = first_asks(alloc, bundle(alloc, adds_table(alloc)?)?)?;
            going_on(entry, number, Stage::AddRule)
        }
        Stage::AddRule => {
            let entry = first_asks(alloc, adds_rule(alloc)?)?;
            going_on(entry, number, before_bundle(rows, 0))
        }
        Stage::AddRows { number: bundle } => Some(add_bundle(alloc, rows, bundle, number)?),
        Stage::Pause { number: bundle } => {
            let entry = second_asks(alloc, Request::Sync)?;
            going_on(entry, number, before_bundle(rows, bundle))
        }
        Stage::UpdateRow { row } => Some(update_row(alloc, rows, row, number)?),
        Stage::SyncFirst => {
            let entry = first_asks(alloc, Request::Sync)?;
            going_on(entry, number, Stage::SyncSecond)
        }
        Stage::SyncSecond => going_on(second_asks(alloc, Request::Sync)?, number, Stage::Done),
        Stage::Done => None,
    })
}

impl Generator {
    ghost use Rattle.std.specs.Prelude.{◌≡◌, ◌<◌, ◌≤◌, ◌∷◌, [], true, IfOk, IfSome, None, OnErr, MatchOption};
    ghost use Rattle.doc_model.specs.WellFormed.{asks_well_formed};
    ghost use Rattle.doc_model.specs.declared.request.Request.TheVariants.{Gone};
    ghost use Rattle.run_generator.specs.Script.{script};
    ghost use Rattle.run_generator.specs.Stages.{row_bound};

    /// The script of that many rows.
    ///
    /// Memory: none.
    pub fn new(rows: u32) -> Self
        requires rows { (0 < rows) × (rows ≤ row_bound) }
        ensures { result ≡ script rows }
    {
        Generator {
            rows,
            number: rows as u64,
            stage: Stage::OpenFirst,
        }
    }

    /// Makes the next request, or answers that the script has ended.
    ///
    /// Errors: out of memory; the request is then still to be made.
    /// Cost: linear in the request.
    pub fn next(&mut self, alloc: Global) -> Result<Option<Entry>, AllocError>
        ensures made { IfOk result (λ o.
            MatchOption o (self.old ≡ []) (λ e. self.old ≡ e ∷ self.new)) }
        ensures end { IfOk result (λ o. o ≡ None → self.new ≡ self.old) }
        ensures err { OnErr result (self.new ≡ self.old) }
        ensures well_formed { IfOk result (λ o.
            IfSome o (λ e. asks_well_formed e.request ≡ true)) }
        ensures kept { IfOk result (λ o. IfSome o (λ e. e.kept ≡ true)) }
        ensures stays { IfOk result (λ o. IfSome o (λ e. e.request ≡ Gone → ⊥)) }
    {
        match make(alloc, self.rows, self.number, self.stage)? {
            Some(
                Made {
                    entry,
                    number,
                    next,
                },
            ) => {
                self.number = number;
                self.stage = next;
                Ok(Some(entry))
            }
            None => Ok(None),
        }
    }
}
