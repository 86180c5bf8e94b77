//! What a user action comes to, limits included.

ghost use Rattle.std.specs.Prelude.{◌≡◌, ◌+◌, map, true, false, IfOk};
ghost use Rattle.doc_model.specs.Apply.{all_valid, apply_all};
ghost use Rattle.doc_model.specs.Counts.{counts, first_passed};
ghost use Rattle.doc_model.specs.DocumentLaws.{IsWhole};
ghost use Rattle.doc_model.specs.WellFormed.{has_whole_columns};
ghost use Rattle.user_actions.specs.Allowed.{is_allowed};
ghost use Rattle.action_limits.specs.Capped.{AddsSo, AreMaximaAdded, capped, maxima_noted, settled};
ghost use Rattle.user_actions.specs.Kinds.{makes_rows};
ghost use Rattle.action_limits.specs.Grown.{AreMaximaDescribed, AreMaximaGrown, grows_schema, new_tables};
ghost use Rattle.user_actions.specs.Kinds.{table_of};
ghost use Rattle.action_limits.specs.Left.{AreQuietLater, TellsMaxima, is_renaming};
ghost use Rattle.user_actions.specs.StepLaws.{action_of};
ghost use Rattle.action_limits.specs.Tallies.{IsExpansion, IsTally, are_within};

use crate::Tally;
use crate::limits::{Counted, first_passed, no_counts, wider};
use crate::maxima::{columns_with_one, maxima_after, maxima_before, rows_described, rows_with};
use crate::moves::{after_steps, after_updates};
use crate::tally::{sums_of, tally_or_limit};
use cell_types::Name;
use doc_model::{DocTables, LimitKind, Step, StepList, UserAction};
use doc_readers::{columns_table, tables_table};
use std::alloc::{AllocError, Global};
use user_actions::{last_row, steps, table_name};

/// What a user action comes to.
#[derive(Drop)]
pub enum Expansion {
    /// Its document actions, and the tally of the document after them.
    Steps { steps: StepList, tally: Tally },
    /// The first limit that would be passed after them.
    Limit(LimitKind),
}

// What steps come to, by the sums and the maxima after them.
fn settled(steps: StepList, sums: Counted, most: Counted) -> Expansion
    ensures { result ≡ settled steps sums most }
{
    match tally_or_limit(sums, most) {
        Ok(tally) => Expansion::Steps { steps, tally },
        Err(kind) => Expansion::Limit(kind),
    }
}

// The maxima after steps: none but the first moves them.
fn maxima_after_steps<D: DocTables>(tables: &D, within: bool, steps: &[Step]) -> Counted
    requires whole { IsWhole (D.document tables.now) }
    requires within { within ≡ are_within (counts (D.document tables.now)) }
    requires valid { all_valid (D.document tables.now) (map action_of steps.now) ≡ true }
    requires quiet { AreQuietLater steps.now }
    ensures { TellsMaxima result (apply_all (D.document tables.now) (map action_of steps.now)) }
{
    if steps.is_empty() {
        return maxima_before(tables, within);
    }
    maxima_after(tables, within, &steps[0].action)
}

// What a renaming comes to. Of its steps the update of resources alone moves counts: a column that
// refers to the table has another type, and the formula that it had.
fn renaming_expansion<D: DocTables>(
    alloc: Global,
    tables: &D,
    tally: Tally,
    action: &UserAction,
) -> Result<Expansion, AllocError>
    requires whole { IsWhole (D.document tables.now) }
    requires allowed { is_allowed (D.document tables.now) action.now ≡ true }
    requires well_formed { has_whole_columns action.now ≡ true }
    requires tally { IsTally (D.document tables.now) tally }
    requires renames { is_renaming action.now ≡ true }
    ensures { IfOk result (λ e. IsExpansion (D.document tables.now) action.now e) }
{
    let Some(steps) = steps(alloc, tables, action)? else {
        unreachable!()
    };
    let most = maxima_before(tables, tally.within);
    let sums = after_updates(tables, sums_of(tally), steps.as_slice());
    Ok(settled(steps, sums, most))
}

// What an action comes to that makes no rows and is no renaming.
fn other_expansion<D: DocTables>(
    alloc: Global,
    tables: &D,
    tally: Tally,
    action: &UserAction,
) -> Result<Expansion, AllocError>
    requires whole { IsWhole (D.document tables.now) }
    requires allowed { is_allowed (D.document tables.now) action.now ≡ true }
    requires well_formed { has_whole_columns action.now ≡ true }
    requires tally { IsTally (D.document tables.now) tally }
    requires other { makes_rows action.now ≡ false }
    requires stays { is_renaming action.now ≡ false }
    ensures { IfOk result (λ e. IsExpansion (D.document tables.now) action.now e) }
{
    let Some(steps) = steps(alloc, tables, action)? else {
        unreachable!()
    };
    let sums = after_steps(tables, sums_of(tally), steps.as_slice());
    let most = maxima_after_steps(tables, tally.within, steps.as_slice());
    Ok(settled(steps, sums, most))
}

// The most rows and the greatest row id where so many records are added to a table.
fn maxima_added<D: DocTables>(tables: &D, table: &Name, count: u32) -> Counted
    requires { IsWhole (D.document tables.now) }
    ensures { AreMaximaAdded (D.document tables.now) table.now count result }
{
    Counted {
        rows: rows_with(tables, table, count as u64),
        row_id: last_row(tables, table) as u64 + count as u64,
        ..no_counts()
    }
}

// The first limit of tables, columns, rows and row ids that the counts pass.
fn first_of_maxima(sums: Counted, most: Counted) -> Option<LimitKind>
    ensures { result ≡ first_passed (maxima_noted sums most) }
{
    first_passed(Counted {
        tables: sums.tables,
        cells: 0,
        weight: 0,
        ..most
    })
}

// What an action comes to that adds records. Their rows are counted before they are made.
fn add_expansion<D: DocTables>(
    alloc: Global,
    tables: &D,
    tally: Tally,
    count: u32,
    action: &UserAction,
) -> Result<Expansion, AllocError>
    requires whole { IsWhole (D.document tables.now) }
    requires allowed { is_allowed (D.document tables.now) action.now ≡ true }
    requires well_formed { has_whole_columns action.now ≡ true }
    requires tally { IsTally (D.document tables.now) tally }
    requires adds { AddsSo action.now count }
    ensures { IfOk result (λ e. IsExpansion (D.document tables.now) action.now e) }
{
    let added = {
        let table = table_name(alloc, action)?;
        maxima_added(tables, &table, count)
    };
    let most = wider(maxima_before(tables, tally.within), added);
    let before = sums_of(tally);
    if let Some(kind) = first_of_maxima(before, most) {
        return Ok(Expansion::Limit(kind));
    }
    let Some(steps) = steps(alloc, tables, action)? else {
        unreachable!()
    };
    let sums = after_steps(tables, before, steps.as_slice());
    Ok(settled(steps, sums, most))
}

// The maxima where a table has so many columns, and so many tables and columns are described.
fn maxima_described<D: DocTables>(
    tables: &D,
    columns: u64,
    new_tables: u64,
    new_columns: u64,
) -> Counted
    requires { IsWhole (D.document tables.now) }
    ensures { AreMaximaDescribed (D.document tables.now) columns new_tables new_columns result }
{
    let last_table = last_row(tables, tables_table(tables)) as u64;
    let last_column = last_row(tables, columns_table(tables)) as u64;
    Counted {
        columns,
        rows: rows_described(tables, new_tables, new_columns),
        row_id: last_table
            .saturating_add(new_tables)
            .max(last_column.saturating_add(new_columns)),
        ..no_counts()
    }
}

fn maxima_grown<D: DocTables>(tables: &D, table: &Name, action: &UserAction) -> Counted
    requires whole { IsWhole (D.document tables.now) }
    requires named { table.now ≡ table_of action.now }
    ensures { AreMaximaGrown (D.document tables.now) action.now result }
{
    match action {
        UserAction::AddTable { columns, .. } => {
            let count = columns.len() as u64;
            maxima_described(tables, count, 1, count)
        }
        _ => maxima_described(tables, columns_with_one(tables, table), 0, 1),
    }
}

// The counted tables with those that an action adds.
fn with_new_tables(tally: Tally, action: &UserAction) -> Counted
    ensures { result.tables ≡ capped (tally.tables + new_tables action.now) }
{
    let added = match action {
        UserAction::AddTable { .. } => 1,
        _ => 0,
    };
    Counted {
        tables: tally.tables.saturating_add(added),
        ..sums_of(tally)
    }
}

// What an action comes to that adds a table or a column. Where the row that describes it would pass
// the last row id no steps are made: a limit is passed.
fn schema_expansion<D: DocTables>(
    alloc: Global,
    tables: &D,
    tally: Tally,
    action: &UserAction,
) -> Result<Expansion, AllocError>
    requires whole { IsWhole (D.document tables.now) }
    requires allowed { is_allowed (D.document tables.now) action.now ≡ true }
    requires well_formed { has_whole_columns action.now ≡ true }
    requires tally { IsTally (D.document tables.now) tally }
    requires grows { grows_schema action.now ≡ true }
    ensures { IfOk result (λ e. IsExpansion (D.document tables.now) action.now e) }
{
    let grown = {
        let table = table_name(alloc, action)?;
        maxima_grown(tables, &table, action)
    };
    let most = wider(maxima_before(tables, tally.within), grown);
    let Some(steps) = steps(alloc, tables, action)? else {
        let Some(kind) = first_of_maxima(with_new_tables(tally, action), most) else {
            unreachable!()
        };
        return Ok(Expansion::Limit(kind));
    };
    let sums = after_steps(tables, sums_of(tally), steps.as_slice());
    Ok(settled(steps, sums, most))
}

/// The document actions of a user action, or the first limit that would be passed after them, by
/// the tally of the document.
///
/// Errors: out of memory.
/// Cost: the rows and values that are given; a column that changes costs all its cells, and a new
/// id the ids beside it. Where records go or a table is renamed, a walk over all columns, and where
/// records go over all cells of those that refer to the table; a renaming costs the resources.
/// Where a table was above its bounds before, a walk over all tables and columns.
/// Source: docs/DEFINITIONS.md, "action_limits".
pub fn expand<D: DocTables>(
    alloc: Global,
    tables: &D,
    tally: Tally,
    action: &UserAction,
) -> Result<Expansion, AllocError>
    requires whole { IsWhole (D.document tables.now) }
    requires allowed { is_allowed (D.document tables.now) action.now ≡ true }
    requires well_formed { has_whole_columns action.now ≡ true }
    requires tally { IsTally (D.document tables.now) tally }
    ensures { IfOk result (λ e. IsExpansion (D.document tables.now) action.now e) }
{
    match action {
        UserAction::Add { count, .. } => add_expansion(alloc, tables, tally, *count, action),
        UserAction::AddTable { .. } | UserAction::AddColumn { .. } => {
            schema_expansion(alloc, tables, tally, action)
        }
        UserAction::RenameTable { .. } | UserAction::RenameColumn { .. } => {
            renaming_expansion(alloc, tables, tally, action)
        }
        _ => other_expansion(alloc, tables, tally, action),
    }
}
