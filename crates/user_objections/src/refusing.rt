//! What stands against a user action, by its user's view.

ghost use Rattle.std.specs.Prelude.{◌≡◌, IfOk, MatchResult, Some, None, List, Option, ℕ};
ghost use Rattle.std.specs.List.{list_all, list_any, AllByRecursion};
ghost use Rattle.doc_model.specs.declared.view.ViewTable.{ViewTable};
ghost use Rattle.doc_model.specs.Changes.{IsView, grid};
ghost use Rattle.doc_model.specs.Rows.{IsAscending};
ghost use Rattle.doc_model.specs.ViewEdits.{IsShown};
ghost use Rattle.doc_model.specs.declared.refusal.Refusal.{Refusal};
ghost use Rattle.doc_model.specs.declared.refusal.Refusal.TheVariants.{BadValue};
ghost use Rattle.user_actions.specs.Columns.{may_be_new};
ghost use Rattle.user_actions.specs.Given.{has_good_id};
ghost use Rattle.user_objections.specs.Objections.{against, in_records, in_schema, objection_to, on_change, on_column, on_columns, on_name, on_info, on_rows, on_rules, on_table, on_values, to_records, to_schema};

use crate::rows::{are_rows, have_no_duplicates};
use crate::rule_rows::are_good_rows;
use crate::tables::{find_column, find_table, has_column};
use crate::values::{are_all_base, are_shown, is_any_computed};
use doc_model::{Refusal, UserAction, UserCol, UserColumn, View, ViewTable};
use doc_readers::{is_acl_id, is_metadata_id, is_schema_id};
use name_rules::is_name;
use std::alloc::{AllocError, Global};
use user_actions::{may_be_new, may_become, table_of};

// The table of a record action.
fn records_table<'a>(tables: &'a [ViewTable], id: &str) -> Result<&'a ViewTable, Refusal>
    requires { AllByRecursion (λ t. IsShown (grid t)) tables.now }
    ensures table { MatchResult result
        (λ t. (rest : ViewTable → Option Refusal) → in_records tables.now id.now rest ≡ rest t.now)
        (λ o. (rest : ViewTable → Option Refusal) → in_records tables.now id.now rest ≡ Some o) }
    ensures shown { MatchResult result (λ t. IsShown (grid t.now)) (λ _. Unit {0}) }
{
    if is_schema_id(id) {
        return Err(Refusal::MetaTable);
    }
    match find_table(tables, id) {
        Some(table) => Ok(table),
        None => Err(Refusal::NoSuchTable),
    }
}

// The table of a schema action.
fn schema_table<'a>(tables: &'a [ViewTable], id: &str) -> Result<&'a ViewTable, Refusal>
    ensures { MatchResult result
        (λ t. (rest : ViewTable → Option Refusal) → in_schema tables.now id.now rest ≡ rest t.now)
        (λ o. (rest : ViewTable → Option Refusal) → in_schema tables.now id.now rest ≡ Some o) }
{
    if is_metadata_id(id) {
        return Err(Refusal::MetaTable);
    }
    match find_table(tables, id) {
        Some(table) => Ok(table),
        None => Err(Refusal::NoSuchTable),
    }
}

fn on_values(given: &[UserColumn], next: Option<Refusal>) -> Option<Refusal>
    ensures { result ≡ on_values given.now next }
{
    if !are_all_base(given) {
        return Some(Refusal::BadValue);
    }
    next
}

// The columns that an action gives values; the next objection is that a row id is given.
fn on_columns(
    table: &ViewTable,
    has_row_ids: bool,
    given: &[UserColumn],
    next: Option<Refusal>,
) -> Option<Refusal>
    ensures { result ≡ on_columns table.now given.now
        (against has_row_ids BadValue (on_values given.now next)) }
{
    let columns = table.columns.as_slice();
    if !are_shown(columns, given) {
        return Some(Refusal::NoSuchColumn);
    }
    if is_any_computed(columns, given) {
        return Some(Refusal::FormulaColumn);
    }
    if has_row_ids {
        return Some(Refusal::BadValue);
    }
    on_values(given, next)
}

// The rows that result, in the tables of access rules.
fn on_rules(
    alloc: Global,
    tables: &[ViewTable],
    table: &ViewTable,
    given: &[UserColumn],
    rows: &[i64],
    count: usize,
) -> Result<Option<Refusal>, AllocError>
    requires seen { AllByRecursion (λ t. IsShown (grid t)) tables.now }
    requires shown { IsShown (grid table.now) }
    ensures { IfOk result (λ o. o ≡ on_rules tables.now table.now given.now rows.now count) }
{
    if !is_acl_id(table.id.as_str()) {
        return Ok(None);
    }
    if !are_good_rows(alloc, tables, table, given, rows, count)? {
        return Ok(Some(Refusal::BadRule));
    }
    Ok(None)
}

// The rows that an action names; the next objection comes from its columns.
fn on_rows(
    alloc: Global,
    table: &ViewTable,
    rows: &[i64],
    next: Option<Refusal>,
) -> Result<Option<Refusal>, AllocError>
    requires { IsAscending table.now.rows }
    ensures { IfOk result (λ o. o ≡ on_rows table.now rows.now next) }
{
    if !have_no_duplicates(alloc, rows)? {
        return Ok(Some(Refusal::DuplicateRow));
    }
    if !are_rows(table.rows.as_slice(), rows) {
        return Ok(Some(Refusal::NoSuchRow));
    }
    Ok(next)
}

fn on_name(id: &str, next: Option<Refusal>) -> Option<Refusal>
    ensures { result ≡ on_name id.now next }
{
    if !is_name(id) {
        return Some(Refusal::BadName);
    }
    next
}

fn on_column(table: &ViewTable, column: &str, next: Option<Refusal>) -> Option<Refusal>
    ensures { result ≡ on_column table.now column.now next }
{
    if !has_column(table.columns.as_slice(), column) {
        return Some(Refusal::NoSuchColumn);
    }
    next
}

fn on_info(column: &UserCol) -> Option<Refusal>
    ensures { result ≡ on_info column.now }
{
    if !may_be_new(column) {
        return Some(Refusal::BadValue);
    }
    None
}

// What is said of a column that is there.
fn on_change(table: &ViewTable, column: &UserCol) -> Option<Refusal>
    ensures { result ≡ on_change table.now column.now }
{
    match find_column(table.columns.as_slice(), column.id.as_str()) {
        None => Some(Refusal::NoSuchColumn),
        Some(known) if !may_become(known.is_formula, column) => Some(Refusal::BadValue),
        Some(_) => None,
    }
}

fn have_good_ids(columns: &[UserCol]) -> bool
    ensures { result ≡ list_all has_good_id columns.now }
{
    columns.iter().all(|column| is_name(column.id.as_str()))
}

fn may_all_be_new(columns: &[UserCol]) -> bool
    ensures { result ≡ list_all may_be_new columns.now }
{
    columns.iter().all(|column| may_be_new(column))
}

// A new table.
fn on_table(table: &str, columns: &[UserCol]) -> Option<Refusal>
    ensures { result ≡ on_table table.now columns.now }
{
    if !is_name(table) || !have_good_ids(columns) {
        return Some(Refusal::BadName);
    }
    if !may_all_be_new(columns) {
        return Some(Refusal::BadValue);
    }
    None
}

// What stands against a record action.
fn to_records(
    alloc: Global,
    tables: &[ViewTable],
    table: &ViewTable,
    action: &UserAction,
) -> Result<Option<Refusal>, AllocError>
    requires seen { AllByRecursion (λ t. IsShown (grid t)) tables.now }
    requires shown { IsShown (grid table.now) }
    ensures { IfOk result (λ o. o ≡ to_records tables.now table.now action.now) }
{
    match action {
        UserAction::Add {
            count,
            has_row_ids,
            columns,
            ..
        } => {
            let given = columns.as_slice();
            let next = on_rules(alloc, tables, table, given, &[], *count as usize)?;
            Ok(on_columns(table, *has_row_ids, given, next))
        }
        UserAction::Update { rows, columns, .. } => {
            let (rows, given) = (rows.as_slice(), columns.as_slice());
            let next = on_rules(alloc, tables, table, given, rows, rows.len())?;
            on_rows(alloc, table, rows, on_columns(table, false, given, next))
        }
        UserAction::Remove { rows, .. } => on_rows(alloc, table, rows.as_slice(), None),
        _ => Ok(None),
    }
}

// What stands against a schema action on a table that is there.
fn to_schema(table: &ViewTable, action: &UserAction) -> Option<Refusal>
    ensures { result ≡ to_schema table.now action.now }
{
    match action {
        UserAction::RenameTable { new, .. } => on_name(new.as_str(), None),
        UserAction::AddColumn { column, .. } => on_name(column.id.as_str(), on_info(column)),
        UserAction::RemoveColumn { column, .. } => on_column(table, column.as_str(), None),
        UserAction::RenameColumn { column, new, .. } => {
            on_column(table, column.as_str(), on_name(new.as_str(), None))
        }
        UserAction::ModifyColumn { column, .. } => on_change(table, column),
        _ => None,
    }
}

// What stands against a user action.
fn objection_to(
    alloc: Global,
    tables: &[ViewTable],
    action: &UserAction,
) -> Result<Option<Refusal>, AllocError>
    requires { AllByRecursion (λ t. IsShown (grid t)) tables.now }
    ensures { IfOk result (λ o. o ≡ objection_to tables.now action.now) }
{
    match action {
        UserAction::AddTable { table, columns } => {
            if is_metadata_id(table.as_str()) {
                return Ok(Some(Refusal::MetaTable));
            }
            Ok(on_table(table.as_str(), columns.as_slice()))
        }
        UserAction::Add { .. } | UserAction::Update { .. } | UserAction::Remove { .. } => {
            match records_table(tables, table_of(action)) {
                Ok(table) => to_records(alloc, tables, table, action),
                Err(objection) => Ok(Some(objection)),
            }
        }
        _ => match schema_table(tables, table_of(action)) {
            Ok(table) => Ok(to_schema(table, action)),
            Err(objection) => Ok(Some(objection)),
        },
    }
}

/// Why the action is refused, by its user's view alone; nothing where nothing stands against it.
/// Limits and access rules are not asked here.
///
/// Errors: out of memory. Cost: the tables, the columns of the named table times those that
/// are given, and the rows and values that are given; in the tables of access rules also the texts
/// of the rows that result.
/// Source: docs/PROTOCOL.md, "refusals".
pub fn refuse(
    alloc: Global,
    view: &View,
    action: &UserAction,
) -> Result<Option<Refusal>, AllocError>
    requires { IsView view.now.tables }
    ensures { IfOk result (λ o. o ≡ objection_to view.now.tables action.now) }
{
    objection_to(alloc, view.tables.as_slice(), action)
}
