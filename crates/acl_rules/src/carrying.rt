//! Rules carried along through renames.

ghost use Rattle.std.specs.Prelude.{◌≡◌, IfOk, OnOk, OnErr, map, cond, bytes_eq, option_map};
ghost use Rattle.acl_rules.specs.declared.resource.Resource.TheVariants as resource;
ghost use Rattle.acl_rules.specs.Carried.{carried, is_rename, moved, moved_columns, moved_id};

use crate::book::RuleBook;
use crate::resource::{Columns, Resource};
use cell_types::{Name, NameList};
use doc_model::DocAction;
use std::alloc::{AllocError, Global};

// A copy of an id, or of the new one where it is the old one.
fn moved_id(old: &Name, new: &Name, id: &Name) -> Result<Name, AllocError>
    ensures { IfOk result (λ n. n ≡ moved_id old.now new.now id.now) }
{
    if id.as_str() == old.as_str() {
        return new.clone();
    }
    id.clone()
}

fn moved_ids(alloc: Global, old: &Name, new: &Name, ids: &[Name]) -> Result<NameList, AllocError>
    ensures { IfOk result (λ l. l ≡ map (moved_id old.now new.now) ids.now) }
{
    let mut made = Vec::new(alloc);
    for id in ids {
        made.push(moved_id(old, new, id)?)?;
    }
    Ok(NameList::from(made))
}

fn moved_columns(
    alloc: Global,
    old: &Name,
    new: &Name,
    columns: &Columns,
) -> Result<Columns, AllocError>
    ensures { IfOk result (λ c. c ≡ moved_columns old.now new.now columns.now) }
{
    match columns {
        Columns::All => Ok(Columns::All),
        Columns::These(ids) => Ok(Columns::These(moved_ids(alloc, old, new, ids.as_slice())?)),
    }
}

// A table with its columns, where a table is renamed.
fn table_moved(old: &Name, new: &Name, id: &Name, columns: &Columns) -> Result<Resource, AllocError>
    ensures { IfOk result
        (λ r. r ≡ resource.Table (moved_id old.now new.now id.now) columns.now) }
{
    let columns = columns.clone()?;
    match moved_id(old, new, id) {
        Ok(id) => Ok(Resource::Table(id, columns)),
        Err(error) => {
            drop(columns);
            Err(error)
        }
    }
}

// A table with its columns, where a column of some table is renamed.
fn columns_moved(
    alloc: Global,
    table: &Name,
    old: &Name,
    new: &Name,
    id: &Name,
    columns: &Columns,
) -> Result<Resource, AllocError>
    ensures { IfOk result (λ r. r ≡ resource.Table id.now
        (cond (bytes_eq id.now table.now)
        (moved_columns old.now new.now columns.now) columns.now)) }
{
    let columns = if id.as_str() == table.as_str() {
        moved_columns(alloc, old, new, columns)?
    } else {
        columns.clone()?
    };
    match id.clone() {
        Ok(id) => Ok(Resource::Table(id, columns)),
        Err(error) => {
            drop(columns);
            Err(error)
        }
    }
}

fn moved(alloc: Global, action: &DocAction, resource: &Resource) -> Result<Resource, AllocError>
    ensures { IfOk result (λ r. r ≡ moved action.now resource.now) }
{
    match (action, resource) {
        (DocAction::RenameTable { table, new }, Resource::Table(id, columns)) => {
            table_moved(table, new, id, columns)
        }
        (DocAction::RenameColumn { table, column, new }, Resource::Table(id, columns)) => {
            columns_moved(alloc, table, column, new, id, columns)
        }
        _ => resource.clone(),
    }
}

fn maybe_moved(
    alloc: Global,
    action: &DocAction,
    resource: &Option<Resource>,
) -> Result<Option<Resource>, AllocError>
    ensures { IfOk result (λ r. r ≡ option_map (moved action.now) resource.now) }
{
    match resource {
        Some(resource) => Ok(Some(moved(alloc, action, resource)?)),
        None => Ok(None),
    }
}

fn all_moved(
    alloc: Global,
    action: &DocAction,
    resources: &[Option<Resource>],
) -> Result<Vec<Option<Resource>>, AllocError>
    ensures { IfOk result
        (λ made. made.items ≡ map (option_map (moved action.now)) resources.now) }
{
    let mut made = Vec::new(alloc);
    for resource in resources {
        made.push(maybe_moved(alloc, action, resource)?)?;
    }
    Ok(made)
}

fn is_rename(action: &DocAction) -> bool
    ensures { result ≡ is_rename action.now }
{
    matches!(
        action,
        DocAction::RenameTable { .. } | DocAction::RenameColumn { .. }
    )
}

/// Carries the rules along through a document action: where it renames a table or a column, the
/// rules about that are about the new id. Other actions change nothing, and take no memory.
///
/// Errors: out of memory; the rules are then as they were.
/// Memory: what all rules are about, once more. Cost: linear in that.
#[tactic(auto, using(crate::proofs::CarryLemmas::carried_parts, crate::proofs::CarryLemmas::others_stay))]
pub fn carry(alloc: Global, book: &mut RuleBook, action: &DocAction) -> Result<(), AllocError>
    ensures ok { OnOk result (book.new ≡ carried action.now book.old) }
    ensures err { OnErr result (book.new ≡ book.old) }
{
    if !is_rename(action) {
        return Ok(());
    }
    let made = all_moved(alloc, action, book.resources())?;
    book.put_resources(alloc, made)
}
