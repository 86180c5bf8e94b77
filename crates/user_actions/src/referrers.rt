//! The columns that refer to a table, in the order of ids.

ghost use Rattle.std.specs.Prelude.{◌≡◌, ◌≤◌, length, insert, IfOk, OnOk};
ghost use Rattle.doc_model.specs.ByIds.{precedes};
ghost use Rattle.doc_model.specs.DocumentLaws.{IsWhole};
ghost use Rattle.doc_readers.specs.Parts.{grid_at};
ghost use Rattle.user_actions.specs.References.{is_left_out, is_referrer, put_referrer, put_referrers, referrer, referrers, referrers_among, referrers_in, referrers_of, refers_to, renamed_id, stands_before};
ghost use Rattle.user_actions.specs.Steps.{table_ids};

use crate::table_readers::table_ids;
use cell_types::{ColType, Name};
use doc_model::{ColDef, DocTables};
use doc_readers::{is_metadata_id, is_schema_id};
use std::alloc::{AllocError, Global};

/// A column that refers to a table, with the id of its own table.
#[derive(Drop)]
pub struct Referrer {
    pub table: Name,
    pub column: ColDef,
}

fn refers_to(table: &Name, ty: &ColType) -> bool
    ensures { result ≡ refers_to table.now ty.now }
{
    match ty {
        ColType::Ref(named) | ColType::RefList(named) => named.as_str() == table.as_str(),
        _ => false,
    }
}

fn is_referrer(table: &Name, retypes: bool, column: &ColDef) -> bool
    ensures { result ≡ is_referrer table.now retypes column.now }
{
    refers_to(table, &column.info.ty) && (retypes || !column.info.is_formula)
}

fn precedes(left: &Name, right: &Name) -> bool
    ensures { result ≡ precedes left.now right.now }
{
    left < right
}

fn stands_before(left: &Referrer, right: &Referrer) -> bool
    ensures { result ≡ stands_before left.now right.now }
{
    precedes(&left.table, &right.table)
        || (left.table.as_str() == right.table.as_str()
            && precedes(&left.column.id, &right.column.id))
}

// The index of the first that one stands before.
fn index_of(known: &[Referrer], one: &Referrer) -> usize
    ensures within { result ≤ length known.now }
    ensures placed { insert known.now result one.now ≡ put_referrer one.now known.now }
{
    for (index, other) in known.iter().enumerate() {
        if stands_before(one, other) {
            return index;
        }
    }
    known.len()
}

fn put(known: &mut Vec<Referrer>, one: Referrer) -> Result<(), AllocError>
    ensures { OnOk result (known.new.items ≡ put_referrer one known.old.items) }
{
    let index = index_of(known, &one);
    known.insert(index, one)?;
    Ok(())
}

fn referrer_to(table: &Name, column: &ColDef) -> Result<Referrer, AllocError>
    ensures { IfOk result (λ k. k ≡ referrer table.now column.now) }
{
    Ok(Referrer {
        table: table.clone()?,
        column: column.clone()?,
    })
}

// Adds those of a table's columns that refer to another one, under an id.
fn add_columns<D: DocTables>(
    tables: &D,
    table: &Name,
    id: &Name,
    old: &Name,
    retypes: bool,
    found: &mut Vec<Referrer>,
) -> Result<(), AllocError>
    requires { IsWhole (D.document tables.now) }
    ensures { IfOk result
        (λ _. found.new.items
        ≡ put_referrers (referrers_among id.now (is_referrer old.now retypes)
        (grid_at (D.document tables.now) table.now).columns) found.old.items) }
{
    let mut index = 0;
    while let Some(column) = tables.column(table, index) {
        if is_referrer(old, retypes, column) {
            put(found, referrer_to(id, column)?)?;
        }
        index += 1;
    }
    Ok(())
}

// The id of a table once the old one has the new id.
fn renamed_id<'a>(old: &Name, new: &'a Name, id: &'a Name) -> &'a Name
    ensures { result.now ≡ renamed_id old.now new.now id.now }
{
    if id.as_str() == old.as_str() {
        return new;
    }
    id
}

fn is_left_out(retypes: bool, id: &Name) -> bool
    ensures { result ≡ is_left_out retypes id.now }
{
    if retypes {
        return is_metadata_id(id.as_str());
    }
    is_schema_id(id.as_str())
}

// Adds the columns of one table.
fn add_table<D: DocTables>(
    tables: &D,
    old: &Name,
    new: &Name,
    retypes: bool,
    id: &Name,
    found: &mut Vec<Referrer>,
) -> Result<(), AllocError>
    requires { IsWhole (D.document tables.now) }
    ensures { IfOk result
        (λ _. found.new.items
        ≡ put_referrers (referrers_in (D.document tables.now) old.now new.now retypes id.now)
        found.old.items) }
{
    if is_left_out(retypes, id) {
        return Ok(());
    }
    add_columns(tables, id, renamed_id(old, new, id), old, retypes, found)
}

/// The columns that refer to a table, by ids as they are once it has the new id: those whose types
/// change with it, or else those whose cells are cleared.
///
/// Errors: out of memory. Cost: a walk over all columns, and the square of those that are found.
pub(crate) fn referrers<D: DocTables>(
    alloc: Global,
    tables: &D,
    old: &Name,
    new: &Name,
    retypes: bool,
) -> Result<Vec<Referrer>, AllocError>
    requires { IsWhole (D.document tables.now) }
    ensures { IfOk result
        (λ v. v.items ≡ referrers (D.document tables.now) old.now new.now retypes) }
{
    let ids = table_ids(alloc, tables)?;
    let mut found = Vec::new(alloc);
    for id in &ids {
        add_table(tables, old, new, retypes, id, &mut found)?;
    }
    Ok(found)
}
