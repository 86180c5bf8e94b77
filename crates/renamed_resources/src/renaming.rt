//! The cells of resources once a table or a column has a new id.

ghost use Rattle.std.specs.Prelude.{◌≡◌, ◌++◌, map, IfOk, OnOk, codes, string_bytes, bytes_eq};
ghost use Rattle.std.specs.List.{list_any};
ghost use Rattle.renamed_resources.specs.NameLists.{behind_commas, joined};
ghost use Rattle.renamed_resources.specs.Renamed.{columns_renamed, if_short, list_renamed, moved_id, names_renamed, names_table, table_renamed};

use crate::name_lists::names_in;
use cell_types::{CellText, CellValue, Name, NameList, copy_of};
use doc_readers::is_short;
use std::alloc::{AllocError, Global};

// The id, or the new one where it is the old one.
fn moved_id<'a>(old: &Name, new: &'a Name, id: &'a Name) -> &'a Name
    ensures { result.now ≡ moved_id old.now new.now id.now }
{
    if id.as_str() == old.as_str() {
        return new;
    }
    id
}

fn is_listed(names: &[Name], id: &Name) -> bool
    ensures { result ≡ list_any (λ n. bytes_eq n id.now) names.now }
{
    names.iter().any(|name| name.as_str() == id.as_str())
}

// Writes a comma and a name.
fn write_further(text: &mut String, name: &Name) -> Result<(), AllocError>
    ensures { OnOk result
        (string_bytes text.new ≡ string_bytes text.old ++ codes "," ++ name.now) }
{
    text.push_str(",")?;
    text.push_str(name.as_str())?;
    Ok(())
}

// Writes names with commas before them, with the new id in the place of the old one.
fn write_others(text: &mut String, old: &Name, new: &Name, names: &[Name]) -> Result<(), AllocError>
    ensures { OnOk result (string_bytes text.new
        ≡ string_bytes text.old ++ behind_commas (map (moved_id old.now new.now) names.now)) }
{
    for name in names {
        write_further(text, moved_id(old, new, name))?;
    }
    Ok(())
}

// The names with commas between them, with the new id in the place of the old one.
fn joined(alloc: Global, old: &Name, new: &Name, names: &[Name]) -> Result<CellText, AllocError>
    ensures { IfOk result (λ t. t ≡ joined (map (moved_id old.now new.now) names.now)) }
{
    let Some((first, others)) = names.split_first() else {
        return Ok(CellText::empty());
    };
    let mut text = String::from_str(alloc, moved_id(old, new, first).as_str())?;
    write_others(&mut text, old, new, others)?;
    CellText::from_string(text)
}

// The text that was made where a cell may hold it, or else a copy of the other one.
fn if_short(alloc: Global, made: CellText, other: &str) -> Result<CellText, AllocError>
    ensures { IfOk result (λ t. t ≡ if_short made other.now) }
{
    if is_short(&made) {
        return Ok(made);
    }
    CellText::copy_of(alloc, other)
}

// A text that lists these names, with the new id in the place of the old one.
fn names_renamed(
    alloc: Global,
    old: &Name,
    new: &Name,
    text: &str,
    names: &[Name],
) -> Result<CellText, AllocError>
    ensures { IfOk result
        (λ t. t ≡ names_renamed old.now new.now text.now names.now) }
{
    if !is_listed(names, old) {
        return CellText::copy_of(alloc, text);
    }
    let made = joined(alloc, old, new, names)?;
    if_short(alloc, made, text)
}

// The same of a text that may list names.
fn list_renamed(
    alloc: Global,
    old: &Name,
    new: &Name,
    text: &str,
    names: &Option<NameList>,
) -> Result<CellText, AllocError>
    ensures { IfOk result
        (λ t. t ≡ list_renamed old.now new.now text.now names.now) }
{
    match names {
        Some(names) => names_renamed(alloc, old, new, text, names.as_slice()),
        None => CellText::copy_of(alloc, text),
    }
}

/// The cell of a resource's columns once one of them has a new id. A text that lists no names, and
/// what is no text, names no column.
///
/// Errors: out of memory.
pub fn columns_renamed(
    alloc: Global,
    old: &Name,
    new: &Name,
    cell: &CellValue,
) -> Result<CellValue, AllocError>
    ensures { IfOk result (λ v. v ≡ columns_renamed old.now new.now cell.now) }
{
    let CellValue::Text(text) = cell else {
        return copy_of(cell);
    };
    let names = names_in(alloc, text.as_str())?;
    let made = list_renamed(alloc, old, new, text.as_str(), &names)?;
    Ok(CellValue::Text(made))
}

/// The cell of a resource's table once a table has a new id.
///
/// Errors: out of memory.
pub fn table_renamed(old: &Name, new: &Name, cell: &CellValue) -> Result<CellValue, AllocError>
    ensures { IfOk result (λ v. v ≡ table_renamed old.now new.now cell.now) }
{
    match cell {
        CellValue::Text(text) if text.as_str() == old.as_str() => {
            Ok(CellValue::Text(new.clone()?.into_text()))
        }
        _ => copy_of(cell),
    }
}

/// Whether a cell of a resource's table names this one.
///
/// Memory: none.
pub fn names_table(table: &Name, cell: &CellValue) -> bool
    ensures { result ≡ names_table table.now cell.now }
{
    match cell {
        CellValue::Text(text) => text.as_str() == table.as_str(),
        _ => false,
    }
}
