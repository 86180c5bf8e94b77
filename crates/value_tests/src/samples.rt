//! Values and types of the tables, written as parts that can be copied, and the texts that show
//! values there.

use cell_types::{
    CellItem, CellList, CellText, CellValue, ColType, ErrKind, Name, RowList, RowRef, RowSet,
    text_of,
};
use std::alloc::{AllocError, Global};

/// A value that may stand in a list; `Letters` is a text of that many letters.
#[derive(Clone, Copy)]
pub enum Part {
    Null,
    Int(i64),
    Bool(bool),
    Date(i64),
    Text(&'static str),
    Letters(usize),
    Rec(&'static str, u32),
}

/// A value of any kind; `Nulls` is a list of that many items.
#[derive(Clone, Copy)]
pub enum Sample {
    One(Part),
    List(&'static [Part]),
    Nulls(usize),
    RecSet(&'static str, &'static [u32]),
    Err,
    Censored,
}

/// The name of a text that has the length of one.
pub fn name(alloc: Global, text: &str) -> Result<Name, AllocError> {
    Name::try_new(CellText::copy_of(alloc, text)?).ok_or(AllocError)
}

fn letters(alloc: Global, count: usize) -> Result<CellText, AllocError> {
    let mut text = String::new(alloc);
    for _ in 0..count {
        text.push('a')?;
    }
    CellText::from_string(text)
}

fn record(alloc: Global, table: &str, row: u32) -> Result<CellItem, AllocError> {
    let table = name(alloc, table)?;
    Ok(CellItem::Rec(RowRef { table, row }))
}

fn item_of(alloc: Global, part: Part) -> Result<CellItem, AllocError> {
    match part {
        Part::Null => Ok(CellItem::Null),
        Part::Int(number) => Ok(CellItem::Int(number)),
        Part::Bool(truth) => Ok(CellItem::Bool(truth)),
        Part::Date(seconds) => Ok(CellItem::Date(seconds)),
        Part::Text(text) => Ok(CellItem::Text(CellText::copy_of(alloc, text)?)),
        Part::Letters(count) => Ok(CellItem::Text(letters(alloc, count)?)),
        Part::Rec(table, row) => record(alloc, table, row),
    }
}

fn list_of(alloc: Global, parts: &[Part]) -> Result<CellValue, AllocError> {
    let mut items = CellList::new(alloc);
    for part in parts {
        items.push(item_of(alloc, *part)?)?;
    }
    Ok(CellValue::List(items))
}

fn nulls(alloc: Global, count: usize) -> Result<CellValue, AllocError> {
    let mut items = CellList::new(alloc);
    for _ in 0..count {
        items.push(CellItem::Null)?;
    }
    Ok(CellValue::List(items))
}

fn records(alloc: Global, table: &str, rows: &[u32]) -> Result<CellValue, AllocError> {
    let rows = RowList::from(Vec::from_slice(alloc, rows)?);
    let table = name(alloc, table)?;
    Ok(CellValue::RecSet(RowSet { table, rows }))
}

/// The value that a sample stands for.
pub fn value_of(alloc: Global, sample: Sample) -> Result<CellValue, AllocError> {
    match sample {
        Sample::One(part) => Ok(CellValue::from(item_of(alloc, part)?)),
        Sample::List(parts) => list_of(alloc, parts),
        Sample::Nulls(count) => nulls(alloc, count),
        Sample::RecSet(table, rows) => records(alloc, table, rows),
        Sample::Err => Ok(CellValue::Err(ErrKind::WrongType)),
        Sample::Censored => Ok(CellValue::Censored),
    }
}

/// The types of the columns of the table.
#[derive(Clone, Copy)]
pub enum Kind {
    Any,
    Text,
    Int,
    Bool,
    Date,
    RefT,
    RefListT,
}

/// The type that a kind stands for.
pub fn type_of(alloc: Global, kind: Kind) -> Result<ColType, AllocError> {
    match kind {
        Kind::Any => Ok(ColType::Any),
        Kind::Text => Ok(ColType::Text),
        Kind::Int => Ok(ColType::Int),
        Kind::Bool => Ok(ColType::Bool),
        Kind::Date => Ok(ColType::Date),
        Kind::RefT => Ok(ColType::Ref(name(alloc, "T")?)),
        Kind::RefListT => Ok(ColType::RefList(name(alloc, "T")?)),
    }
}

// The text between quotes.
fn quoted(alloc: Global, text: &str) -> Result<String, AllocError> {
    format!(in alloc; "'{text}'")
}

/// The value's text; `long` where it has none.
pub fn text(alloc: Global, value: &CellValue) -> Result<String, AllocError> {
    match text_of(alloc, value)? {
        Some(text) => String::from_str(alloc, text.as_str()),
        None => String::from_str(alloc, "long"),
    }
}

/// The value's text, between quotes where the value is a text.
pub fn shown(alloc: Global, value: &CellValue) -> Result<String, AllocError> {
    match value {
        CellValue::Text(text) => quoted(alloc, text.as_str()),
        _ => text(alloc, value),
    }
}

/// Whether the text was made, and is the wanted one.
pub fn is_text(text: &Result<String, AllocError>, want: &str) -> bool {
    match text {
        Ok(text) => text.as_str() == want,
        Err(_) => false,
    }
}
