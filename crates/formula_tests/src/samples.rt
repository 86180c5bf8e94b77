//! The table of the tests on values, written as parts that can be copied.

use crate::memory::{Column, Memory, Slot};
use cell_types::{CellItem, CellList, CellText, CellValue, ColType, ErrKind, Name};
use std::alloc::{AllocError, Global};

/// What a cell holds; `Letters` is a text and `Nulls` a list of that many.
#[derive(Clone, Copy)]
pub enum Held {
    Null,
    Int(i64),
    Bool(bool),
    Text(&'static str),
    Date(i64),
    Numbers(&'static [i64]),
    Texts(&'static [&'static str]),
    Letters(usize),
    Nulls(usize),
    Error,
    Circular,
    Censored,
    Needed,
}

/// What a column is of; references are to P.
#[derive(Clone, Copy)]
pub enum Kind {
    Any,
    Int,
    Ref,
    RefList,
}

/// The name of a text that has the length of one.
pub fn name(alloc: Global, text: &str) -> Result<Name, AllocError> {
    Name::try_new(CellText::copy_of(alloc, text)?).ok_or(AllocError)
}

fn type_of(alloc: Global, kind: Kind) -> Result<ColType, AllocError> {
    match kind {
        Kind::Any => Ok(ColType::Any),
        Kind::Int => Ok(ColType::Int),
        Kind::Ref => Ok(ColType::Ref(name(alloc, "P")?)),
        Kind::RefList => Ok(ColType::RefList(name(alloc, "P")?)),
    }
}

fn numbers(alloc: Global, numbers: &[i64]) -> Result<CellValue, AllocError> {
    let mut items = CellList::new(alloc);
    for number in numbers {
        items.push(CellItem::Int(*number))?;
    }
    Ok(CellValue::List(items))
}

fn texts(alloc: Global, texts: &[&str]) -> Result<CellValue, AllocError> {
    let mut items = CellList::new(alloc);
    for text in texts {
        items.push(CellItem::Text(CellText::copy_of(alloc, text)?))?;
    }
    Ok(CellValue::List(items))
}

fn nulls(alloc: Global, count: usize) -> Result<CellValue, AllocError> {
    let mut items = CellList::new(alloc);
    for _ in 0..count {
        items.push(CellItem::Null)?;
    }
    Ok(CellValue::List(items))
}

fn letters(alloc: Global, count: usize) -> Result<CellValue, AllocError> {
    let mut text = String::new(alloc);
    for _ in 0..count {
        text.push('a')?;
    }
    Ok(CellValue::Text(CellText::from_string(text)?))
}

fn slot(alloc: Global, held: Held) -> Result<Slot, AllocError> {
    match held {
        Held::Needed => Ok(Slot::Needed),
        _ => Ok(Slot::Known(value(alloc, held)?)),
    }
}

fn value(alloc: Global, held: Held) -> Result<CellValue, AllocError> {
    match held {
        Held::Null | Held::Needed => Ok(CellValue::Null),
        Held::Int(number) => Ok(CellValue::Int(number)),
        Held::Bool(truth) => Ok(CellValue::Bool(truth)),
        Held::Text(text) => Ok(CellValue::Text(CellText::copy_of(alloc, text)?)),
        Held::Date(seconds) => Ok(CellValue::Date(seconds)),
        Held::Numbers(list) => numbers(alloc, list),
        Held::Texts(list) => texts(alloc, list),
        Held::Letters(count) => letters(alloc, count),
        Held::Nulls(count) => nulls(alloc, count),
        Held::Error => Ok(CellValue::Err(ErrKind::ZeroDivision)),
        Held::Circular => Ok(CellValue::Err(ErrKind::Circular)),
        Held::Censored => Ok(CellValue::Censored),
    }
}

/// A column of table P: its id, its type, and what its three cells hold.
pub type ColumnSample = (&'static str, Kind, Held, Held, Held);

fn column_of(alloc: Global, sample: &ColumnSample) -> Result<Column, AllocError> {
    let first = slot(alloc, sample.2)?;
    let second = slot(alloc, sample.3)?;
    let third = slot(alloc, sample.4)?;
    Ok(Column {
        table: name(alloc, "P")?,
        id: name(alloc, sample.0)?,
        ty: type_of(alloc, sample.1)?,
        first,
        second,
        third,
    })
}

/// The table of these columns.
pub fn memory_of(alloc: Global, samples: &[ColumnSample]) -> Result<Memory, AllocError> {
    let mut columns = Vec::new(alloc);
    for sample in samples {
        columns.push(column_of(alloc, sample)?)?;
    }
    Ok(Memory { columns })
}
