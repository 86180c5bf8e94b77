//! Cell values.

use crate::{CellText, Name, Same, Sequence};

/// Why a formula has no value.
#[derive(Clone, Copy, Debug, PartialEq, Eq)]
pub enum ErrKind {
    Circular,
    ZeroDivision,
    WrongType,
    Attribute,
    Key,
    Name,
    Overflow,
    Syntax,
}

/// A row of a table, which need not be there.
#[derive(Clone, Debug, Drop)]
pub struct RowRef {
    pub table: Name,
    pub row: u32,
}

/// Rows of one table, in order.
#[derive(Clone, Debug, Drop)]
pub struct RowSet {
    pub table: Name,
    pub rows: RowList,
}

/// What may stand in a list value: any value but a list, a set of rows, an error or a censored one.
///
/// Units: a date is in seconds.
#[derive(Clone, Debug, Drop)]
pub enum CellItem {
    Null,
    Int(i64),
    Bool(bool),
    Text(CellText),
    Date(i64),
    Rec(RowRef),
}

/// What a cell holds or shows.
///
/// Units: a date is in seconds.
#[derive(Clone, Debug, Drop)]
pub enum CellValue {
    Null,
    Int(i64),
    Bool(bool),
    Text(CellText),
    Date(i64),
    Rec(RowRef),
    RecSet(RowSet),
    List(CellList),
    Err(ErrKind),
    Censored,
}

/// The items of a list value, in order.
pub type CellList = Sequence<CellItem>;

/// Values in order.
pub type ValueList = Sequence<CellValue>;

/// Row ids in order.
pub type RowList = Sequence<u32>;

impl From<CellItem> for CellValue {
    ghost use Rattle.std.specs.Prelude.{◌≡◌};
    ghost use Rattle.cell_types.specs.Item.{value_of_item};

    ghost from_gives = { λ item value. value ≡ value_of_item item };

    fn from(item: CellItem) -> CellValue {
        match item {
            CellItem::Null => CellValue::Null,
            CellItem::Int(number) => CellValue::Int(number),
            CellItem::Bool(truth) => CellValue::Bool(truth),
            CellItem::Text(text) => CellValue::Text(text),
            CellItem::Date(seconds) => CellValue::Date(seconds),
            CellItem::Rec(row) => CellValue::Rec(row),
        }
    }
}

impl Same for RowRef {
    fn same_as(&self, other: &RowRef) -> bool {
        self.row == other.row && self.table.same_as(&other.table)
    }
}

impl Same for RowSet {
    fn same_as(&self, other: &RowSet) -> bool {
        self.table.same_as(&other.table) && self.rows.same_as(&other.rows)
    }
}

impl Same for CellItem {
    fn same_as(&self, other: &CellItem) -> bool {
        match (self, other) {
            (CellItem::Null, CellItem::Null) => true,
            (CellItem::Int(left), CellItem::Int(right)) => *left == *right,
            (CellItem::Bool(left), CellItem::Bool(right)) => *left == *right,
            (CellItem::Text(left), CellItem::Text(right)) => left.same_as(right),
            (CellItem::Date(left), CellItem::Date(right)) => *left == *right,
            (CellItem::Rec(left), CellItem::Rec(right)) => left.same_as(right),
            _ => false,
        }
    }
}

impl Same for CellValue {
    fn same_as(&self, other: &CellValue) -> bool {
        match (self, other) {
            (CellValue::Null, CellValue::Null) => true,
            (CellValue::Int(left), CellValue::Int(right)) => *left == *right,
            (CellValue::Bool(left), CellValue::Bool(right)) => *left == *right,
            (CellValue::Text(left), CellValue::Text(right)) => left.same_as(right),
            (CellValue::Date(left), CellValue::Date(right)) => *left == *right,
            (CellValue::Rec(left), CellValue::Rec(right)) => left.same_as(right),
            (CellValue::RecSet(left), CellValue::RecSet(right)) => left.same_as(right),
            (CellValue::List(left), CellValue::List(right)) => left.same_as(right),
            (CellValue::Err(left), CellValue::Err(right)) => *left == *right,
            (CellValue::Censored, CellValue::Censored) => true,
            _ => false,
        }
    }
}
