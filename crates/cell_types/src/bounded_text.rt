//! Texts that grow up to the bound of a text in a cell.

ghost use Rattle.std.specs.Prelude.{IfOk, ◌≡◌, ◌≤◌, ◌++◌, [], map, length, string_bytes, codes};
ghost use Rattle.std.specs.Fmt.{decimal, signed_decimal};
ghost use Rattle.cell_types.specs.TextBound.{Adds, text_bound};
ghost use Rattle.cell_types.specs.ValueText.{item_text, row_text, date_text, bool_text, comma_joined, after_commas, value_text};

use crate::value_text::error_name;
use crate::{CellItem, CellText, CellValue, Name};
use std::alloc::{AllocError, Global};
use std::marker::Model;

/// How many bytes a text in a cell has at most.
pub const MAX_TEXT_BYTES: usize = 65_536;

/// Why a text stopped growing.
#[derive(Clone, Copy)]
pub(crate) enum TextEnd {
    TooLong,
    NoMemory,
}

impl From<AllocError> for TextEnd {
    ghost use Rattle.std.specs.Prelude.{◌≡◌};
    ghost use Rattle.cell_types.specs.declared.bounded_text.TextEnd.{TextEnd};

    ghost from_gives = { λ fault end. end ≡ TextEnd.NoMemory };

    fn from(_fault: AllocError) -> TextEnd {
        TextEnd::NoMemory
    }
}

/// A text that is at most as long as a text in a cell may be.
#[derive(Drop)]
pub(crate) struct BoundedText {
    alloc: Global,
    text: String,
}

impl Model for BoundedText {
    ghost use Rattle.std.specs.Prelude.{List, ℕ, ◌≤◌, length, string_bytes};
    ghost use Rattle.cell_types.specs.TextBound.{text_bound};

    ghost Value = { List ℕ };

    ghost view = { λ t. string_bytes t.text };

    ghost invariant = { λ t. length (string_bytes t.text) ≤ text_bound };
}

impl BoundedText {
    pub fn new(alloc: Global) -> Self
        ensures { result ≡ [] }
    {
        BoundedText {
            alloc,
            text: String::new(alloc),
        }
    }

    /// The text, which is within the bound.
    pub fn into_text(self) -> Result<CellText, AllocError>
        ensures value { IfOk result (λ t. t ≡ self) }
        ensures bound { length self ≤ text_bound }
    {
        CellText::from_string(self.text)
    }

    /// Adds a piece; at an error the text may have any part of it.
    fn write(&mut self, piece: &str) -> Result<(), TextEnd>
        ensures { Adds self.old self.new piece.now result }
    {
        if piece.len() > MAX_TEXT_BYTES - self.text.len() {
            return Err(TextEnd::TooLong);
        }
        self.text.push_str(piece)?;
        Ok(())
    }

    fn write_int(&mut self, number: i64) -> Result<(), TextEnd>
        ensures { Adds self.old self.new (signed_decimal number) result }
    {
        let digits = format!(in self.alloc; "{number}")?;
        self.write(digits.as_str())
    }

    fn write_row_number(&mut self, row: u32) -> Result<(), TextEnd>
        ensures { Adds self.old self.new (decimal row) result }
    {
        let digits = format!(in self.alloc; "{row}")?;
        self.write(digits.as_str())
    }

    fn write_bool(&mut self, truth: bool) -> Result<(), TextEnd>
        ensures { Adds self.old self.new (bool_text truth) result }
    {
        self.write(if truth { "True" } else { "False" })
    }

    fn write_date(&mut self, seconds: i64) -> Result<(), TextEnd>
        ensures { Adds self.old self.new (date_text seconds) result }
    {
        self.write("d")?;
        self.write_int(seconds)
    }

    fn write_row(&mut self, table: &Name, row: u32) -> Result<(), TextEnd>
        ensures { Adds self.old self.new (row_text table.now row) result }
    {
        self.write(table.as_str())?;
        self.write("[")?;
        self.write_row_number(row)?;
        self.write("]")
    }

    fn write_item(&mut self, item: &CellItem) -> Result<(), TextEnd>
        ensures { Adds self.old self.new (item_text item.now) result }
    {
        match item {
            CellItem::Null => self.write("None"),
            CellItem::Int(number) => self.write_int(*number),
            CellItem::Bool(truth) => self.write_bool(*truth),
            CellItem::Text(text) => {
                self.write("'")?;
                self.write(text.as_str())?;
                self.write("'")
            }
            CellItem::Date(seconds) => self.write_date(*seconds),
            CellItem::Rec(row) => self.write_row(&row.table, row.row),
        }
    }

    /// Adds the text of a value.
    pub fn write_value(&mut self, value: &CellValue) -> Result<(), TextEnd>
        ensures { Adds self.old self.new (value_text value.now) result }
    {
        match value {
            CellValue::Null => self.write("None"),
            CellValue::Int(number) => self.write_int(*number),
            CellValue::Bool(truth) => self.write_bool(*truth),
            CellValue::Text(text) => self.write(text.as_str()),
            CellValue::Date(seconds) => self.write_date(*seconds),
            CellValue::Rec(row) => self.write_row(&row.table, row.row),
            CellValue::RecSet(set) => {
                self.write(set.table.as_str())?;
                self.write("[[")?;
                self.write_row_numbers(set.rows.as_slice())?;
                self.write("]]")
            }
            CellValue::List(items) => {
                self.write("[")?;
                self.write_items(items.as_slice())?;
                self.write("]")
            }
            CellValue::Err(kind) => self.write(error_name(*kind)),
            CellValue::Censored => self.write("Censored"),
        }
    }

    /// Adds the texts of items, with a comma and a space between them.
    fn write_items(&mut self, items: &[CellItem]) -> Result<(), TextEnd>
        ensures { Adds self.old self.new (comma_joined (map item_text items.now)) result }
    {
        let Some((first, rest)) = items.split_first() else {
            return Ok(());
        };
        self.write_item(first)?;
        self.write_further_items(rest)
    }

    fn write_further_items(&mut self, items: &[CellItem]) -> Result<(), TextEnd>
        ensures { Adds self.old self.new (after_commas (map item_text items.now)) result }
    {
        for item in items {
            self.write_further_item(item)?;
        }
        Ok(())
    }

    fn write_further_item(&mut self, item: &CellItem) -> Result<(), TextEnd>
        ensures { Adds self.old self.new (codes ", " ++ item_text item.now) result }
    {
        self.write(", ")?;
        self.write_item(item)
    }

    /// Adds row numbers, with a comma and a space between them.
    fn write_row_numbers(&mut self, rows: &[u32]) -> Result<(), TextEnd>
        ensures { Adds self.old self.new (comma_joined (map decimal rows.now)) result }
    {
        let Some((first, rest)) = rows.split_first() else {
            return Ok(());
        };
        self.write_row_number(*first)?;
        self.write_further_row_numbers(rest)
    }

    fn write_further_row_numbers(&mut self, rows: &[u32]) -> Result<(), TextEnd>
        ensures { Adds self.old self.new (after_commas (map decimal rows.now)) result }
    {
        for row in rows {
            self.write_further_row_number(*row)?;
        }
        Ok(())
    }

    fn write_further_row_number(&mut self, row: u32) -> Result<(), TextEnd>
        ensures { Adds self.old self.new (codes ", " ++ decimal row) result }
    {
        self.write(", ")?;
        self.write_row_number(row)
    }
}
