//! Columns, cells and reads by the numbers of names.

ghost use Rattle.std.specs.Cmp.{partial_equiv_from_equiv};
ghost use Rattle.dep_graph.specs.Numbers.{is_read};
ghost use Rattle.dep_graph.specs.NumberLaws.{read_equiv};

/// A column of a table.
#[derive(Clone, Copy, Debug, PartialEq, Eq, Hash)]
pub struct ColumnNumber {
    pub table: u32,
    pub column: u32,
}

/// A cell.
#[derive(Clone, Copy, Debug, PartialEq, Eq, Hash)]
pub struct CellNumber {
    pub column: ColumnNumber,
    pub row: u32,
}

/// A value that a lookup asks for in a key column, by its bucket.
#[derive(Clone, Copy, Debug, PartialEq, Eq, Hash)]
pub struct ValueNumber {
    pub column: ColumnNumber,
    pub bucket: u64,
}

/// What is read: a cell, every cell of a key column, which rows a table has, all these rows, or
/// which cells of a key column a value finds.
#[derive(Clone, Copy, Debug, Hash)]
pub enum ReadNumber {
    Cell(CellNumber),
    Key(ColumnNumber),
    Rows(u32),
    All(u32),
    Value(ValueNumber),
    Part(ValueNumber),
}

impl PartialEq for ReadNumber {
    ghost eq = { is_read };

    ghost laws = { partial_equiv_from_equiv read_equiv };

    fn eq(&self, other: &ReadNumber) -> bool {
        match (*self, *other) {
            (ReadNumber::Cell(left), ReadNumber::Cell(right)) => left == right,
            (ReadNumber::Key(left), ReadNumber::Key(right)) => left == right,
            (ReadNumber::Rows(left), ReadNumber::Rows(right)) => left == right,
            (ReadNumber::All(left), ReadNumber::All(right)) => left == right,
            (ReadNumber::Value(left), ReadNumber::Value(right)) => left == right,
            (ReadNumber::Part(left), ReadNumber::Part(right)) => left == right,
            _ => false,
        }
    }
}

impl Eq for ReadNumber {
    ghost laws = { read_equiv };
}

/// A read, and a column whose cells read it.
#[derive(Clone, Copy, Debug, PartialEq, Eq, Hash)]
pub struct Reading {
    pub read: ReadNumber,
    pub column: ColumnNumber,
}
