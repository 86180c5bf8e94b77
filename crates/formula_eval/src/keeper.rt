//! Where the notes of a run go.

ghost use Rattle.std.specs.Prelude.{◌≡◌, ◌++◌, ◌∷◌, [], List, map, OnOk};
ghost use Rattle.cell_types.specs.declared.cell.Read.TheVariants.{Cell, Key, Rows};
ghost use Rattle.formula_eval.specs.Asked.{read_note};
ghost use Rattle.formula_eval.specs.Reader.{cell_at};

use crate::reading::cell_id;
use crate::{Note, NoteList};
use cell_types::{KeyList, Name, Read};
use std::alloc::{AllocError, Global};

/// Takes what a run notes, one after the other.
pub trait NoteKeeper {
    ghost use Rattle.formula_eval.specs.declared.note.Note.{Note};

    /// All notes that it took.
    ghost noted: { Self → List Note };

    /// A read of which rows a table has.
    fn rows(&mut self, table: &Name) -> Result<(), AllocError>
        ensures { OnOk result
            (noted self.new ≡ noted self.old ++ Note.Read (Rows table.now) ∷ []) };

    /// All rows of a table, taken.
    fn all(&mut self, table: &Name) -> Result<(), AllocError>
        ensures { OnOk result (noted self.new ≡ noted self.old ++ Note.All table.now ∷ []) };

    /// A read of the keys of a column.
    fn key(&mut self, table: &Name, column: &Name) -> Result<(), AllocError>
        ensures { OnOk result
            (noted self.new ≡ noted self.old ++ Note.Read (Key table.now column.now) ∷ []) };

    /// A read of a cell.
    fn cell(&mut self, table: &Name, column: &Name, row: u32) -> Result<(), AllocError>
        ensures { OnOk result (noted self.new
            ≡ noted self.old ++ Note.Read (Cell (cell_at table.now column.now row)) ∷ []) };

    /// Reads of the cells of a column in these rows.
    fn cells(&mut self, table: &Name, column: &Name, rows: &[u32]) -> Result<(), AllocError>
        ensures { OnOk result (noted self.new
            ≡ noted self.old ++ map (read_note table.now column.now) rows.now) }
    {
        for row in rows {
            self.cell(table, column, *row)?;
        }
        Ok(())
    }

    /// A lookup with the values of its keys.
    fn met(&mut self, table: &Name, keys: KeyList) -> Result<(), AllocError>
        ensures { OnOk result (noted self.new ≡ noted self.old ++ Note.Met table.now keys ∷ []) };
}

impl NoteKeeper for NoteList {
    ghost noted = { λ l. l };

    fn rows(&mut self, table: &Name) -> Result<(), AllocError> {
        let table = table.clone()?;
        self.push(Note::Read(Read::Rows { table }))?;
        Ok(())
    }

    fn all(&mut self, table: &Name) -> Result<(), AllocError> {
        let table = table.clone()?;
        self.push(Note::All { table })?;
        Ok(())
    }

    fn key(&mut self, table: &Name, column: &Name) -> Result<(), AllocError> {
        let table = table.clone()?;
        let column = column.clone()?;
        self.push(Note::Read(Read::Key { table, column }))?;
        Ok(())
    }

    fn cell(&mut self, table: &Name, column: &Name, row: u32) -> Result<(), AllocError> {
        self.push(Note::Read(Read::Cell(cell_id(table, column, row)?)))?;
        Ok(())
    }

    fn met(&mut self, table: &Name, keys: KeyList) -> Result<(), AllocError> {
        match table.clone() {
            Ok(table) => {
                self.push(Note::Met { table, keys })?;
                Ok(())
            }
            Err(error) => {
                drop(keys);
                Err(error)
            }
        }
    }
}
