//! Notes of which those of cells of one column, one after the other, stand together.

ghost use Rattle.std.specs.Prelude.{◌≡◌, ◌++◌, ◌∷◌, [], ℕ, true, IfOk, OnOk};
ghost use Rattle.cell_types.specs.declared.cell.Read.TheVariants.{Cell};
ghost use Rattle.formula_eval.specs.declared.note.Note.{Note};
ghost use Rattle.formula_eval.specs.Reader.{cell_at};
ghost use Rattle.dep_graph.specs.Runs.{notes_after, notes_in};

use cell_types::{CellId, KeyList, Name, Read, Same};
use formula_eval::{Note, NoteKeeper};
use std::alloc::{AllocError, Global};
use std::marker::Model;

/// A note; where it is a read of a cell, the rows of the cells of its column that are read next.
#[derive(Drop)]
pub struct NoteRun {
    pub note: Note,
    pub more: Vec<u32>,
}

/// What a run notes, seen as its notes. The names of a column are copied once for cells of it that
/// are read one after the other.
#[derive(Drop)]
pub struct NoteRuns {
    alloc: Global,
    runs: Vec<NoteRun>,
}

impl Model for NoteRuns {
    ghost use Rattle.std.specs.Prelude.{List};
    ghost use Rattle.formula_eval.specs.declared.note.Note.{Note};
    ghost use Rattle.dep_graph.specs.Runs.{notes_in};

    ghost Value = { List Note };

    ghost view = { λ n. notes_in n.runs.items };
}

impl NoteRuns {
    /// No note so far.
    ///
    /// Memory: none.
    pub fn new(alloc: Global) -> Self
        ensures { result ≡ [] }
    {
        NoteRuns {
            alloc,
            runs: Vec::new(alloc),
        }
    }

    /// The notes.
    pub fn as_slice(&self) -> &[NoteRun]
        ensures { notes_in result.now ≡ self.now }
    {
        self.runs.as_slice()
    }

    fn push(&mut self, note: Note) -> Result<(), AllocError>
        ensures { OnOk result (self.new ≡ self.old ++ note ∷ []) }
    {
        let more = Vec::new(self.alloc);
        self.runs.push(NoteRun { note, more })?;
        Ok(())
    }

    fn push_cell(&mut self, table: &Name, column: &Name, row: u32) -> Result<(), AllocError>
        ensures { OnOk result (self.new
            ≡ self.old ++ Note.Read (Cell (cell_at table.now column.now row)) ∷ []) }
    {
        self.push(read_of(table, column, row)?)
    }
}

// The note of a read of a cell.
fn read_of(table: &Name, column: &Name, row: u32) -> Result<Note, AllocError>
    ensures { IfOk result (λ n. n ≡ Note.Read (Cell (cell_at table.now column.now row))) }
{
    let table = table.clone()?;
    let column = column.clone()?;
    Ok(Note::Read(Read::Cell(CellId { table, column, row })))
}

// Whether the note is a read of a cell of the column.
fn is_of(note: &Note, table: &Name, column: &Name) -> bool
    ensures { result ≡ true → (r : ℕ) → notes_after note.now (r ∷ [])
        ≡ Note.Read (Cell (cell_at table.now column.now r)) ∷ [] }
{
    match note {
        Note::Read(Read::Cell(cell)) => cell.column.same_as(column) && cell.table.same_as(table),
        _ => false,
    }
}

// Adds a row after those that follow a note.
fn push_row(run: &mut NoteRun, row: u32) -> Result<(), AllocError>
    ensures { OnOk result ((run.new.note ≡ run.old.note)
        × (run.new.more.items ≡ run.old.more.items ++ row ∷ [])) }
{
    run.more.push(row)?;
    Ok(())
}

impl NoteKeeper for NoteRuns {
    ghost noted = { λ n. n };

    fn rows(&mut self, table: &Name) -> Result<(), AllocError> {
        let table = table.clone()?;
        self.push(Note::Read(Read::Rows { table }))
    }

    fn all(&mut self, table: &Name) -> Result<(), AllocError> {
        let table = table.clone()?;
        self.push(Note::All { table })
    }

    fn key(&mut self, table: &Name, column: &Name) -> Result<(), AllocError> {
        let table = table.clone()?;
        let column = column.clone()?;
        self.push(Note::Read(Read::Key { table, column }))
    }

    fn cell(&mut self, table: &Name, column: &Name, row: u32) -> Result<(), AllocError> {
        if let Some(run) = self.runs.last_mut() {
            if is_of(&run.note, table, column) {
                return push_row(run, row);
            }
        }
        self.push_cell(table, column, row)
    }

    fn cells(&mut self, table: &Name, column: &Name, rows: &[u32]) -> Result<(), AllocError> {
        let Some((first, others)) = rows.split_first() else {
            return Ok(());
        };
        let more = Vec::from_slice(self.alloc, others)?;
        let note = read_of(table, column, *first)?;
        self.runs.push(NoteRun { note, more })?;
        Ok(())
    }

    fn met(&mut self, table: &Name, keys: KeyList) -> Result<(), AllocError> {
        match table.clone() {
            Ok(table) => self.push(Note::Met { table, keys }),
            Err(error) => {
                drop(keys);
                Err(error)
            }
        }
    }
}
