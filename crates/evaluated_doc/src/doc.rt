//! A document with its formula cells evaluated.

ghost use Rattle.std.specs.Prelude.{true, ◌≡◌, ◌+◌, ◌≤◌, ◌↔◌, false, Err, None, Some, IfOk, OnOk, OnErr, MatchOption, map};
ghost use Rattle.std.specs.Option.{option_copied, option_map};
ghost use Rattle.doc_model.specs.Apply.{apply};
ghost use Rattle.doc_model.specs.DocumentLaws.{IsWhole};
ghost use Rattle.doc_model.specs.Readers.{cell_at};
ghost use Rattle.doc_model.specs.Valid.{valid};
ghost use Rattle.formula_eval.specs.Asked.{told_of};
ghost use Rattle.recalc.specs.Current.{IsCurrent, has_formulas};
ghost use Rattle.recalc.specs.Evaluated.{filled};
ghost use Rattle.recalc.specs.Kept.{IsEvaluated};
ghost use Rattle.recalc.specs.Lost.{lost};
ghost use Rattle.recalc.specs.MayLose.{is_record};
ghost use Rattle.recalc.specs.Seen.{value_told};
ghost use Rattle.affected_cells.specs.Bound.{bound};
ghost use Rattle.affected_values.specs.Carried.{moved_rows, moved_table};
ghost use Rattle.evaluated_doc.specs.Update.{is_update};
ghost use Rattle.evaluated_doc.specs.WayBack.{IsWayBack};
ghost use Rattle.evaluated_doc.specs.declared.doc.ChangeFault.TheVariants.{Invalid};

use crate::altering::{find_altered, refresh_altered};
use crate::going_back::go_back_to;
use crate::indexing::{enter_behind, gone_rows, leave_behind, take_indexes};
use crate::moving::{find_moved, moved_by, refresh_moved};
use crate::starting::{Start, start_in_levels, start_of};
use crate::touching::{Touched, refresh_touched};
use crate::trace::{Before, Trace};
use crate::updating::{find_affected, is_update, refresh_updated};
use affected_search::{narrow_cells, narrow_law};
use affected_values::{enter_indexes, left_over_law};
use cell_types::{CellValue, Name};
use doc_actions::is_valid;
use doc_model::laws::kept_law;
use doc_model::{ColDef, DocAction, DocReader, DocTables};
use formula_eval::{Reading, Steps};
use known_reads::KnownReads;
use recalc::laws::{may_lose_law, stays_plain_law};
use recalc::{
    ColumnIndex, KeptTable, brings_formula, cell_told, column_at, keep_lost, watched_cells,
};
use std::alloc::{AllocError, Global};
use std::marker::{Brand, Model};
use std::mem;
use std::sync::ledger::{Blank, Ledger};
use std::thread::Threads;

/// A document with its evaluated cells. It is seen as its tables.
///
/// Where no column has a formula, nothing is kept.
#[derive(Drop)]
pub struct Doc<D: DocTables> {
    alloc: Global,
    tables: D,
    kept: Option<Vec<KeptTable>>,
    reads: KnownReads,
    // Of some of the data columns by which formulas look rows up.
    indexes: Vec<ColumnIndex>,
}

impl<D: DocTables> Model for Doc<D> {
    ghost use Rattle.doc_model.specs.DocumentLaws.{IsWhole};
    ghost use Rattle.recalc.specs.Current.{IsCurrent};
    ghost use Rattle.recalc.specs.Evaluated.{sheet_of};
    ghost use Rattle.recalc.specs.Indexes.{AreIndexes};
    ghost use Rattle.std.specs.Option.{option_map};
    ghost use Rattle.known_reads.specs.Beside.{KnowsReads};

    ghost Value = { D };

    ghost view = { λ d. d.tables };

    ghost invariant = { λ d. IsWhole (D.document d.tables)
        × IsCurrent (D.document d.tables) (option_map (λ v. v.items) d.kept)
        × KnowsReads (D.document d.tables) d.reads
        × AreIndexes (sheet_of (D.document d.tables)) d.indexes.items };
}

/// Why a change was not made.
#[derive(Clone, Copy)]
pub enum ChangeFault {
    /// The action is not valid there.
    Invalid,
    /// Memory is wanting; the action is valid.
    NoMemory,
}

impl<D: DocTables<Back: Send> + Sync> Doc<D> {
    /// Evaluates the cells of a document, level by level in as many threads as serve, and records
    /// what they read by the same attempts. What comes of it is what one thread finds.
    ///
    /// Errors: out of memory.
    /// Memory: a value for each formula cell, what the graph takes of its reads, an index of each
    /// data column by which lookups are made, a stack as deep as the chains of cells, and what some
    /// thousand attempts found.
    pub fn start<T: Threads + Sync>(rt: &T, alloc: Global, tables: D) -> Result<Doc<D>, AllocError>
        requires { IsWhole (D.document tables) }
        ensures { IfOk result (λ doc. doc ≡ tables) }
    {
        let Start {
            kept,
            reads,
            indexes,
        } = start_in_levels::<T, D, Brand>(rt, alloc, &tables, Blank::new(1))?;
        Ok(Doc {
            alloc,
            tables,
            kept,
            reads,
            indexes,
        })
    }

    /// Evaluates all cells again. They are as they were.
    ///
    /// Errors: out of memory.
    /// Memory: as to start.
    pub fn refresh_all<T: Threads + Sync>(
        &mut self,
        rt: &T,
        alloc: Global,
    ) -> Result<(), AllocError>
        ensures { D.document self.new ≡ D.document self.old }
    {
        let Start {
            kept,
            reads,
            indexes,
        } = start_in_levels::<T, D, Brand>(rt, alloc, &self.tables, Blank::new(1))?;
        self.kept = kept;
        self.reads = reads;
        self.indexes = indexes;
        Ok(())
    }
}

impl<D: DocTables> Doc<D> {
    /// The tables with their base cells.
    ///
    /// Memory: none.
    pub fn tables(&self) -> &D
        ensures value { result.now ≡ self.now }
        ensures whole { IsWhole (D.document self.now) }
    {
        &self.tables
    }

    // Does a valid action on a document without formulas, and evaluates the whole document after
    // it, in a count of attempts.
    fn put_whole<L: Ledger>(
        &mut self,
        alloc: Global,
        action: &DocAction,
        steps: &mut Steps<L>,
    ) -> Result<Trace<D>, AllocError>
        requires valid { valid (D.document self.old) action.now ≡ true }
        requires plain { has_formulas (D.document self.old) ≡ false }
        ensures ok { OnOk result
            (D.document self.new ≡ apply (D.document self.old) action.now) }
        ensures cells { IfOk result (λ trace. trace.cells
            ≡ lost (D.document self.old) (D.document self.new) action.now) }
        ensures way { IfOk result
            (λ trace. IsWayBack D.fits D.undone trace (D.document self.new)) }
        ensures back { IfOk result
            (λ trace. D.undone trace.back (D.document self.new) ≡ D.document self.old) }
        ensures err { OnErr result (D.document self.new ≡ D.document self.old) }
        ensures whole { IsWhole (D.document self.new) }
        ensures spent { steps.new ≤ steps.old + bound (D.document self.old) action.now }
    {
        kept_law();
        stays_plain_law();
        may_lose_law();
        let stays_plain = !brings_formula(action);
        let mut cells = watched_cells(alloc, self, action, true)?;
        let back = self.tables.put(action)?;
        let Ok(start) = start_of(alloc, &self.tables, stays_plain, steps) else {
            self.tables.take_back(back);
            return Err(AllocError);
        };
        let kept = mem::replace(&mut self.kept, start.kept);
        let reads = mem::replace(&mut self.reads, start.reads);
        self.indexes = start.indexes;
        keep_lost(self, action, &mut cells);
        Ok(Trace {
            cells,
            back,
            before: Before::Whole { kept, reads },
            gone: None,
        })
    }

    // Does a valid update, and evaluates what it affects, in a count of attempts.
    fn put_update<L: Ledger>(
        &mut self,
        alloc: Global,
        action: &DocAction,
        steps: &mut Steps<L>,
    ) -> Result<Trace<D>, AllocError>
        requires valid { valid (D.document self.old) action.now ≡ true }
        requires update { is_update action.now ≡ true }
        ensures ok { OnOk result
            (D.document self.new ≡ apply (D.document self.old) action.now) }
        ensures cells { IfOk result (λ trace. trace.cells
            ≡ lost (D.document self.old) (D.document self.new) action.now) }
        ensures way { IfOk result
            (λ trace. IsWayBack D.fits D.undone trace (D.document self.new)) }
        ensures back { IfOk result
            (λ trace. D.undone trace.back (D.document self.new) ≡ D.document self.old) }
        ensures err { OnErr result (D.document self.new ≡ D.document self.old) }
        ensures whole { IsWhole (D.document self.new) }
        ensures spent { steps.new ≤ steps.old + bound (D.document self.old) action.now }
    {
        kept_law();
        narrow_law();
        left_over_law();
        if self.kept.is_none() {
            return self.put_whole(alloc, action, steps);
        }
        self.reads.put_owed()?;
        let mut indexes = take_indexes(alloc, &mut self.indexes);
        let known = &mut indexes;
        let affected = find_affected(alloc, &mut self.tables, &self.reads, known, action)?;
        let mut cells = narrow_cells(alloc, self, self.reads.graph(), &affected.found, action)?;
        let undo = self.tables.put(action)?;
        let mut indexes = enter_indexes(alloc, &self.tables, indexes, action);
        let Some(kept) = &mut self.kept else {
            unreachable!();
        };
        let tables = &self.tables;
        let reads = &mut self.reads;
        let known = &mut indexes;
        let named = affected.cells;
        let done = refresh_updated(alloc, tables, kept, known, reads, named, steps);
        let Ok(before) = done else {
            self.tables.take_back(undo);
            return Err(AllocError);
        };
        self.indexes = indexes;
        keep_lost(self, action, &mut cells);
        Ok(Trace {
            cells,
            back: undo,
            before,
            gone: gone_rows(alloc, action),
        })
    }

    // Does a valid action by which these rows of a table come or go where values are kept, and
    // evaluates what it affects, in a count of attempts of its own.
    fn put_rows<L: Ledger>(
        &mut self,
        alloc: Global,
        action: &DocAction,
        table: &Name,
        rows: &[u32],
        steps: &mut Steps<L>,
    ) -> Result<Trace<D>, AllocError>
        requires valid { valid (D.document self.old) action.now ≡ true }
        requires table { moved_table action.now ≡ Some table.now }
        requires rows { moved_rows action.now ≡ rows.now }
        ensures ok { OnOk result
            (D.document self.new ≡ apply (D.document self.old) action.now) }
        ensures cells { IfOk result (λ trace. trace.cells
            ≡ lost (D.document self.old) (D.document self.new) action.now) }
        ensures way { IfOk result
            (λ trace. IsWayBack D.fits D.undone trace (D.document self.new)) }
        ensures back { IfOk result
            (λ trace. D.undone trace.back (D.document self.new) ≡ D.document self.old) }
        ensures err { OnErr result (D.document self.new ≡ D.document self.old) }
        ensures whole { IsWhole (D.document self.new) }
        ensures spent { steps.new ≤ steps.old + bound (D.document self.old) action.now }
    {
        kept_law();
        narrow_law();
        left_over_law();
        if self.kept.is_none() {
            return self.put_whole(alloc, action, steps);
        }
        self.reads.put_owed()?;
        let mut indexes = take_indexes(alloc, &mut self.indexes);
        let tables = &mut self.tables;
        let known = &mut indexes;
        let moved = find_moved(alloc, tables, &self.reads, known, action, table)?;
        let mut cells = narrow_cells(alloc, self, self.reads.graph(), &moved.found, action)?;
        let undo = self.tables.put(action)?;
        let mut indexes = enter_indexes(alloc, &self.tables, indexes, action);
        let Some(kept) = &mut self.kept else {
            unreachable!();
        };
        let tables = &self.tables;
        let reads = &mut self.reads;
        let known = &mut indexes;
        let done = refresh_moved(alloc, tables, kept, known, reads, moved, table, rows, steps);
        let Ok(before) = done else {
            self.tables.take_back(undo);
            return Err(AllocError);
        };
        self.indexes = indexes;
        keep_lost(self, action, &mut cells);
        Ok(Trace {
            cells,
            back: undo,
            before,
            gone: gone_rows(alloc, action),
        })
    }

    // Does a valid action on no records, and evaluates what it affects and alters, in a count of
    // attempts.
    fn put_altered<L: Ledger>(
        &mut self,
        alloc: Global,
        action: &DocAction,
        steps: &mut Steps<L>,
    ) -> Result<Trace<D>, AllocError>
        requires valid { valid (D.document self.old) action.now ≡ true }
        requires schema { is_record action.now ≡ false }
        ensures ok { OnOk result
            (D.document self.new ≡ apply (D.document self.old) action.now) }
        ensures cells { IfOk result (λ trace. trace.cells
            ≡ lost (D.document self.old) (D.document self.new) action.now) }
        ensures way { IfOk result
            (λ trace. IsWayBack D.fits D.undone trace (D.document self.new)) }
        ensures back { IfOk result
            (λ trace. D.undone trace.back (D.document self.new) ≡ D.document self.old) }
        ensures err { OnErr result (D.document self.new ≡ D.document self.old) }
        ensures whole { IsWhole (D.document self.new) }
        ensures spent { steps.new ≤ steps.old + bound (D.document self.old) action.now }
    {
        kept_law();
        may_lose_law();
        if self.kept.is_none() {
            return self.put_whole(alloc, action, steps);
        }
        self.reads.put_owed()?;
        let altered = find_altered(alloc, &self.tables, &self.reads, action)?;
        let mut cells = watched_cells(alloc, self, action, false)?;
        let undo = self.tables.put(action)?;
        let Some(kept) = &mut self.kept else {
            unreachable!();
        };
        let tables = &self.tables;
        let reads = &mut self.reads;
        let known = &mut self.indexes;
        let done = refresh_altered(alloc, tables, kept, known, reads, altered, action, steps);
        let Ok(before) = done else {
            self.tables.take_back(undo);
            return Err(AllocError);
        };
        keep_lost(self, action, &mut cells);
        Ok(Trace {
            cells,
            back: undo,
            before,
            gone: None,
        })
    }

    /// Does an action that is valid, and evaluates what it may affect. It counts its attempts at
    /// formula cells: whatever it answers, they are at most as many as it takes to evaluate that.
    ///
    /// Errors: out of memory; the document is then as it was, and so are the values and what is
    /// known of what cells read.
    /// Memory: the store's, and a copy of the cells that may be lost: those of formula columns, and
    /// of data columns those that a record action writes or removes, or all of the table of a
    /// schema action. Where a column has a formula, a change takes that of what it affects and
    /// writes, what the graph of reads takes of that, what cells read that read something else, and
    /// an index of each data column by which these look rows up, where it has none; rows that come
    /// or go take a place for each formula cell of their table, a schema action a copy of all
    /// values. A schema action gives the indexes up. What ways back laid aside is put in first.
    /// Cost: where no column has a formula, a record action looks at its own table and rows alone.
    /// Else an update looks at each column, and at the rows that it affects and writes; rows that
    /// come or go look also at each row of their table, a schema action at each formula cell and
    /// each read that is recorded.
    pub fn put<L: Ledger>(
        &mut self,
        alloc: Global,
        action: &DocAction,
        steps: &mut Steps<L>,
    ) -> Result<Trace<D>, AllocError>
        requires { valid (D.document self.old) action.now ≡ true }
        ensures ok { OnOk result
            (D.document self.new ≡ apply (D.document self.old) action.now) }
        ensures cells { IfOk result (λ trace. trace.cells
            ≡ lost (D.document self.old) (D.document self.new) action.now) }
        ensures way { IfOk result
            (λ trace. IsWayBack D.fits D.undone trace (D.document self.new)) }
        ensures back { IfOk result
            (λ trace. D.undone trace.back (D.document self.new) ≡ D.document self.old) }
        ensures err { OnErr result (D.document self.new ≡ D.document self.old) }
        ensures whole { IsWhole (D.document self.new) }
        ensures spent { steps.new ≤ steps.old + bound (D.document self.old) action.now }
    {
        if is_update(action) {
            return self.put_update(alloc, action, steps);
        }
        match moved_by(action) {
            Some((table, rows)) => self.put_rows(alloc, action, table, rows, steps),
            None => self.put_altered(alloc, action, steps),
        }
    }

    /// Does a valid action, and evaluates what it may affect, in a count as `put` does.
    ///
    /// Errors: `Invalid`, exactly where the action is not valid, whatever memory there is; and out
    /// of memory. The document is then as it was.
    /// Memory and cost: as to put, and those of the test.
    pub fn change<L: Ledger>(
        &mut self,
        alloc: Global,
        action: &DocAction,
        steps: &mut Steps<L>,
    ) -> Result<Trace<D>, ChangeFault>
        ensures ok { OnOk result
            (D.document self.new ≡ apply (D.document self.old) action.now) }
        ensures cells { IfOk result (λ trace. trace.cells
            ≡ lost (D.document self.old) (D.document self.new) action.now) }
        ensures way { IfOk result
            (λ trace. IsWayBack D.fits D.undone trace (D.document self.new)) }
        ensures back { IfOk result
            (λ trace. D.undone trace.back (D.document self.new) ≡ D.document self.old) }
        ensures invalid { (result ≡ Err Invalid)
            ↔ (valid (D.document self.old) action.now ≡ false) }
        ensures err { OnErr result (D.document self.new ≡ D.document self.old) }
        ensures whole { IsWhole (D.document self.new) }
        ensures spent { steps.new ≤ steps.old + bound (D.document self.old) action.now }
    {
        if !is_valid(alloc, &self.tables, action) {
            return Err(ChangeFault::Invalid);
        }
        match self.put(alloc, action, steps) {
            Ok(trace) => Ok(trace),
            Err(_) => Err(ChangeFault::NoMemory),
        }
    }

    /// Evaluates anew the cells that reads and cells which may have changed affect: the touched
    /// cells, those that read one of these, or a touched read, and so on. They are as they were: no
    /// call leaves other values behind.
    ///
    /// Errors: out of memory.
    /// Memory and cost: those of the cells that are evaluated.
    pub fn refresh(&mut self, alloc: Global, touched: &Touched) -> Result<(), AllocError>
        ensures { D.document self.new ≡ D.document self.old }
    {
        self.reads.put_owed()?;
        let Some(kept) = &mut self.kept else {
            return Ok(());
        };
        let tables = &self.tables;
        let reads = &mut self.reads;
        let known = &mut self.indexes;
        let blank = Blank::new(1);
        refresh_touched::<D, Brand>(alloc, tables, kept, known, reads, touched, blank)
    }

    /// Goes back to the document before the change that left the present one. No cell is attempted:
    /// what cells read that read something else after the change is laid aside, and recorded again
    /// by the next change.
    ///
    /// Memory: none that is needed: an index is given up where it takes memory to keep it up.
    /// Cost: after an action on records, that of the cells which it evaluated and of its rows.
    pub fn go_back(&mut self, trace: Trace<D>)
        requires { IsWayBack D.fits D.undone trace (D.document self.old) }
        ensures { D.document self.new ≡ D.undone trace.back (D.document self.old) }
    {
        let Trace {
            cells,
            back: undo,
            before,
            gone,
        } = trace;
        drop(cells);
        let alloc = self.alloc;
        let left = leave_behind(alloc, &self.tables, &mut self.indexes, &gone);
        go_back_to(
            &mut self.tables,
            &mut self.kept,
            &mut self.reads,
            undo,
            before,
        );
        self.indexes = enter_behind(alloc, &self.tables, left, &gone);
    }
}

// The value of a cell of which this is told, where it is there.
fn value_told(told: Reading<'_>) -> Option<&CellValue>
    ensures { option_copied result ≡ value_told (told_of told.entry) }
{
    match told {
        Reading::Known(value) => Some(value),
        _ => None,
    }
}

// The value of a cell, over the tables and what is kept of them.
fn value_in<'a, D: DocTables>(
    tables: &'a D,
    kept: &'a [KeptTable],
    table: &Name,
    column: &Name,
    row: u32,
) -> Option<&'a CellValue>
    requires whole { IsWhole (D.document tables.now) }
    requires evaluated { IsEvaluated (D.document tables.now) kept.now }
    ensures { MatchOption result
        (cell_at (filled (D.document tables.now)) table.now column.now row ≡ None)
        (λ value. cell_at (filled (D.document tables.now)) table.now column.now row
        ≡ Some value.now) }
{
    value_told(cell_told(tables, kept, table, column, row))
}

// The values of the cells of a column at these rows, each looked up by itself.
fn each_value<'a, D: DocTables>(
    alloc: Global,
    tables: &'a D,
    kept: &'a [KeptTable],
    table: &Name,
    column: &Name,
    rows: &[u32],
) -> Result<Vec<Option<&'a CellValue>>, AllocError>
    requires whole { IsWhole (D.document tables.now) }
    requires evaluated { IsEvaluated (D.document tables.now) kept.now }
    ensures { IfOk result (λ values. map option_copied values.items
        ≡ map (cell_at (filled (D.document tables.now)) table.now column.now) rows.now) }
{
    let mut values = Vec::with_capacity(alloc, rows.len())?;
    for row in rows {
        values.push(value_in(tables, kept, table, column, *row))?;
    }
    Ok(values)
}

// The same, where a data column is looked up once.
fn values_in<'a, D: DocTables>(
    alloc: Global,
    tables: &'a D,
    kept: &'a [KeptTable],
    table: &Name,
    column: &Name,
    rows: &[u32],
) -> Result<Vec<Option<&'a CellValue>>, AllocError>
    requires whole { IsWhole (D.document tables.now) }
    requires evaluated { IsEvaluated (D.document tables.now) kept.now }
    ensures { IfOk result (λ values. map option_copied values.items
        ≡ map (cell_at (filled (D.document tables.now)) table.now column.now) rows.now) }
{
    match column_at(kept, table, column) {
        Some(held) if !held.is_formula => tables.cells(alloc, table, column, rows),
        _ => each_value(alloc, tables, kept, table, column, rows),
    }
}

/// The document, with the value of each formula cell in its place.
impl<D: DocTables> DocReader for Doc<D> {
    ghost use Rattle.recalc.specs.Evaluated.{filled};

    ghost document = { λ d. filled (D.document d) };

    fn table(&self, index: usize) -> Option<&Name> {
        self.tables.table(index)
    }

    fn column(&self, table: &Name, index: usize) -> Option<&ColDef> {
        self.tables.column(table, index)
    }

    fn rows(&self, table: &Name) -> Option<&[u32]> {
        self.tables.rows(table)
    }

    fn cell(&self, table: &Name, column: &Name, row: u32) -> Option<&CellValue> {
        match &self.kept {
            Some(kept) => value_in(&self.tables, kept, table, column, row),
            None => self.tables.cell(table, column, row),
        }
    }

    fn cells(
        &self,
        alloc: Global,
        table: &Name,
        column: &Name,
        rows: &[u32],
    ) -> Result<Vec<Option<&CellValue>>, AllocError> {
        match &self.kept {
            Some(kept) => values_in(alloc, &self.tables, kept, table, column, rows),
            None => self.tables.cells(alloc, table, column, rows),
        }
    }
}
