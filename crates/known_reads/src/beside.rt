//! A graph of reads that is kept beside the values of a document.

ghost use Rattle.std.specs.Prelude.{◌≡◌, ◌≤◌, ◌+◌, ◌||◌, [], ◌∷◌, true, None, length, OnErr, OnOk};
ghost use Rattle.std.specs.Option.{is_some};
ghost use Rattle.cell_types.specs.declared.cell.CellId.{CellId};
ghost use Rattle.dep_graph.specs.Graph.{IsKept};
ghost use Rattle.dep_graph.specs.Sources.{cell_in};
ghost use Rattle.doc_model.specs.Document.{Document};
ghost use Rattle.doc_model.specs.DocumentLaws.{IsWhole};
ghost use Rattle.recalc.specs.Evaluated.{formula_at, sheet_of};
ghost use Rattle.recalc.specs.Indexes.{AreIndexes};
ghost use Rattle.recalc.specs.Kept.{IsEvaluated};
ghost use Rattle.recalc.specs.Sheet.{Sheet};
ghost use Rattle.recalc.specs.Stack.{on};
ghost use Rattle.affected_cells.specs.Noted.{notes};
ghost use Rattle.affected_search.specs.ExactNotes.{HasNoReads, HasNotes};
ghost use Rattle.known_reads.specs.Beside.{KnowsExact, KnowsOthers, KnowsReads, is_stale, were};
ghost use Rattle.known_reads.specs.Known.{IsRead, KeepsReads};
ghost use Rattle.known_reads.specs.Recorded.{IsNotedOf, KnowsBut, KnowsButFormulas};
ghost use Rattle.known_reads.specs.Watched.{IsGoneNoted, IsWatched};

use crate::laid::{LaidReads, ReadsBefore, turn_over};
use crate::putting_back::put_all_back;
use crate::recording::record_cells;
use affected_values::is_formula_cell;
use cell_types::CellId;
use dep_graph::{DepGraph, NoteRuns, WereReads};
use doc_model::DocTables;
use formula_eval::Steps;
use recalc::{ColumnIndex, KeptTable, cell_id};
use std::alloc::{AllocError, Global};
use std::marker::Model;
use std::mem;
use std::sync::ledger::Ledger;

/// What formula cells read, all of it. What a way back of changes must restore is laid aside by it,
/// without memory, and recorded again before the next change.
///
/// While cells are evaluated, some are stale: what they read is recorded once all values are known;
/// and of each that comes to read something else it is noted what it read.
#[derive(Drop)]
pub struct KnownReads {
    graph: DepGraph,
    stale: Vec<CellId>,
    log: Vec<WereReads>,
    owed: LaidReads,
}

impl Model for KnownReads {
    ghost use Rattle.known_reads.specs.Beside.{Beside};

    ghost Value = { Beside };

    ghost view = { λ k. record {
      graph = k.graph;
      stale = k.stale.items;
      log = k.log.items;
      owed = k.owed;
    } };
}

impl KnownReads {
    /// No cell reads anything.
    ///
    /// Memory: none.
    pub fn new(alloc: Global) -> Self
        ensures none { HasNoReads result.graph }
        ensures stale { result.stale ≡ [] }
        ensures owed { result.owed ≡ [] }
    {
        KnownReads {
            graph: DepGraph::new(alloc),
            stale: Vec::new(alloc),
            log: Vec::new(alloc),
            owed: LaidReads::none(),
        }
    }

    /// What is recorded: once nothing is laid aside, what each cell reads, and the values by which
    /// it looks rows up, and nothing else.
    ///
    /// Memory: none.
    pub fn graph(&self) -> &DepGraph
        ensures { result.now ≡ self.now.graph }
    {
        &self.graph
    }

    /// Records again what ways back laid aside.
    ///
    /// Errors: out of memory; what is not recorded yet is still laid aside.
    /// Memory and cost: what the graph takes of it; none where nothing was laid aside.
    pub fn put_owed(&mut self) -> Result<(), AllocError>
        ensures known { (s : Document) → KnowsReads s self.old → KnowsReads s self.new }
        ensures exact { OnOk result
            ((s : Document) → KnowsReads s self.old → KnowsExact s self.new) }
    {
        let mut turned = LaidReads::none();
        turn_over(&mut self.owed, &mut turned);
        let done = put_all_back(&mut self.graph, &mut turned);
        turn_over(&mut turned, &mut self.owed);
        done
    }

    /// Lays aside what a way back must restore.
    ///
    /// Memory: none.
    pub fn lay(&mut self, before: ReadsBefore)
        ensures graph { self.new.graph ≡ self.old.graph }
        ensures stale { self.new.stale ≡ self.old.stale }
        ensures owed { self.new.owed ≡ before.were.items ∷ self.old.owed }
    {
        self.owed.lay(before);
    }

    /// Begins to note what cells read that come to read something else.
    ///
    /// Memory: none.
    pub(crate) fn watch(&mut self, alloc: Global)
        ensures graph { self.new.graph ≡ self.old.graph }
        ensures stale { self.new.stale ≡ self.old.stale }
        ensures log { self.new.log ≡ [] }
        ensures owed { self.new.owed ≡ self.old.owed }
    {
        self.log = Vec::new(alloc);
    }

    /// Hands out what was noted.
    ///
    /// Memory: none.
    pub(crate) fn take_before(&mut self, alloc: Global, room: Box<LaidReads>) -> ReadsBefore
        ensures graph { self.new.graph ≡ self.old.graph }
        ensures stale { self.new.stale ≡ self.old.stale }
        ensures owed { self.new.owed ≡ self.old.owed }
        ensures were { result.were.items ≡ self.old.log }
    {
        let were = mem::replace(&mut self.log, Vec::new(alloc));
        ReadsBefore { were, room }
    }

    /// Lays aside what was noted, where cells could not be evaluated.
    ///
    /// Memory: none.
    pub(crate) fn lay_noted(&mut self, alloc: Global, room: Box<LaidReads>)
        ensures graph { self.new.graph ≡ self.old.graph }
        ensures stale { self.new.stale ≡ [] }
        ensures owed { self.new.owed ≡ self.old.log ∷ self.old.owed }
    {
        let were = mem::replace(&mut self.log, Vec::new(alloc));
        self.owed.lay(ReadsBefore { were, room });
        self.stale = Vec::new(alloc);
    }

    /// Records what the stale cells read, of an evaluated document. Makes the indexes of the data
    /// columns by which these look rows up, where they have none.
    ///
    /// Errors: out of memory; the indexes are then to be given up.
    /// Memory: notes, what the graph takes of them, and the indexes.
    /// Cost: one attempt a stale cell, and the making of the indexes.
    pub(crate) fn record_stale<D: DocTables, L: Ledger>(
        &mut self,
        alloc: Global,
        tables: &D,
        kept: &[KeptTable],
        indexes: &mut Vec<ColumnIndex>,
        steps: &mut Steps<L>,
    ) -> Result<(), AllocError>
        requires whole { IsWhole (D.document tables.now) }
        requires indexed { AreIndexes (sheet_of (D.document tables.now)) indexes.old.items }
        requires evaluated { IsEvaluated (D.document tables.now) kept.now }
        requires others { KnowsOthers (D.document tables.now) self.old }
        ensures reads { OnOk result (HasNotes self.new.graph (sheet_of (D.document tables.now))) }
        ensures stale { self.new.stale ≡ [] }
        ensures owed { self.new.owed ≡ self.old.owed }
        ensures indexed { OnOk result
            (AreIndexes (sheet_of (D.document tables.now)) indexes.new.items) }
        ensures steps { steps.new ≤ steps.old + length self.old.stale }
        ensures watched { ((c : CellId) → is_stale self.old c ≡ true
            → is_some (were self.old.log c) ≡ true) → IsWatched self.old self.new }
    {
        let cells = mem::replace(&mut self.stale, Vec::new(alloc));
        let graph = &mut self.graph;
        let stale = cells.as_slice();
        record_cells(alloc, tables, kept, indexes, graph, stale, steps)
    }

    /// Notes a cell as stale, and what it read.
    ///
    /// Errors: out of memory; it is not stale then.
    pub(crate) fn add_stale(&mut self, cell: &CellId) -> Result<(), AllocError>
        ensures graph { self.new.graph ≡ self.old.graph }
        ensures stale { OnOk result ((c : CellId)
            → (is_stale self.old c || on (cell.now ∷ []) c) ≡ true → is_stale self.new c ≡ true) }
        ensures left { OnErr result (self.new.stale ≡ self.old.stale) }
        ensures list { length self.new.stale ≤ length self.old.stale + 1 }
        ensures watched { IsWatched self.old self.new }
    {
        let copy = cell_id(&cell.table, &cell.column, cell.row)?;
        self.stale.reserve(1)?;
        self.graph.note(cell, &mut self.log)?;
        self.stale.push_reserved(copy);
        Ok(())
    }

    /// Records what the run that gave a cell its value noted. Where that is something else than
    /// before, it is noted what the cell read.
    ///
    /// Errors: out of memory; the cell then reads what it read.
    /// Memory: what the graph takes, and what a cell read that reads something else.
    pub(crate) fn keep_notes(&mut self, cell: &CellId, given: &NoteRuns) -> Result<(), AllocError>
        ensures noted { OnOk result ((s : Sheet) → notes s cell.now ≡ given.now
            → IsNotedOf self.old self.new s cell.now) }
        ensures left { OnErr result (IsKept self.old.graph self.new.graph) }
        ensures list { self.new.stale ≡ self.old.stale }
        ensures watched { IsWatched self.old self.new }
    {
        self.graph.set_noting(cell, given, &mut self.log)
    }

    // Forgets what a cell reads, where it is no formula cell. It is noted what it read.
    fn forget_where<D: DocTables>(&mut self, tables: &D, cell: &CellId) -> Result<(), AllocError>
        ensures plain { OnOk result (formula_at (D.document tables.now) cell.now ≡ None
            → IsRead (D.document tables.now) self.new.graph cell.now) }
        ensures keeps { KeepsReads (sheet_of (D.document tables.now)) self.old.graph
            self.new.graph }
        ensures list { self.new.stale ≡ self.old.stale }
        ensures watched { IsWatched self.old self.new }
        ensures gone { OnOk result
            (IsGoneNoted (D.document tables.now) self.old self.new cell.now) }
    {
        if is_formula_cell(tables, cell) {
            return Ok(());
        }
        self.graph.drop_noting(cell, &mut self.log)
    }

    /// Forgets what is recorded of those of these cells that are no formula cells. It is noted what
    /// they read.
    ///
    /// Errors: out of memory; it is noted of each that was forgotten.
    /// Memory: what is noted. Cost: each of the cells is looked up.
    pub(crate) fn forget_plain<D: DocTables>(
        &mut self,
        tables: &D,
        cells: &[CellId],
    ) -> Result<(), AllocError>
        ensures knows { OnOk result (KnowsBut (D.document tables.now) self.old cells.now
            → KnowsButFormulas (D.document tables.now) self.new cells.now) }
        ensures list { self.new.stale ≡ self.old.stale }
        ensures watched { IsWatched self.old self.new }
        ensures gone { OnOk result ((c : CellId) → on cells.now c ≡ true
            → IsGoneNoted (D.document tables.now) self.old self.new c) }
    {
        for cell in cells {
            self.forget_where(tables, cell)?;
        }
        Ok(())
    }
}
