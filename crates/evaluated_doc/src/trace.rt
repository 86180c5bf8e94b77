//! What a change did.

ghost use Rattle.std.specs.Prelude.{◌≡◌};
ghost use Rattle.evaluated_doc.specs.WayBack.{is_whole};

use crate::indexing::GoneRows;
use affected_values::{HeldValue, LaidAside};
use cell_types::CellOld;
use doc_model::DocTables;
use known_reads::{KnownReads, ReadsBefore};
use recalc::KeptTable;
use std::marker::Model;

/// What leads back to the values before a change.
#[derive(Drop)]
pub enum Before {
    /// All that was kept before a change after which all cells were evaluated.
    Whole {
        kept: Option<Vec<KeptTable>>,
        reads: KnownReads,
    },
    /// The values before an update of those cells that it evaluated anew, and what cells read that
    /// read something else since.
    Update {
        taken: Vec<HeldValue>,
        log: ReadsBefore,
    },
    /// The same of rows that came or went, and the values that were laid aside.
    Rows {
        taken: Vec<HeldValue>,
        aside: LaidAside,
        log: ReadsBefore,
    },
    /// All values before an action on no records, and what cells read that read something else
    /// since.
    Altered {
        kept: Vec<KeptTable>,
        log: ReadsBefore,
    },
}

/// The cells that a change lost, and the way back.
#[derive(Drop)]
pub struct Trace<D: DocTables> {
    pub(crate) cells: Vec<CellOld>,
    pub(crate) back: D::Back,
    pub(crate) before: Before,
    // The rows of an action on records, for which indexes are left on the way back.
    pub(crate) gone: Option<GoneRows>,
}

impl<D: DocTables> Model for Trace<D> {
    ghost use Rattle.formula_parse.specs.contracts.tree.Formula as formula;
    ghost use Rattle.evaluated_doc.specs.WayBack.{Changed};
    ghost use Rattle.std.specs.Coded.{codes};

    ghost Value = { Changed D.Back };

    ghost coded = { Prim.hlevel (codes, formula.the_row.coded) };

    ghost view = { λ t. record {
      cells = t.cells.items;
      back = t.back;
      before = t.before;
      gone = t.gone;
    } };
}

impl<D: DocTables> Trace<D> {
    /// The cells that hold something else after the change or are gone, with what they held, by
    /// table, column and row, under the names before the change.
    ///
    /// Memory: none.
    pub fn cells(&self) -> &[CellOld]
        ensures { result.now ≡ self.now.cells }
    {
        self.cells.as_slice()
    }

    /// The same, where all else of the trace is let go.
    ///
    /// Memory: none.
    pub fn into_cells(self) -> Vec<CellOld>
        ensures { result.items ≡ self.cells }
    {
        self.cells
    }

    /// Whether the change evaluated the whole document.
    ///
    /// Memory: none.
    pub fn is_whole(&self) -> bool
        ensures { result ≡ is_whole self.now.before }
    {
        matches!(&self.before, Before::Whole { .. })
    }
}
