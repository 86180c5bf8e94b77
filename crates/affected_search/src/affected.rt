//! Cells that are affected.

ghost use Rattle.std.specs.Prelude.{◌≡◌, [], OnOk, OnErr};
ghost use Rattle.std.specs.List.{IsDistinct};
ghost use Rattle.dep_graph.specs.Numbers.{is_cell};
ghost use Rattle.affected_search.specs.Reached.{is_among};
ghost use Rattle.affected_search.specs.Found.{with_cell};

use dep_graph::CellNumber;
use std::alloc::{AllocError, Global};
use std::collections::HashSet;
use std::marker::Model;

/// Cells that are affected, each once, in the order in which they were found. It is seen as their
/// list.
#[derive(Drop)]
pub struct AffectedCells {
    cells: Vec<CellNumber>,
    known: HashSet<CellNumber>,
}

impl Model for AffectedCells {
    ghost use Rattle.std.specs.Prelude.{List};
    ghost use Rattle.dep_graph.specs.declared.numbers.CellNumber.{CellNumber};
    ghost use Rattle.affected_search.specs.Found.{IsKnownBy};

    ghost Value = { List CellNumber };

    ghost view = { λ a. a.cells.items };

    ghost invariant = { λ a. IsKnownBy a.cells.items a.known.keys };
}

impl AffectedCells {
    /// No cells.
    ///
    /// Memory: none.
    pub(crate) fn new(alloc: Global) -> Self
        ensures { result ≡ [] }
    {
        AffectedCells {
            cells: Vec::new(alloc),
            known: HashSet::new(alloc),
        }
    }

    /// The cells, in the order in which they were found.
    ///
    /// Memory: none.
    pub fn cells(&self) -> &[CellNumber]
        ensures cells { result.now ≡ self.now }
        ensures once { IsDistinct is_cell self.now }
    {
        let _known = &self.known;
        self.cells.as_slice()
    }

    /// Whether the cell is affected.
    ///
    /// Memory: none. Cost: that of a hash.
    pub fn contains(&self, cell: CellNumber) -> bool
        ensures { result ≡ is_among self.now cell }
    {
        self.known.contains(&cell)
    }

    /// Adds a cell, where it is not there.
    ///
    /// Errors: out of memory; the cells are then as they were. Cost: that of a hash.
    pub(crate) fn add(&mut self, cell: CellNumber) -> Result<(), AllocError>
        ensures ok { OnOk result (self.new ≡ with_cell cell self.old) }
        ensures err { OnErr result (self.new ≡ self.old) }
    {
        self.cells.reserve(1)?;
        if self.known.insert(cell)? {
            self.cells.push_reserved(cell);
        }
        Ok(())
    }
}
