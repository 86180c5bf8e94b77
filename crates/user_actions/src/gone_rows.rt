//! Rows that go from a table.

ghost use Rattle.std.specs.Prelude.{◌≡◌, IfOk};
ghost use Rattle.doc_model.specs.Rows.{has};

use cell_types::RowList;
use std::alloc::{AllocError, Global};
use std::collections::BTreeSet;
use std::marker::Model;

/// Rows that go, in a sorted set too, so that each cell of a column can be asked for them.
/// Contracts see the rows.
#[derive(Drop)]
pub(crate) struct GoneRows {
    rows: RowList,
    sorted: BTreeSet<u32>,
}

impl Model for GoneRows {
    ghost use Rattle.std.specs.Prelude.{◌≡◌, List, ℕ};
    ghost use Rattle.std.specs.Ordering.{nat_cmp};
    ghost use Rattle.std.specs.BTreeSet.{contains_by};
    ghost use Rattle.doc_model.specs.Rows.{has};

    ghost Value = { List ℕ };

    ghost view = { λ g. g.rows };

    ghost invariant = { λ g. (q : ℕ) → contains_by (nat_cmp q) g.sorted ≡ has g.rows q };
}

impl GoneRows {
    /// These rows.
    ///
    /// Errors: out of memory.
    pub(crate) fn new(alloc: Global, rows: RowList) -> Result<Self, AllocError>
        ensures { IfOk result (λ gone. gone ≡ rows) }
    {
        let mut sorted = BTreeSet::new(alloc);
        for row in rows.as_slice() {
            sorted.insert(*row)?;
        }
        Ok(GoneRows { rows, sorted })
    }

    /// Whether the row goes.
    ///
    /// Memory: none. Cost: that of a sorted set.
    pub(crate) fn has(&self, row: u32) -> bool
        ensures { result ≡ has self.now row }
    {
        self.sorted.contains(&row)
    }
}
