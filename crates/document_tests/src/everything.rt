//! A context that shows everything.

use acl_formula::RowReader;
use cell_types::Name;
use censored_view::{Lets, RowTests};
use std::alloc::{AllocError, Global};

/// What shows each table with all its columns, formulas and cells.
#[derive(Drop)]
pub(crate) struct Everything;

impl Lets for Everything {
    ghost use Rattle.censored_view.specs.Readable.{whole};

    ghost lets = { λ _ table. whole };

    fn is_bare_shown(&self, _table: &Name) -> bool {
        true
    }

    fn is_column_shown(&self, _table: &Name, _column: &Name) -> bool {
        true
    }

    fn is_formula_shown(&self, _table: &Name, _column: &Name) -> bool {
        true
    }

    fn has_own_rules(&self, _table: &Name, _column: &Name) -> bool {
        false
    }

    fn own_answer<W: RowReader>(&self, _table: &Name, _column: &Name, _row: &W) -> Option<bool> {
        None
    }

    fn is_cell_shown<W: RowReader>(&self, _table: &Name, _column: Option<&Name>, _row: &W) -> bool {
        true
    }

    fn row_tests<'a>(
        &'a self,
        _alloc: Global,
        _table: &Name,
    ) -> Result<Option<RowTests<'a>>, AllocError> {
        Ok(None)
    }

    fn own_tests<'a>(
        &'a self,
        _alloc: Global,
        _table: &Name,
        _column: &Name,
    ) -> Result<Option<RowTests<'a>>, AllocError> {
        Ok(None)
    }
}
