//! What a walk over a formula notes: a mark for each lexeme, and a count.

ghost use Rattle.std.specs.Prelude.{◌≡◌, ◌+◌, [], cond, OnOk};
ghost use Rattle.rename_marks.specs.Noted.{capped, stayed, used};
ghost use Rattle.rename_marks.specs.Uses.{use_of};

use crate::column_rename::ColumnRename;
use crate::resolving::{is_replaced, is_unresolved};
use cell_types::{Name, Sequence};
use formula_records::RecordTables;
use std::alloc::{AllocError, Global};

/// A mark for each lexeme of a formula.
pub type MarkList = Sequence<bool>;

/// Which lexemes of a formula a rename replaces, and how many of its uses of names cannot be
/// resolved.
///
/// Units: the count stands still at its greatest value.
#[derive(Drop)]
pub struct Marking {
    pub marks: MarkList,
    pub unresolved: u32,
}

impl Marking {
    // Nothing noted.
    pub(crate) fn new(alloc: Global) -> Self
        ensures { result ≡ record { marks = []; unresolved = 0 } }
    {
        Marking {
            marks: MarkList::new(alloc),
            unresolved: 0,
        }
    }

    // Notes lexemes that stay.
    #[tactic(auto, unfolding(crate::specs::Noted::stayed))]
    pub(crate) fn skip(&mut self, count: usize) -> Result<(), AllocError>
        ensures { OnOk result (self.new ≡ stayed self.old count) }
    {
        for _lexeme in 0..count {
            self.marks.push(false)?;
        }
        Ok(())
    }

    // Counts a use that cannot be resolved.
    fn count(&mut self, is_unresolved: bool)
        ensures { self.new ≡ record {
          marks = self.old.marks;
          unresolved = cond is_unresolved (capped (self.old.unresolved + 1)) self.old.unresolved;
        } }
    {
        if is_unresolved {
            self.unresolved = self.unresolved.saturating_add(1);
        }
    }

    // Notes a name that is asked of records of these tables.
    #[tactic(auto, unfolding(crate::specs::Noted::used, crate::specs::Noted::noted))]
    pub(crate) fn note(
        &mut self,
        rename: &ColumnRename,
        tables: &RecordTables,
        name: &Name,
    ) -> Result<(), AllocError>
        ensures { OnOk result (self.new ≡ used rename.now self.old (use_of tables.now name.now)) }
    {
        self.count(is_unresolved(rename, tables, name));
        self.marks.push(is_replaced(rename, tables, name))?;
        Ok(())
    }
}
