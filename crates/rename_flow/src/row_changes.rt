//! Changes of texts in rows of one table.

ghost use Rattle.std.specs.Prelude.{◌≡◌, OnOk};
ghost use Rattle.rename_flow.specs.RuleParts.{no_changes, with_change, with_row};

use crate::text_change::TextChange;
use cell_types::{CellText, CellValue, ValueList};
use doc_model::IdList;
use std::alloc::{AllocError, Global};

/// The rows whose text is another one, with these texts, and how many uses of names cannot be
/// resolved.
#[derive(Drop)]
pub struct RowChanges {
    pub rows: IdList,
    pub texts: ValueList,
    pub unresolved: u32,
}

impl RowChanges {
    // No changes.
    pub(crate) fn new(alloc: Global) -> Self
        ensures { result ≡ no_changes }
    {
        RowChanges {
            rows: IdList::new(alloc),
            texts: ValueList::new(alloc),
            unresolved: 0,
        }
    }

    fn add(&mut self, row: u32, text: Option<CellText>) -> Result<(), AllocError>
        ensures { OnOk result (self.new ≡ with_row self.old row text) }
    {
        if let Some(text) = text {
            self.texts.push(CellValue::Text(text))?;
            self.rows.push(i64::from(row))?;
        }
        Ok(())
    }

    // Notes the change of a row.
    #[tactic(auto, unfolding(crate::specs::RuleParts::with_change))]
    pub(crate) fn note(&mut self, row: u32, change: TextChange) -> Result<(), AllocError>
        ensures { OnOk result (self.new ≡ with_change self.old row change) }
    {
        self.unresolved = self.unresolved.saturating_add(change.unresolved);
        self.add(row, change.text)
    }
}
