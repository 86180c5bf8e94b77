//! Documents in which a column has a new name, and the texts of formulas follow it.
//!
//! Stands on `doc_model` (documents and what actions do to them), `recalc` (evaluated cells),
//! `formula_parse`, `formula_eval`, `formula_records`, `rename_texts` and `rename_marks` (formulas,
//! and which of their names a rename replaces), `renamed_values` (cells of a sheet) and
//! `cell_types`. Used by
//! `renaming_bundles`.
//!
//! Promises: `renaming_steps_law`: a rename, and then actions that update access rules or give a
//! column another formula and nothing else, make of the tables outside the metadata those before,
//! with the new name and these texts. `renamed_sheet_law`: what formulas see of the two documents
//! is as `renamed_values` has it, where the texts follow the formulas; `renamed_value_law` and
//! `renamed_filling_law`: so all cells outside the metadata have their values under the new name.
//! `typed_document_law`: of a whole document formulas see no other records than its columns may
//! hold.
//! Not promised: anything of cells of metadata tables; that texts follow the formulas.
//! Read first: specs/RenamedTables.antt and specs/Laws.antt, then specs/RenamingSteps.antt.
#![tactic(auto)]

mod laws;

pub use laws::{
    renamed_filling_law, renamed_sheet_law, renamed_value_law, renaming_steps_law,
    typed_document_law,
};
