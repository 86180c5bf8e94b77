//! Bundles by which a column is renamed, and formulas and rules follow.
//!
//! Stands on `user_actions` (the steps of user actions), `doc_model` and `doc_readers`
//! (documents), `name_rules` (free names), `recalc` (columns of a document), `rename_marks`,
//! `renamed_values`, `renamed_documents` (documents with a column under a new name) and
//! `cell_types`. Used by `planned_renames`.
//!
//! Promises: `expanded_texts_law`: a bundle of a rename, and then of updates of access rules and of
//! changes that give formula columns another formula and nothing else, makes of the tables outside
//! the metadata those before, with the new name and the formulas that were asked; so a change
//! brings no cell with it, and a formula that is there already is as if it were given.
//! Not promised: that the steps are valid, which the judgement of a bundle sees to.
//! Read first: specs/AskedTexts.antt.
#![tactic(auto)]

mod laws;

pub use laws::expanded_texts_law;
