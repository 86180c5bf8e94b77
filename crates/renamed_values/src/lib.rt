//! The values of cells where a column has a new name, and formulas follow it.
//!
//! Stands on `cell_types` (values), `doc_model` (the metadata tables), `formula_lex` and
//! `formula_parse` (texts and trees), `value_ops` and `formula_eval` (what a formula comes to),
//! `recalc` (sheets, and evaluated cells by fuel), `formula_records` (which tables' records a value
//! may hold), `rename_texts` (trees with a name replaced) and `rename_marks` (which names a rename
//! replaces). Used by `renamed_documents`.
//!
//! Promises: `records_law`: a value that a formula gives holds only records of the tables that its
//! tree says, and none of a metadata table; `typed_law` brings the premise of that law from a sheet
//! to what its formulas see with any fuel. `same_ev_law`: a formula in which each name is replaced
//! as it has to be comes to the same value, or to the same error, where the column has its new
//! name, and `resolved_law`: where each use of a name can be resolved, each is so replaced.
//! `same_sheet_law`: so each cell outside the metadata has its value with each fuel, and its
//! evaluated value, circular cells with it. `plain_names_law`: formulas name no metadata table.
//! Not promised: anything of cells of metadata tables, which tell the new name; which cells a
//! formula needs first.
//! Read first: specs/SameSheet.antt, then specs/SameEv.antt and specs/RecordsLaw.antt.
#![tactic(auto)]

mod laws;

pub use laws::{
    plain_names_law, records_law, resolved_law, same_ev_law, same_sheet_law, typed_law,
};
