//! What a column is, as far as a view tells it: a law over documents that show a closed user a
//! table.
//!
//! Stands on `audited_cells` (tables behind a view) and `rule_audit` (audits), `recalc` (evaluated
//! documents), `acl_rules`, `acl_reading`, `acl_formula`, `censored_view`, `doc_readers`,
//! `doc_model` and `cell_types`. No program calls it.
//!
//! Promises: `columns_law`: where an audit says `Closed`, the view tells of each shown column its
//! type, whether it has a formula, and which: of a whole document a data column has none.
//! Not promised: anything of columns that are not shown.
//! Read first: specs/ColumnLaws.antt, then proofs/InfoLemmas.antt.
#![tactic(auto)]

mod laws;

pub use laws::columns_law;
