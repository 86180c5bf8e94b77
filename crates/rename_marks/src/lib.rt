//! What the rename of a column makes of formulas and rules: which of their names it replaces, and
//! how many of their uses of names cannot be resolved.
//!
//! Stands on `cell_types` (names), `doc_model` (views), `formula_parse` (trees), `formula_records`
//! (which records an expression may hold) and `rename_texts` (marked lexemes). Used by
//! `rename_flow`.
//!
//! Promises: `mark_formula` gives the marks that specs/Scope.antt says, one for each lexeme, for a
//! formula of a column and for one of a rule, and counts those of its uses of names
//! (specs/ScopeUses.antt) that cannot be resolved (specs/Uses.antt).
//! Not promised: that a name which cannot be resolved means the column at all.
//! Read first: specs/Uses.antt, specs/Scope.antt and specs/ScopeUses.antt, then formula_marks.rt.
#![tactic(auto)]

mod column_rename;
mod formula_marks;
mod formula_place;
mod marking;
mod resolving;

pub use column_rename::ColumnRename;
pub use formula_marks::mark_formula;
pub use formula_place::{AttributeTable, AttributeTableList, FormulaPlace};
pub use marking::{MarkList, Marking};
pub use resolving::{is_replaced, is_unresolved};
