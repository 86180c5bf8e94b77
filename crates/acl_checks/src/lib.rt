//! What the access rules say to a document action: the checks of its rows, columns or schema, asked
//! before and after it.
//!
//! Stands on `acl_rules` (which rule decides), `acl_formula` (rows as rules read them),
//! `doc_readers` (ids of the tables of access rules), `doc_model` (documents and actions) and
//! `cell_types`. Used by the core.
//!
//! Promises: `before_step` and `after_step` round an action give the rule that denies the first
//! check of specs/Checks.antt that is denied, and `after_step` takes no memory. Of changed rows
//! only the columns are kept that rules of the table or the document read. Where `are_unchecked`
//! holds nothing is denied.
//! Not promised: speed. There is a decision for each row and each column that an action gives.
//! Read first: specs/Checks.antt and specs/Denials.antt, then before.rt and after.rt.
#![tactic(auto)]

mod after;
mod before;
mod checked_row;
mod denials;
mod keeping;
pub mod laws;
mod unchecking;

pub use after::after_step;
pub use before::{BeforeStep, before_step};
pub use keeping::KeptRowList;
pub use unchecking::are_unchecked;
