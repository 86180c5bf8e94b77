//! Access rules: which rule decides a permission, and what it decides.
//!
//! Stands on `acl_formula` (what a rule's formula comes to, permissions, users), `doc_model`
//! (documents, actions), `formula_parse`, `name_rules` and `cell_types`. Used by `acl_checks`,
//! `acl_rows`, `user_attrs`, `acl_reading` and the core.
//!
//! Promises: `decide` gives the one answer of specs/Decided.antt for each book of rules, user and
//! row, and takes no memory; `rule_ref` names the rule that denied. `carry` moves the rules that
//! are about a table or a column along with a rename of it, and leaves them where memory is
//! wanting. `read_resource` reads exactly the texts that say what a rule is about, and `load` the
//! rules of a document (specs/Loaded.antt), in the order that `rules_by_place` gives. What walks a
//! chain by itself has its rules by `places_on`, `places_on_document`, `rule_at` and `is_of`.
//! Not promised: that a rule means what its author meant, or how fast a decision is; by its code it
//! looks only at rules about the table and the document.
//! Read first: specs/Chain.antt and specs/Decided.antt, then book.rt and decision.rt.
#![tactic(auto)]

mod asking;
mod book;
mod carrying;
mod decision;
mod loading;
mod placing;
mod reading;
mod resource;
mod resource_texts;
mod resources;
mod rule;
mod rule_ids;
mod told_cells;

pub use asking::decide;
pub use book::{RuleBook, rule_ref};
pub use carrying::carry;
pub use decision::{Ctx, Decision, RuleId, built_in, decides};
pub use loading::load;
pub use placing::rules_by_place;
pub use reading::columns_read;
pub use resource::{Columns, Part, Resource, is_of};
pub use resource_texts::read_resource;
pub use rule::Rule;
pub use told_cells::text_in;
