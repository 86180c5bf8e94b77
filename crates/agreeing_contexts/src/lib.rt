//! Contexts that agree: what the rules of one book mention is the same of both users.
//!
//! Stands on `acl_formula` and `acl_rules` (what rules ask for, and what they decide),
//! `formula_parse` (the trees of rules), `acl_reading` (what a context lets be read), `doc_model`
//! and `cell_types`.
//!
//! Promises: `note_formula` adds to a list the fields `user.ATTRIBUTE.NAME` that a formula asks
//! for, each once; over the rules of a book, one after another, they are those that the book
//! mentions, and `load_fields` reads these of a document. `are_same_in` tells exactly whether rules
//! that ask for these get the same of two users: values by `same_as`, and each error is nothing, as
//! rules have it. `agreement_law`: contexts that agree decide the same, and let the same be read.
//! Not promised: that contexts which do not agree let anything else be read.
//! Read first: specs/Fields.antt and specs/Agreement.antt.
#![tactic(auto)]

mod agreement;
mod field;
mod laws;
mod loading;
mod mentioned;

pub use agreement::are_same_in;
pub use field::{UserField, UserFieldList};
pub use laws::agreement_law;
pub use loading::load_fields;
pub use mentioned::note_formula;
