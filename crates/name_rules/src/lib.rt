//! Names: which texts may be one, and which one is free beside taken ones.
//!
//! Stands on `cell_types` (names, and the definition of a good one) and `unicode_ident`; proofs
//! name `ucd_derived` and `ucd_table`, which that stands on.
//! Used by the crates that read lines and put actions.
//!
//! Promises: `is_name` is the definition in specs/NameRule.antt of `cell_types`, and takes no
//! memory; what it takes has the length of a name; `name_of` makes it one. `free_name` is the
//! definition in specs/FreeName.antt: the wanted id where it is free, otherwise the wanted id with
//! the least number from 2 upwards that makes it free. There is such a number below 102 and 12 more
//! for each taken name, and what is made of a good name is one; `fresh_law` says so of the
//! definition.
//! Not promised: that memory is found.
//! Read first: name_rule.rt, specs/FreeName.antt, free_id.rt.
#![tactic(auto)]

mod free_id;
mod laws;
mod name_rule;

pub use free_id::free_name;
pub use laws::fresh_law;
pub use name_rule::{is_name, name_of};
