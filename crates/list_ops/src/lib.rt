//! What every layer does to lists: a list made item by item of another.
//!
//! Stands on nothing but std. Used by the crates that make lists of what they are given.
//!
//! Promises: `all_made` is the map of what its closure makes of an item, `all_copied` the list that
//! it is given.
//! Read first: lists.rt.
#![tactic(auto)]

mod lists;

pub use lists::{all_copied, all_made};
