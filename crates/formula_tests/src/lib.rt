//! Tests of the tokens, trees and values of formulas.
//!
//! Stands on `formula_lex`, `formula_parse`, `formula_eval` and what these stand on. Nothing stands
//! on it; it is a crate of its own, so that none of them is proved a second time with its tests.
//!
//! Promises: nothing. What is tested is what no clause says: that the grammar is the one meant, and
//! that calls succeed where there is memory.
//! Read first: trees.rt, then values.rt.
#![tactic(auto)]

#[cfg(test)]
mod kinds;
mod memory;
#[cfg(test)]
mod samples;
#[cfg(test)]
mod texts;
#[cfg(test)]
mod tokens;
#[cfg(test)]
mod trees;
#[cfg(test)]
mod values;

pub use memory::{Column, Memory, Slot};
