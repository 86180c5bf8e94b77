//! Tests of values, names, operators and recorded reads.
//!
//! Stands on `cell_types`, `name_rules`, `value_ops`, `lookup_index`, `formula_eval` and
//! `dep_graph`. Nothing stands on it; it is a crate of its own, so that none of those is proved a
//! second time with its tests.
//!
//! Promises: nothing. What is tested is what no clause says: that the tables of conversion, names
//! and operators are the ones meant, and that calls succeed where there is memory.
//! Read first: conversions.rt, names.rt or operators.rt.
#![tactic(auto)]

#[cfg(test)]
mod buckets;
#[cfg(test)]
mod conversions;
#[cfg(test)]
mod names;
#[cfg(test)]
mod operators;
#[cfg(test)]
mod reads;
#[cfg(test)]
mod samples;
