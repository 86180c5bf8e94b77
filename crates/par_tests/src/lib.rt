//! Tests of levels: which columns stand in which one, and that two threads attempt the cells of one
//! column at the same time.
//!
//! Stands on `par_recalc`, `formula_eval`, `formula_parse` and `cell_types`. Nothing stands on it;
//! it is a crate of its own, so that `par_recalc` is not proved a second time with its tests.
//!
//! Promises: nothing. What is tested is what no clause says: that calls succeed where there is
//! memory, and that there are threads.
//! Read first: places.rt, then meeting.rt.
#![tactic(auto)]

#[cfg(test)]
mod columns;
#[cfg(test)]
mod meeting;
#[cfg(test)]
mod places;
