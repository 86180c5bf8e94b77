//! Tests of renames through formulas and rules.
//!
//! Stands on `rename_flow` and what it stands on. Nothing stands on it; it is a crate of its own,
//! so that none of them is proved a second time with its tests.
//!
//! Promises: nothing. What is tested is what no clause says: that the plans are those that are
//! meant, worked out by hand, and that calls succeed where there is memory.
//! Read first: plans.rt, then views.rt.
#![tactic(auto)]

#[cfg(test)]
mod plans;
#[cfg(test)]
mod told;
#[cfg(test)]
mod views;
