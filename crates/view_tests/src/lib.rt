//! Tests of views: their changes, and what stands against user actions in them.
//!
//! Stands on `doc_model`, `plain_view`, `view_patch` and `user_objections`. What contexts show, and
//! what they are told of bundles, is in the cases of the program (`views-behind-guards`,
//! `censored-cells`, ..). Nothing stands on it; it is a crate of its own, so that none of those is
//! proved a second time with its tests.
//!
//! Promises: nothing. What is tested is what no clause says: that the definitions mean what is
//! meant, by values that were worked out by hand, and that calls succeed where there is memory.
//! Read first: changes.rt, then refusals.rt. What they try is made in steps.rt and asking.rt, and
//! shown in shown.rt.
#![tactic(auto)]

#[cfg(test)]
mod asking;
#[cfg(test)]
mod changes;
#[cfg(test)]
mod refusals;
#[cfg(test)]
mod shown;
#[cfg(test)]
mod steps;
