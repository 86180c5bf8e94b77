//! Tests of the gate: two threads at one machine, and a caller that proves something of its own.
//!
//! Stands on `session_gate`. Nothing stands on it; it is a crate of its own, so that the gate is
//! not proved a second time with its tests.
//!
//! Promises: nothing. What is tested is what no clause says: that calls succeed where there is
//! memory, and that a caller gets by with the clauses of `call`.
//! Read first: turns.rt.
#![tactic(auto)]

#[cfg(test)]
mod turns;
