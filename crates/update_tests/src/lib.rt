//! Tests of evaluation by what changed: random changes of a document with formulas, each cell
//! compared with evaluation from the records alone; and how often changes of large documents ask
//! the store for a cell.
//!
//! Stands on `evaluated_doc`, `row_tables`, `doc_model` and `cell_types`. Nothing stands on it.
//!
//! Promises: nothing. What is tested of random changes is proved of every document: that what is
//! kept is what evaluation afresh gives. They show that changes succeed where there is memory, and
//! that the definition by which all this is proved is the one that the store and the evaluator
//! meet. The counts show what no clause says: that nothing is evaluated beside what is affected.
//! Read first: tests.rt, then changes.rt; costs.rt, then counted.rt.
#![tactic(auto)]

#[cfg(test)]
mod changes;
#[cfg(test)]
mod costs;
#[cfg(test)]
mod counted;
#[cfg(test)]
mod counting;
#[cfg(test)]
mod draws;
#[cfg(test)]
mod tests;
