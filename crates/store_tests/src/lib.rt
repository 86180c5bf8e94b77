//! Tests of the two stores side by side: one random sequence of document actions over tables by
//! rows and over tables by columns, which have to tell the same document after each.
//!
//! Stands on `row_tables`, `column_store`, `doc_actions`, `doc_model` and `cell_types`. Nothing
//! stands on it.
//!
//! Promises: nothing. That both stores tell the document of the definitions after each action, and
//! the one before it after it was taken back, is proved. The test shows that actions of each kind
//! succeed where there is memory, and that what is built answers as what is proved.
//! Read first: tests.rt, then changes.rt.
#![tactic(auto)]

#[cfg(test)]
mod changes;
#[cfg(test)]
mod draws;
#[cfg(test)]
mod kinds;
#[cfg(test)]
mod readers;
#[cfg(test)]
mod tests;
