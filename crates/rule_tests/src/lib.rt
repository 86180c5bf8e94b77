//! Tests of rules: their formulas, their values, their permissions, what they decide and let users
//! read, what renames make of the texts of their resources, which rows of the tables of rules are
//! good, the attributes of users, audits, and which users are the same in what rules ask for.
//!
//! Stands on `acl_formula`, `acl_rules`, `acl_reading`, `acl_rows`, `renamed_resources`,
//! `user_attrs`, `rule_audit`, `agreeing_contexts` and what these stand on, and on `row_tables` and
//! `doc_actions` for documents. Nothing stands on it; it is a crate of its own, so that these are
//! not proved a second time with their tests.
//!
//! Promises: nothing. What is tested is what no clause says: that the tables of operators are the
//! ones meant, and that calls succeed where there is memory.
//! Read first: formulas.rt, decisions.rt.
#![tactic(auto)]

#[cfg(test)]
mod agreements;
#[cfg(test)]
mod attribute_texts;
#[cfg(test)]
mod attributes;
#[cfg(test)]
mod auditing;
#[cfg(test)]
mod decisions;
#[cfg(test)]
mod documents;
#[cfg(test)]
mod formulas;
#[cfg(test)]
mod permission_texts;
#[cfg(test)]
mod reading;
#[cfg(test)]
mod resource_texts;
#[cfg(test)]
mod resources;
#[cfg(test)]
mod rows;
#[cfg(test)]
mod samples;
