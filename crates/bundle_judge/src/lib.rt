//! The judgement of bundles and undos: what stands against one, or what it does.
//!
//! Stands on `evaluated_doc` (a document with its formula cells evaluated), `recalc` (what such a
//! document is), `user_actions` (refusals), `action_limits` (steps and limits), `rule_contexts` and
//! `view_refusals` (what is in force for a user, and what it shows), `acl_checks` (which rule
//! denies a step) and `undo_bundles` (inverses). Used by `bundle_core`.
//!
//! Promises: `judge` and `judge_own_undo` answer what specs/Judgement.antt and specs/Undo.antt say
//! for every document, over plain lists: the first fault of the first action that has one, or the
//! steps that the bundle comes to, what its actions created, and the tally of the document after
//! them. What is accepted stays done, with a trail: the trace
//! of each step, and the inverse of all. Otherwise the document is as before. Each direct step is
//! checked by the rules that stood at the bundle's start, and a denial names its rule.
//! `go_back_all` goes back over the traces of a trail without memory, and `do_again` does the steps
//! once more.
//! Costs: each step is done once, and costs what it touches; where there are formulas, what
//! evaluating what it changes costs too. What is in force for the user is at hand; only a bundle or
//! undo that renames a table or a column reads it once more, where rules may deny something.
//! Read first: specs/Judgement.antt, specs/Denials.antt and specs/Undo.antt, then judging.rt,
//! checking.rt and undoing.rt.
#![tactic(auto)]

mod bare_verdict;
mod carried_context;
mod checking;
mod created;
mod judging;
mod rollback;
mod split_steps;
mod undoing;

pub use bare_verdict::BareVerdict;
pub use created::{Created, all_told};
pub use judging::{BundlePlan, JudgedBundle, judge};
pub use rollback::{Trail, do_again, go_back_all};
pub use split_steps::SplitSteps;
pub use undoing::judge_own_undo;
