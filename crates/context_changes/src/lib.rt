//! What each context is told of a bundle: a user's rules in force, before it and after it.
//!
//! Stands on `rule_contexts` (what is in force for a user), `acl_reading` (what a context lets be
//! read), `user_attrs`, `acl_formula` and `acl_rules` (what contexts are made of),
//! `agreeing_contexts` (which of them let the same be read), `censored_view`
//! (what it shows of a document), `plain_view` (changes), `action_censor` and `bundle_traces` (what
//! the steps of a bundle tell of the rows that they touched), `recalc`, `evaluated_doc` and
//! `doc_model`.
//!
//! Promises: what a context is told are the changes from what it showed of the evaluated document
//! to what the context in force afterwards shows (`told_of`). `see_all` and `tell_whole` make it of
//! whole views, for bundles that change the schema or a context; `tell_narrow` of the touched rows
//! alone, for bundles of records that leave the contexts as they are, and by the same definition:
//! the same is told where the rules stay and what they mention of each user does (`agrees_with`).
//! Those of whom rules know something else are told from whole views alone (`see_differing`,
//! `tell_differing`).
//! `KnownContexts` keeps contexts of users from one bundle to the next (`AreKnown`): `place_for`
//! makes one where there is none, `anew` all of them, `renew` takes what is new after a bundle.
//! What a user is told stands beside the user's context, at `known_place`, so that the sessions of
//! a user share it.
//! Not here: which of the two a bundle needs.
//! Costs: `tell_whole` the whole document for each context; `tell_narrow` the touched rows alone.
//! Read first: specs/Told.antt and specs/Known.antt, then following.rt, views.rt, known.rt,
//! renewal.rt and differing.rt.
#![tactic(auto)]

mod differing;
mod following;
mod known;
mod laws;
mod renewal;
mod users;
mod views;

pub use differing::{see_differing, tell_differing};
pub use following::tell_narrow;
pub use known::{FoundContext, KnownContexts, known_place};
pub use laws::{hiding_law, since_law};
pub use renewal::Renewal;
pub use users::same_user;
pub use views::{see_all, tell_whole, view_of};
