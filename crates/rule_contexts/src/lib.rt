//! What is in force for a user in a document, and what that lets the user see.
//!
//! Stands on `acl_rules` and `user_attrs` (the rules of a document, and what they know of a user),
//! `evaluated_doc` and `recalc` (evaluated documents), `acl_reading` and `censored_view` (what
//! rules let see), `view_refusals` (refusals by what is seen), `action_censor` and `bundle_traces`
//! (steps of bundles).
//!
//! Promises: `context_of` has the rules of a document, and the attributes of a user by its
//! evaluated cells. `hidden_schema_law`, `seen_law`: what a context shows of a whole document is a
//! view without the schema tables, and the document allows what nothing stands against there.
//! `may_change_contexts` tells by a bundle's steps whether a context may change;
//! `same_context_law`: any other bundle leaves the context of each user, and
//! (`same_attributes_law`) the attributes that the rules say; so (`followed_law`) what `follow` of
//! `action_censor` tells in that context are the changes of what the user sees.
//! `may_change_rules` tells the same of the rules alone; `same_rules_law`: any other bundle leaves
//! them, so that a context changes by the rows of its attributes alone.
//! Not promised: that a bundle which may change contexts does so.
//! Read first: specs/Context.antt, then specs/ChangedContexts.antt.
#![tactic(auto)]

mod changed_contexts;
mod contexts;
mod laws;

pub use changed_contexts::{may_change_contexts, may_change_rules};
pub use contexts::{context_of, context_over, context_with};
pub use laws::{
    followed_law, hidden_schema_law, same_attributes_law, same_context_law, same_rules_law,
    seen_law,
};
