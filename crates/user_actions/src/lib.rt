//! User actions: the document actions that one stands for.
//!
//! Stands on `doc_model` (documents and user actions), `doc_readers` (what a store tells),
//! `renamed_resources` (what rules are about after renames), `name_rules` (free ids), `cell_types`
//! and `list_ops`. Used by `user_objections`, `action_limits` and the core.
//!
//! Promises: `steps` gives the document actions of specs/Steps.antt, over any store of a whole
//! document, and nothing exactly where a new row would pass the last row id; each step is valid at
//! its index. It wants an action that the document allows (specs/Allowed.antt). `steps_law` and
//! `fresh_ids_law` say of the definitions that steps are valid and new ids free, beside at most
//! 2^60 ids.
//! Not promised: that memory is found, or that the text of a formula column reads as a formula: it
//! is taken as it stands.
//! Read first: specs/Allowed.antt and specs/Steps.antt, then expanding.rt.
#![tactic(auto)]

mod cell_updates;
mod clearing;
mod columns;
mod expanding;
mod gone_rows;
mod infos;
mod laws;
mod leading;
mod modifying;
mod naming;
mod record_steps;
mod referrers;
mod resource_steps;
mod rows;
mod schema_steps;
mod table_readers;

pub use columns::{may_be_new, may_become};
pub use expanding::steps;
pub use laws::{fresh_ids_law, steps_law};
pub use naming::{table_name, table_of};
pub use record_steps::row_ids;
pub use rows::row_number;
pub use table_readers::last_row;
