//! User actions, as lines of JSON spell them.
//!
//! Stands on `doc_model` and `cell_types` (what is read) and `serde_json` (JSON that was read of a
//! text). Used by `grist_json`, which reads whole lines, and `record_lines`, which reads what is
//! kept of bundles.
//!
//! Promises: `read_actions` answers the actions that the JSON stands for, and nothing exactly where
//! it stands for none; JSON stands for at most one list of actions, and each is well formed.
//! Not promised: that tables, columns, rows and types are there, or that texts are short.
//! Read first: actions.rt, then spelled.rt and values.rt.
#![tactic(auto)]

mod actions;
mod columns;
mod fields;
mod infos;
mod items;
mod kinds;
mod list_items;
mod marked;
mod marks;
mod numbers;
mod record_actions;
mod schema_actions;
mod spelled;
mod values;

pub use actions::read_actions;
pub use columns::columns_in;
pub use fields::Fields;
pub use items::Items;
pub use kinds::{ActionKind, kind_of};
pub use numbers::{id_of, row_of};
pub use spelled::{Spelled, read_given};
