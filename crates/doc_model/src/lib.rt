//! Documents: what they hold, what is asked of them and answered, and what a user sees of them.
//!
//! Stands on `cell_types` (values, names, texts and lists). Used by every crate above it.
//!
//! Promises: the definitions in specs/ of documents, their soundness and their schema, of validity,
//! effect and inverse of document actions, of views, their changes and patches, and of what limits
//! count; and in laws.rt the laws over them. `DocReader` says what a document that is kept
//! answers, `DocTables` what a store does.
//! Not promised: that a store or an action meets the definitions; the crates above promise it.
//! Read first: specs/Document.antt, Valid.antt, Apply.antt, Inverse.antt, then Changes.antt.
#![tactic(auto)]

mod action;
mod column;
mod entry;
pub mod laws;
mod limit;
mod refusal;
mod request;
mod rows;
mod tables;
mod type_texts;
mod user;
mod user_action;
mod verdict;
mod view;

pub use action::{DocAction, DocActionList, Step, StepList};
pub use column::{CellColumn, CellRowList, ColDef, ColDefList, ColInfo, ColumnList};
pub use entry::{Entry, EntryList};
pub use limit::{
    LAST_ROW_ID, LimitKind, MAX_ACTIONS, MAX_CELLS, MAX_COLUMNS, MAX_ROWS, MAX_SESSIONS,
    MAX_TABLES, MAX_WEIGHT_BYTES, RuleRef,
};
pub use refusal::Refusal;
pub use request::Request;
pub use rows::{have_no_duplicates, index_of_column, search_row};
pub use tables::{DocReader, DocTables};
pub use type_texts::type_text;
pub use user::{User, UserList};
pub use user_action::{
    IdList, UserAction, UserActionList, UserCol, UserColList, UserColumn, UserColumnList,
};
pub use verdict::{RetIdList, RetValue, RetValueList, Verdict};
pub use view::{View, ViewAction, ViewActionList, ViewCol, ViewColList, ViewTable, ViewTableList};
