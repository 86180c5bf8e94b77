//! Attributes of users: what rules of access say that a user has, and what a document holds of it.
//!
//! Stands on `cell_types`, `name_rules` and `value_ops` (values, names, equality), `doc_model` and
//! `doc_readers` (documents), `action_lines` and `serde_json` (members of JSON), `acl_formula`
//! (what rules know of a user) and `acl_rules` (the order of rules). Used by `acl_rows` and the
//! core.
//!
//! Promises: `read_attribute` reads exactly the texts that say an attribute, `load_attributes`
//! those of a document's rules in their order, and `user_info` has for each of them the least row
//! whose lookup column equals what it asks of the user, with its cells, or none
//! (specs/AttributeText.antt, specs/Attributes.antt, specs/UserInfos.antt). `attributes_law`: of
//! two attributes with one name the first stands, one that found no row has null fields, and none
//! takes the place of the user's own fields.
//! Not promised: that memory is found. A table is walked for each attribute that names it.
//! Read first: attribute_rule.rt, then attribute_texts.rt and infos.rt.
#![tactic(auto)]

mod attribute_rule;
mod attribute_texts;
mod found_rows;
mod infos;
mod laws;
mod loading;

pub use attribute_rule::{AttributeRule, AttributeRules, UserProperty};
pub use attribute_texts::read_attribute;
pub use infos::user_info;
pub use laws::attributes_law;
pub use loading::load_attributes;
