//! Texts of access rules: what a rule's formula comes to, and what a permission text says.
//!
//! Stands on `cell_types` (values), `doc_model` (users), `formula_lex` and `formula_parse` (trees)
//! and `value_ops` (the operators that its values are defined by). Used by `acl_rules` and by what
//! tests and asks rules.
//!
//! Promises: which texts are formulas of rules is a function, `parse_rule` reads them so, and tells
//! a fault only where there is none. `eval_rule` gives what specs/RuleTruths.antt says for each
//! tree, user and row, and takes no memory: texts and lists that `+` joins are compared where they
//! lie, and each part is evaluated once. `read_permissions` reads exactly the permission texts.
//! Not promised: that a rule means what its author meant.
//! Read first: user_info.rt and rule_tree.rt, then operand.rt and evaluation.rt.
#![tactic(auto)]

mod arithmetic;
mod comparing;
mod desk;
mod equality;
mod evaluation;
mod fields;
mod items;
mod joining;
mod mention;
mod operand;
mod permissions;
mod pieces;
mod room;
mod rule_tree;
mod truth;
mod user_info;

pub use mention::{Mention, MentionList};
pub use permissions::{Perm, PermFlags, PermSet, read_permissions};
pub use rule_tree::{RuleTree, parse_rule};
pub use truth::{RuleTruth, eval_rule};
pub use user_info::{
    Attribute, AttributeList, AttributeRow, NamedCell, NamedCellList, RowReader, UserInfo,
};
