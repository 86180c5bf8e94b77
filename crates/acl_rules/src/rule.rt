//! A rule, as it is asked.

use acl_formula::{PermSet, RuleTree};
use cell_types::CellText;

/// A rule apart from what it is about. Its row is that of `_grist_ACLRules`. It has no formula
/// where its text reads as none; it then fails.
#[derive(Drop)]
pub struct Rule {
    pub row: u32,
    pub formula: Option<RuleTree>,
    pub permissions: PermSet,
    pub memo: CellText,
}
