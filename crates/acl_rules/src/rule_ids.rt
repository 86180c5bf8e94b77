//! The ids of the tables of the access rules and of their columns.

ghost use Rattle.std.specs.Prelude.{◌≡◌, codes, IfOk};
ghost use Rattle.cell_types.specs.NameLength.{HasNameLength};
ghost use Rattle.doc_model.specs.MetadataIds.{resources_id, rules_id};
ghost use Rattle.acl_rules.specs.RuleIds.{AreRuleIds};

use cell_types::{CellText, Name};
use std::alloc::{AllocError, Global};

/// The ids by which the tables of the access rules are asked.
#[derive(Drop)]
pub(crate) struct RuleIds {
    pub(crate) resources: Name,
    pub(crate) table_id: Name,
    pub(crate) col_ids: Name,
    pub(crate) rules: Name,
    pub(crate) resource: Name,
    pub(crate) formula: Name,
    pub(crate) permissions: Name,
    pub(crate) place: Name,
    pub(crate) memo: Name,
}

fn name_of(alloc: Global, text: &str) -> Result<Name, AllocError>
    requires { HasNameLength text.now }
    ensures { IfOk result (λ n. n ≡ text.now) }
{
    Ok(Name::new(CellText::copy_of(alloc, text)?))
}

// The ids of the table of resources, and of its columns.
#[tactic(auto, unfolding(doc_model::specs::MetadataIds::resources_id))]
fn resource_names(alloc: Global) -> Result<(Name, Name, Name), AllocError>
    ensures { IfOk result
        (λ n. (n.0 ≡ resources_id) × ((n.1 ≡ codes "tableId") × (n.2 ≡ codes "colIds"))) }
{
    let resources = name_of(alloc, "_grist_ACLResources")?;
    let table_id = name_of(alloc, "tableId")?;
    Ok((resources, table_id, name_of(alloc, "colIds")?))
}

// The ids of the table of rules, and of its columns of resources and places.
#[tactic(auto, unfolding(doc_model::specs::MetadataIds::rules_id))]
fn rule_names(alloc: Global) -> Result<(Name, Name, Name), AllocError>
    ensures { IfOk result
        (λ n. (n.0 ≡ rules_id) × ((n.1 ≡ codes "resource") × (n.2 ≡ codes "rulePos"))) }
{
    let rules = name_of(alloc, "_grist_ACLRules")?;
    let resource = name_of(alloc, "resource")?;
    Ok((rules, resource, name_of(alloc, "rulePos")?))
}

// The ids of the columns of rules that hold texts.
fn text_names(alloc: Global) -> Result<(Name, Name, Name), AllocError>
    ensures { IfOk result (λ n. (n.0 ≡ codes "aclFormula")
        × ((n.1 ≡ codes "permissionsText") × (n.2 ≡ codes "memo"))) }
{
    let formula = name_of(alloc, "aclFormula")?;
    let permissions = name_of(alloc, "permissionsText")?;
    Ok((formula, permissions, name_of(alloc, "memo")?))
}

/// Those ids.
///
/// Errors: out of memory.
pub(crate) fn rule_ids(alloc: Global) -> Result<RuleIds, AllocError>
    ensures { IfOk result (λ ids. AreRuleIds ids) }
{
    let (resources, table_id, col_ids) = resource_names(alloc)?;
    let (rules, resource, place) = rule_names(alloc)?;
    let (formula, permissions, memo) = text_names(alloc)?;
    Ok(RuleIds {
        resources,
        table_id,
        col_ids,
        rules,
        resource,
        formula,
        permissions,
        place,
        memo,
    })
}
