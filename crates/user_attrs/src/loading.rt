//! The attributes that a document's rules say.

ghost use Rattle.std.specs.Prelude.{◌≡◌, codes, IfOk};
ghost use Rattle.cell_types.specs.NameLength.{HasNameLength};
ghost use Rattle.doc_model.specs.MetadataIds.{rules_id};
ghost use Rattle.user_attrs.specs.Attributes.{attribute_at, attributes_of, attributes_placed};

use crate::attribute_rule::{AttributeRule, AttributeRules};
use crate::attribute_texts::read_attribute;
use acl_rules::{rules_by_place, text_in};
use cell_types::{CellText, Name};
use doc_model::DocReader;
use std::alloc::{AllocError, Global};

fn name_of(alloc: Global, text: &str) -> Result<Name, AllocError>
    requires { HasNameLength text.now }
    ensures { IfOk result (λ n. n ≡ text.now) }
{
    Ok(Name::new(CellText::copy_of(alloc, text)?))
}

// The ids of the table of rules and of its column of attributes.
#[tactic(auto, unfolding(doc_model::specs::MetadataIds::rules_id))]
fn attribute_ids(alloc: Global) -> Result<(Name, Name), AllocError>
    ensures { IfOk result (λ n. (n.0 ≡ rules_id) × (n.1 ≡ codes "userAttributes")) }
{
    let rules = name_of(alloc, "_grist_ACLRules")?;
    Ok((rules, name_of(alloc, "userAttributes")?))
}

// The attribute that the rule in a row says, where it says one.
fn attribute_at<D: DocReader>(
    alloc: Global,
    tables: &D,
    rules: &Name,
    attributes: &Name,
    row: u32,
) -> Result<Option<AttributeRule>, AllocError>
    requires rules { rules.now ≡ rules_id }
    requires attributes { attributes.now ≡ codes "userAttributes" }
    ensures { IfOk result (λ o. o ≡ attribute_at (D.document tables.now) row) }
{
    match text_in(tables, rules, attributes, row) {
        Some(text) => read_attribute(alloc, text),
        None => Ok(None),
    }
}

fn attributes_placed<D: DocReader>(
    alloc: Global,
    tables: &D,
    rules: &Name,
    attributes: &Name,
    rows: &[(i64, u32)],
) -> Result<AttributeRules, AllocError>
    requires rules { rules.now ≡ rules_id }
    requires attributes { attributes.now ≡ codes "userAttributes" }
    ensures { IfOk result (λ v. v ≡ attributes_placed (D.document tables.now) rows.now) }
{
    let mut made = AttributeRules::new(alloc);
    for (_, row) in rows {
        if let Some(attribute) = attribute_at(alloc, tables, rules, attributes, *row)? {
            made.push(attribute)?;
        }
    }
    Ok(made)
}

/// The attributes that the rules of a document say, in the order of the rules. A rule whose text
/// does not read says none.
///
/// Errors: out of memory.
/// Memory: the attributes, and while it runs a pair of numbers for each rule.
#[tactic(auto, using(crate::proofs::PlacedLemmas::attributes_by_place))]
pub fn load_attributes<D: DocReader>(
    alloc: Global,
    tables: &D,
) -> Result<AttributeRules, AllocError>
    ensures { IfOk result (λ v. v ≡ attributes_of (D.document tables.now)) }
{
    let (rules, attributes) = attribute_ids(alloc)?;
    let rows = rules_by_place(alloc, tables)?;
    attributes_placed(alloc, tables, &rules, &attributes, rows.as_slice())
}
