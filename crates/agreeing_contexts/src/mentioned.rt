//! Which fields the formula of a rule asks for.

ghost use Rattle.std.specs.Prelude.{◌≡◌, OnOk};
ghost use Rattle.std.specs.List.{list_any};
ghost use Rattle.formula_parse.specs.Tree.{from_list};
ghost use Rattle.agreeing_contexts.specs.Fields.{atom_fields, formula_fields, gathered, item_fields, same_field, tree_fields, with_field};

use crate::field::{UserField, UserFieldList};
use formula_parse::{ArgumentList, Formula, Node, RuleAtom};
use std::alloc::AllocError;

fn same_field(left: &UserField, right: &UserField) -> bool
    ensures { result ≡ same_field left.now right.now }
{
    left.attribute.as_str() == right.attribute.as_str() && left.name.as_str() == right.name.as_str()
}

fn is_noted(fields: &[UserField], field: &UserField) -> bool
    ensures { result ≡ list_any (λ g. same_field g field.now) fields.now }
{
    fields.iter().any(|other| same_field(other, field))
}

// Adds a field that is new.
fn note(fields: &mut UserFieldList, field: UserField) -> Result<(), AllocError>
    ensures { OnOk result (fields.new ≡ with_field fields.old field) }
{
    if !is_noted(fields.as_slice(), &field) {
        fields.push(field)?;
    }
    Ok(())
}

fn note_atom(fields: &mut UserFieldList, atom: &RuleAtom) -> Result<(), AllocError>
    ensures { OnOk result (fields.new ≡ gathered fields.old (atom_fields atom.now)) }
{
    let RuleAtom::UserAttribute(attribute, name) = atom else {
        return Ok(());
    };
    let attribute = attribute.clone()?;
    match name.clone() {
        Ok(name) => note(fields, UserField { attribute, name }),
        Err(error) => {
            drop(attribute);
            Err(error)
        }
    }
}

// Adds what a formula asks for and was not there.
#[tactic(auto, using(crate::proofs::FieldLemmas::gathered_append))]
#[cycle(fields)]
fn note_tree(fields: &mut UserFieldList, tree: &Formula) -> Result<(), AllocError>
    ensures { OnOk result (fields.new ≡ gathered fields.old (tree_fields tree.now)) }
{
    match tree.node() {
        Node::Binary(_, left, right) => {
            note_tree(fields, left)?;
            note_tree(fields, right)
        }
        Node::Prefix(_, inner) | Node::Parentheses(inner) => note_tree(fields, inner),
        Node::List(items) => note_items(fields, items),
        Node::Rule(atom) => note_atom(fields, atom),
        _ => Ok(()),
    }
}

#[cycle(fields)]
fn note_items(fields: &mut UserFieldList, items: &ArgumentList) -> Result<(), AllocError>
    ensures { OnOk result (fields.new ≡ gathered fields.old (item_fields (from_list items.now))) }
{
    for item in items.as_slice() {
        note_tree(fields, item)?;
    }
    Ok(())
}

/// Adds the fields that a text asks for and that were not there: none, where it is no formula.
///
/// Errors: out of memory.
/// Memory: the new fields. Cost: for each field that it asks for, the fields that are there.
pub fn note_formula(
    fields: &mut UserFieldList,
    formula: &Option<Option<Formula>>,
) -> Result<(), AllocError>
    ensures { OnOk result (fields.new ≡ gathered fields.old (formula_fields formula.now)) }
{
    match formula {
        Some(Some(tree)) => note_tree(fields, tree),
        _ => Ok(()),
    }
}
