//! The ids that a formula names.

ghost use Rattle.std.specs.Prelude.{◌≡◌, ◌++◌, ◌∷◌, [], OnOk, IfOk};
ghost use Rattle.formula_parse.specs.Tree.{from_list, keys_from};
ghost use Rattle.par_recalc.specs.Naming.{named, named_by_all, named_by_keys};

use cell_types::{Name, NameList};
use formula_parse::{ArgumentList, Formula, LookupKey, LookupKeyList, Node};
use std::alloc::{AllocError, Global};

fn push_name(ids: &mut NameList, id: &Name) -> Result<(), AllocError>
    ensures { OnOk result (ids.new ≡ ids.old ++ id.now ∷ []) }
{
    ids.push(id.clone()?)?;
    Ok(())
}

// Adds the ids that stand in a formula as an attribute or as a key of a lookup.
#[tactic(auto, using(crate::proofs::NamingLemmas::append_assoc, crate::proofs::NamingLemmas::append_three))]
#[cycle(names)]
pub(crate) fn push_named(ids: &mut NameList, formula: &Formula) -> Result<(), AllocError>
    ensures { OnOk result (ids.new ≡ ids.old ++ named formula.now) }
{
    match formula.node() {
        Node::Dollar(id) => push_name(ids, id),
        Node::Binary(_, left, right) => {
            push_named(ids, left)?;
            push_named(ids, right)
        }
        Node::Prefix(_, inner) | Node::Parentheses(inner) => push_named(ids, inner),
        Node::Conditional(value, test, other) => {
            push_named(ids, value)?;
            push_named(ids, test)?;
            push_named(ids, other)
        }
        Node::List(items) | Node::Call(_, items) => push_items(ids, items),
        Node::Attribute(inner, id) => {
            push_named(ids, inner)?;
            push_name(ids, id)
        }
        Node::Lookup(_, _, keys) => push_keys(ids, keys),
        _ => Ok(()),
    }
}

#[cycle(names)]
fn push_items(ids: &mut NameList, items: &ArgumentList) -> Result<(), AllocError>
    ensures { OnOk result (ids.new ≡ ids.old ++ named_by_all (from_list items.now)) }
{
    for item in items.as_slice() {
        push_named(ids, item)?;
    }
    Ok(())
}

#[cycle(names)]
fn push_keys(ids: &mut NameList, keys: &LookupKeyList) -> Result<(), AllocError>
    ensures { OnOk result (ids.new ≡ ids.old ++ named_by_keys (keys_from keys.now)) }
{
    for key in keys.as_slice() {
        push_key(ids, key)?;
    }
    Ok(())
}

#[tactic(auto, using(crate::proofs::NamingLemmas::append_assoc))]
#[cycle(names)]
fn push_key(ids: &mut NameList, key: &LookupKey) -> Result<(), AllocError>
    ensures { OnOk result (ids.new ≡ ids.old ++ key.now.name ∷ named key.now.value) }
{
    push_name(ids, &key.name)?;
    push_named(ids, &key.value)
}

/// The ids that a formula names.
pub(crate) fn named_by(alloc: Global, formula: &Formula) -> Result<NameList, AllocError>
    ensures { IfOk result (λ ids. ids ≡ named formula.now) }
{
    let mut ids = NameList::new(alloc);
    push_named(&mut ids, formula)?;
    Ok(ids)
}
