//! Columns that rules read of the row before a change.

ghost use Rattle.std.specs.Prelude.{◌≡◌, IfOk, OnOk, slice_get};
ghost use Rattle.std.specs.List.{list_any};
ghost use Rattle.std.specs.Str.{bytes_eq};
ghost use Rattle.acl_rules.specs.Reading.{columns_read, formula_reads, mentions_read, places_read, read_by, rule_reads, with_name, with_names};

use crate::book::RuleBook;
use acl_formula::{Mention, RuleTree};
use cell_types::{Name, NameList};
use std::alloc::{AllocError, Global};

fn is_noted(names: &[Name], name: &Name) -> bool
    ensures { result ≡ list_any (λ n. bytes_eq n name.now) names.now }
{
    names.iter().any(|other| other.as_str() == name.as_str())
}

fn note_name(names: &mut NameList, name: &Name) -> Result<(), AllocError>
    ensures { OnOk result (names.new ≡ with_name names.old name.now) }
{
    if !is_noted(names.as_slice(), name) {
        names.push(name.clone()?)?;
    }
    Ok(())
}

fn note_mention(names: &mut NameList, mention: &Mention) -> Result<(), AllocError>
    ensures { OnOk result (names.new ≡ with_names names.old (read_by mention.now)) }
{
    match mention {
        Mention::Rec(name) => note_name(names, name),
        Mention::NewRec(_) | Mention::User(_) => Ok(()),
    }
}

#[tactic(auto, using(crate::proofs::ReadingLemmas::names_append))]
fn note_mentions(names: &mut NameList, mentions: &[Mention]) -> Result<(), AllocError>
    ensures { OnOk result (names.new ≡ with_names names.old (mentions_read mentions.now)) }
{
    for mention in mentions {
        note_mention(names, mention)?;
    }
    Ok(())
}

fn note_formula(names: &mut NameList, formula: &Option<RuleTree>) -> Result<(), AllocError>
    ensures { OnOk result (names.new ≡ with_names names.old (formula_reads formula.now)) }
{
    match formula {
        Some(tree) => note_mentions(names, tree.mentions()),
        None => Ok(()),
    }
}

// What the rule at a place reads, if there is one.
fn note_place(names: &mut NameList, book: &RuleBook, place: usize) -> Result<(), AllocError>
    ensures { OnOk result
        (names.new ≡ with_names names.old (rule_reads (slice_get book.now place))) }
{
    match book.rule_at(place) {
        Some((rule, _)) => note_formula(names, &rule.formula),
        None => Ok(()),
    }
}

#[tactic(auto, using(crate::proofs::ReadingLemmas::names_append))]
fn note_places(names: &mut NameList, book: &RuleBook, places: &[usize]) -> Result<(), AllocError>
    ensures { OnOk result (names.new ≡ with_names names.old (places_read book.now places.now)) }
{
    for place in places {
        note_place(names, book, *place)?;
    }
    Ok(())
}

/// The columns that rules about a table, its columns or the document read of the row before a
/// change, each once. What is decided by a chain of the table rests on no other column of that row.
///
/// Errors: out of memory.
/// Memory: the names. Cost: linear in what these rules mention, each time the names so far.
#[tactic(auto, using(crate::proofs::ReadingLemmas::about_read))]
pub fn columns_read(alloc: Global, book: &RuleBook, table: &Name) -> Result<NameList, AllocError>
    ensures { IfOk result (λ names. names ≡ columns_read book.now table.now) }
{
    let mut names = NameList::new(alloc);
    note_places(&mut names, book, book.places_on(table.as_str()))?;
    note_places(&mut names, book, book.places_on_document())?;
    Ok(names)
}
