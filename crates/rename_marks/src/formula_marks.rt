//! What the rename of a column makes of a formula.

ghost use Rattle.std.specs.Prelude.{◌≡◌, IfOk, OnOk, length};
ghost use Rattle.formula_parse.specs.Grammar.{op_lexemes};
ghost use Rattle.formula_parse.specs.Seen.{keys_of};
ghost use Rattle.formula_parse.specs.Tree.{atom, conditional, from_list, keys_from};
ghost use Rattle.rename_texts.specs.Marked.{marks};
ghost use Rattle.rename_marks.specs.Noted.{capped, stayed, used, walked, walked_items, walked_keys, walked_more, walked_more_keys, with_key};
ghost use Rattle.rename_marks.specs.Scope.{rename_in, scope_at, tables_of};
ghost use Rattle.rename_marks.specs.ScopeUses.{uses};
ghost use Rattle.rename_marks.specs.Uses.{unresolved_among, use_of};

use crate::column_rename::ColumnRename;
use crate::formula_place::{AttributeTable, FormulaPlace};
use crate::marking::Marking;
use cell_types::{Name, NameList};
use formula_parse::{BinaryOp, Formula, LookupKey, Node, RuleAtom};
use formula_records::{RecordTables, recs_of};
use std::alloc::{AllocError, Global};

// How many lexemes an operator has.
fn op_len(op: BinaryOp) -> usize
    ensures { result ≡ length (op_lexemes op) }
{
    match op {
        BinaryOp::NotIn | BinaryOp::IsNot => 2,
        _ => 1,
    }
}

// The tables where attributes of that name find their rows.
fn tables_of(
    alloc: Global,
    attributes: &[AttributeTable],
    name: &Name,
) -> Result<RecordTables, AllocError>
    ensures { IfOk result (λ q. q ≡ tables_of attributes.now name.now) }
{
    let mut tables = NameList::new(alloc);
    for attribute in attributes {
        if attribute.name.as_str() == name.as_str() {
            tables.push(attribute.table.clone()?)?;
        }
    }
    Ok(RecordTables::These(tables))
}

// Notes a name of the row of `$`.
fn note_own(
    alloc: Global,
    found: &mut Marking,
    rename: &ColumnRename,
    place: &FormulaPlace<'_>,
    name: &Name,
) -> Result<(), AllocError>
    ensures { OnOk result
        (found.new ≡ used rename.now found.old (use_of (scope_at place.now).own name.now)) }
{
    match place {
        FormulaPlace::Column(_, own) => found.note(rename, &RecordTables::only(alloc, own)?, name),
        FormulaPlace::Rule(_, _) => found.note(rename, &RecordTables::none(alloc), name),
    }
}

// Notes a name of the rows of a rule.
fn note_row(
    alloc: Global,
    found: &mut Marking,
    rename: &ColumnRename,
    place: &FormulaPlace<'_>,
    name: &Name,
) -> Result<(), AllocError>
    ensures { OnOk result
        (found.new ≡ used rename.now found.old (use_of (scope_at place.now).row name.now)) }
{
    match place {
        FormulaPlace::Column(_, _) => found.note(rename, &RecordTables::none(alloc), name),
        FormulaPlace::Rule(about, _) => found.note(rename, about, name),
    }
}

// Notes a name of the row that an attribute of users finds.
fn note_field(
    alloc: Global,
    found: &mut Marking,
    rename: &ColumnRename,
    place: &FormulaPlace<'_>,
    attribute: &Name,
    name: &Name,
) -> Result<(), AllocError>
    ensures { OnOk result (found.new
        ≡ used rename.now found.old (use_of ((scope_at place.now).found attribute.now) name.now)) }
{
    match place {
        FormulaPlace::Column(_, _) => found.note(rename, &RecordTables::none(alloc), name),
        FormulaPlace::Rule(_, attributes) => {
            found.note(rename, &tables_of(alloc, attributes, attribute)?, name)
        }
    }
}

// Notes a name of the value of an expression. What it holds is asked for the two names alone.
#[tactic(auto, using(crate::proofs::NotedLemmas::other_names))]
fn note_attribute(
    alloc: Global,
    found: &mut Marking,
    rename: &ColumnRename,
    place: &FormulaPlace<'_>,
    inner: &Formula,
    name: &Name,
) -> Result<(), AllocError>
    ensures { OnOk result (found.new
        ≡ used rename.now found.old (use_of ((scope_at place.now).value inner.now) name.now)) }
{
    if name.as_str() != rename.old.as_str() && name.as_str() != rename.new.as_str() {
        return found.skip(1);
    }
    match place {
        FormulaPlace::Column(view, own) => {
            found.note(rename, &recs_of(alloc, view, own, inner)?, name)
        }
        FormulaPlace::Rule(_, _) => found.note(rename, &RecordTables::none(alloc), name),
    }
}

// Notes what an atom of a rule asks for.
#[tactic(auto, using(crate::proofs::WalkLemmas::atoms))]
fn note_atom(
    alloc: Global,
    found: &mut Marking,
    rename: &ColumnRename,
    place: &FormulaPlace<'_>,
    asked: &RuleAtom,
) -> Result<(), AllocError>
    ensures { OnOk result
        (found.new ≡ walked rename.now (scope_at place.now) found.old (atom asked.now)) }
{
    match asked {
        RuleAtom::Owner | RuleAtom::Editor | RuleAtom::Viewer => found.skip(1),
        RuleAtom::User(_) => found.skip(3),
        RuleAtom::UserAttribute(attribute, name) => {
            found.skip(4)?;
            note_field(alloc, found, rename, place, attribute, name)
        }
        RuleAtom::Rec(name) | RuleAtom::NewRec(name) => {
            found.skip(2)?;
            note_row(alloc, found, rename, place, name)
        }
    }
}

// Notes what is in a formula.
#[tactic(auto, using(crate::proofs::WalkLemmas::formulas))]
#[cycle(marks)]
fn note_formula(
    alloc: Global,
    found: &mut Marking,
    rename: &ColumnRename,
    place: &FormulaPlace<'_>,
    formula: &Formula,
) -> Result<(), AllocError>
    ensures { OnOk result
        (found.new ≡ walked rename.now (scope_at place.now) found.old formula.now) }
{
    match formula.node() {
        Node::Dollar(name) => note_own(alloc, found, rename, place, name),
        Node::Binary(op, left, right) => {
            note_formula(alloc, found, rename, place, left)?;
            found.skip(op_len(*op))?;
            note_formula(alloc, found, rename, place, right)
        }
        Node::Prefix(_, inner) => {
            found.skip(1)?;
            note_formula(alloc, found, rename, place, inner)
        }
        Node::Conditional(value, condition, other) => {
            note_conditional(alloc, found, rename, place, value, condition, other)
        }
        Node::Parentheses(inner) => {
            found.skip(1)?;
            note_formula(alloc, found, rename, place, inner)?;
            found.skip(1)
        }
        Node::List(items) => note_listed(alloc, found, rename, place, 1, items.as_slice()),
        Node::Call(_, arguments) => {
            note_listed(alloc, found, rename, place, 2, arguments.as_slice())
        }
        Node::Attribute(inner, name) => {
            note_formula(alloc, found, rename, place, inner)?;
            found.skip(1)?;
            note_attribute(alloc, found, rename, place, inner, name)
        }
        Node::All(_) => found.skip(3),
        Node::Lookup(_, table, keys) => {
            found.skip(4)?;
            note_keys(alloc, found, rename, place, table, keys.as_slice())?;
            found.skip(1)
        }
        Node::Rule(asked) => note_atom(alloc, found, rename, place, asked),
        Node::Number(_) | Node::Text(_) | Node::Constant(_) => found.skip(1),
    }
}

// Notes what is in a conditional formula.
#[tactic(auto, using(crate::proofs::WalkLemmas::walked_conditional))]
#[cycle(marks)]
fn note_conditional(
    alloc: Global,
    found: &mut Marking,
    rename: &ColumnRename,
    place: &FormulaPlace<'_>,
    value: &Formula,
    condition: &Formula,
    other: &Formula,
) -> Result<(), AllocError>
    ensures { OnOk result (found.new ≡ walked rename.now (scope_at place.now) found.old
        (conditional value.now condition.now other.now)) }
{
    note_formula(alloc, found, rename, place, value)?;
    found.skip(1)?;
    note_formula(alloc, found, rename, place, condition)?;
    found.skip(1)?;
    note_formula(alloc, found, rename, place, other)
}

// Notes so many lexemes, what is in formulas, and what closes them.
#[cycle(marks)]
fn note_listed(
    alloc: Global,
    found: &mut Marking,
    rename: &ColumnRename,
    place: &FormulaPlace<'_>,
    before: usize,
    items: &[Formula],
) -> Result<(), AllocError>
    ensures { OnOk result (found.new ≡ stayed (walked_items rename.now (scope_at place.now)
        (stayed found.old before) (from_list items.now)) 1) }
{
    found.skip(before)?;
    note_items(alloc, found, rename, place, items)?;
    found.skip(1)
}

// Notes what is in formulas with commas between them.
#[tactic(auto, using(crate::proofs::WalkLemmas::items))]
#[cycle(marks)]
fn note_items(
    alloc: Global,
    found: &mut Marking,
    rename: &ColumnRename,
    place: &FormulaPlace<'_>,
    items: &[Formula],
) -> Result<(), AllocError>
    ensures { OnOk result (found.new
        ≡ walked_items rename.now (scope_at place.now) found.old (from_list items.now)) }
{
    match items {
        [first, others @ ..] => {
            note_formula(alloc, found, rename, place, first)?;
            note_more_items(alloc, found, rename, place, others)
        }
        [] => Ok(()),
    }
}

// The same with a comma in front of each.
#[cycle(marks)]
fn note_more_items(
    alloc: Global,
    found: &mut Marking,
    rename: &ColumnRename,
    place: &FormulaPlace<'_>,
    items: &[Formula],
) -> Result<(), AllocError>
    ensures { OnOk result (found.new
        ≡ walked_more rename.now (scope_at place.now) found.old (from_list items.now)) }
{
    for item in items {
        found.skip(1)?;
        note_formula(alloc, found, rename, place, item)?;
    }
    Ok(())
}

// Notes a key of a lookup in the table, and what is in its value.
#[cycle(marks)]
fn note_key(
    alloc: Global,
    found: &mut Marking,
    rename: &ColumnRename,
    place: &FormulaPlace<'_>,
    table: &Name,
    key: &LookupKey,
) -> Result<(), AllocError>
    ensures { OnOk result (found.new ≡ with_key rename.now (scope_at place.now) table.now found.old
        key.now.name key.now.value) }
{
    found.note(rename, &RecordTables::only(alloc, table)?, &key.name)?;
    found.skip(1)?;
    note_formula(alloc, found, rename, place, &key.value)
}

// Notes keys with commas between them.
#[tactic(auto, using(crate::proofs::WalkLemmas::keys))]
#[cycle(marks)]
fn note_keys(
    alloc: Global,
    found: &mut Marking,
    rename: &ColumnRename,
    place: &FormulaPlace<'_>,
    table: &Name,
    keys: &[LookupKey],
) -> Result<(), AllocError>
    ensures { OnOk result (found.new ≡ walked_keys rename.now (scope_at place.now) table.now
        found.old (keys_from (keys_of keys.now))) }
{
    match keys {
        [first, others @ ..] => {
            note_key(alloc, found, rename, place, table, first)?;
            note_more_keys(alloc, found, rename, place, table, others)
        }
        [] => Ok(()),
    }
}

// The same with a comma in front of each.
#[cycle(marks)]
fn note_more_keys(
    alloc: Global,
    found: &mut Marking,
    rename: &ColumnRename,
    place: &FormulaPlace<'_>,
    table: &Name,
    keys: &[LookupKey],
) -> Result<(), AllocError>
    ensures { OnOk result (found.new ≡ walked_more_keys rename.now (scope_at place.now) table.now
        found.old (keys_from (keys_of keys.now))) }
{
    for key in keys {
        found.skip(1)?;
        note_key(alloc, found, rename, place, table, key)?;
    }
    Ok(())
}

/// What the rename of a column makes of a formula: a mark for each of its lexemes, and how many of
/// its uses of names cannot be resolved.
///
/// Errors: out of memory. Memory: the marks, and the names of tables for one use at a time.
/// Cost: linear in the formula, and again in what stands in front of each of the two names where it
/// is an attribute, times the view's tables and columns.
pub fn mark_formula(
    alloc: Global,
    rename: &ColumnRename,
    place: &FormulaPlace<'_>,
    formula: &Formula,
) -> Result<Marking, AllocError>
    ensures marks { IfOk result (λ m. m.marks
        ≡ marks (rename_in rename.now (scope_at place.now)) formula.now) }
    ensures unresolved { IfOk result (λ m. m.unresolved
        ≡ capped (unresolved_among rename.now (uses (scope_at place.now) formula.now))) }
{
    let mut found = Marking::new(alloc);
    note_formula(alloc, &mut found, rename, place, formula)?;
    Ok(found)
}
