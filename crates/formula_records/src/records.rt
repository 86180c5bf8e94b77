//! The tables whose records the value of a formula may hold.

ghost use Rattle.std.specs.Prelude.{◌≡◌, IfOk, OnOk, Option, Some, None, option_map};
ghost use Rattle.std.specs.Option.{option_copied};
ghost use Rattle.formula_parse.specs.Lexemes.{is_id};
ghost use Rattle.formula_parse.specs.Tree.{from_list};
ghost use Rattle.formula_records.specs.Recs.{all_of, by_if, by_if_error, called, combined, constant_recs, field, field_in, leads, recs, recs_each};
ghost use Rattle.formula_records.specs.RecordTables.{only, union};
ghost use Rattle.formula_records.specs.ShownColumns.{as_column, columns_of};

use crate::columns::find_column;
use crate::tables::RecordTables;
use cell_types::{ColType, Name};
use doc_model::{ViewCol, ViewTable};
use formula_parse::{ArgumentList, BinaryOp, Constant, Formula, Node};
use std::alloc::{AllocError, Global};

#[tactic(auto, unfolding(formula_parse::specs::Lexemes::id_word))]
fn is_id(name: &str) -> bool
    ensures { result ≡ is_id name.now }
{
    name == "id"
}

// Adds what a column leads to.
#[tactic(auto, using(crate::proofs::UnionLemmas::union_none))]
fn note_shown(found: &mut RecordTables, column: &ViewCol) -> Result<(), AllocError>
    ensures { OnOk result (found.new ≡ union found.old (leads (Some (as_column column.now)))) }
{
    match &column.ty {
        ColType::Ref(table) | ColType::RefList(table) => found.add(table)?,
        ColType::Any if column.is_formula => found.add_any(),
        _ => {}
    }
    Ok(())
}

// The same of a column by its ids.
#[tactic(auto, using(crate::proofs::UnionLemmas::union_none))]
fn note_column(
    found: &mut RecordTables,
    view: &[ViewTable],
    table: &Name,
    name: &Name,
) -> Result<(), AllocError>
    ensures { OnOk result
        (found.new ≡ union found.old (leads (columns_of view.now table.now name.now))) }
{
    match find_column(view, table.as_str(), name.as_str()) {
        Some(column) => note_shown(found, column),
        None => Ok(()),
    }
}

// Adds what an attribute of records of these tables leads to.
fn note_through(
    found: &mut RecordTables,
    view: &[ViewTable],
    tables: &RecordTables,
    name: &Name,
) -> Result<(), AllocError>
    ensures { OnOk result
        (found.new ≡ union found.old (field_in (columns_of view.now) tables.now name.now)) }
{
    match tables {
        RecordTables::Any => found.add_any(),
        RecordTables::These(names) => {
            for table in names.as_slice() {
                note_column(found, view, table, name)?;
            }
        }
    }
    Ok(())
}

// The same, but for the row's number.
#[tactic(auto, using(crate::proofs::UnionLemmas::union_none))]
fn note_field(
    found: &mut RecordTables,
    view: &[ViewTable],
    tables: &RecordTables,
    name: &Name,
) -> Result<(), AllocError>
    ensures { OnOk result
        (found.new ≡ union found.old (field (columns_of view.now) tables.now name.now)) }
{
    if is_id(name.as_str()) {
        return Ok(());
    }
    note_through(found, view, tables, name)
}

// The same of the row itself.
fn note_own_field(
    alloc: Global,
    found: &mut RecordTables,
    view: &[ViewTable],
    own: &Name,
    name: &Name,
) -> Result<(), AllocError>
    ensures { OnOk result
        (found.new ≡ union found.old (field (columns_of view.now) (only own.now) name.now)) }
{
    let tables = RecordTables::only(alloc, own)?;
    note_field(found, view, &tables, name)
}

#[tactic(auto, using(crate::proofs::UnionLemmas::union_none))]
fn note_constant(found: &mut RecordTables, own: &Name, constant: Constant) -> Result<(), AllocError>
    ensures { OnOk result (found.new ≡ union found.old (constant_recs own.now constant)) }
{
    match constant {
        Constant::Rec => found.add(own),
        _ => Ok(()),
    }
}

// Adds the tables of a formula.
#[tactic(auto, using(crate::proofs::UnionLemmas::union_none))]
#[cycle(records)]
fn note_formula(
    alloc: Global,
    found: &mut RecordTables,
    view: &[ViewTable],
    own: &Name,
    formula: &Formula,
) -> Result<(), AllocError>
    ensures { OnOk result
        (found.new ≡ union found.old (recs (columns_of view.now) own.now formula.now)) }
{
    match formula.node() {
        Node::Constant(constant) => note_constant(found, own, *constant),
        Node::Dollar(name) => note_own_field(alloc, found, view, own, name),
        Node::Binary(BinaryOp::Or | BinaryOp::And | BinaryOp::Add, left, right)
        | Node::Conditional(left, _, right) => note_both(alloc, found, view, own, left, right),
        Node::Parentheses(inner) => note_formula(alloc, found, view, own, inner),
        Node::List(items) => note_items(alloc, found, view, own, items),
        Node::Call(name, arguments) => note_call(alloc, found, view, own, name, arguments),
        Node::Attribute(inner, name) => note_attribute(alloc, found, view, own, inner, name),
        Node::All(table) | Node::Lookup(_, table, _) => found.add(table),
        _ => Ok(()),
    }
}

#[tactic(auto, using(crate::proofs::UnionLemmas::union_assoc))]
#[cycle(records)]
fn note_both(
    alloc: Global,
    found: &mut RecordTables,
    view: &[ViewTable],
    own: &Name,
    left: &Formula,
    right: &Formula,
) -> Result<(), AllocError>
    ensures { OnOk result (found.new ≡ union found.old
        (union (recs (columns_of view.now) own.now left.now)
        (recs (columns_of view.now) own.now right.now))) }
{
    note_formula(alloc, found, view, own, left)?;
    note_formula(alloc, found, view, own, right)
}

#[cycle(records)]
fn note_items(
    alloc: Global,
    found: &mut RecordTables,
    view: &[ViewTable],
    own: &Name,
    items: &ArgumentList,
) -> Result<(), AllocError>
    ensures { OnOk result (found.new ≡ union found.old
        (all_of (recs_each (columns_of view.now) own.now (from_list items.now)))) }
{
    for item in items.as_slice() {
        note_formula(alloc, found, view, own, item)?;
    }
    Ok(())
}

// What IF hands out of its arguments.
#[tactic(auto, using(crate::proofs::ItemLemmas::if_of_others))]
#[cycle(records)]
fn note_if(
    alloc: Global,
    found: &mut RecordTables,
    view: &[ViewTable],
    own: &Name,
    arguments: &[Formula],
) -> Result<(), AllocError>
    ensures { OnOk result (found.new ≡ union found.old
        (by_if (recs_each (columns_of view.now) own.now (from_list arguments.now)))) }
{
    match arguments {
        [_, left, right] => note_both(alloc, found, view, own, left, right),
        _ => Ok(()),
    }
}

// What IFERROR hands out of its arguments.
#[tactic(auto, using(crate::proofs::ItemLemmas::if_error_of_others))]
#[cycle(records)]
fn note_if_error(
    alloc: Global,
    found: &mut RecordTables,
    view: &[ViewTable],
    own: &Name,
    arguments: &[Formula],
) -> Result<(), AllocError>
    ensures { OnOk result (found.new ≡ union found.old
        (by_if_error (recs_each (columns_of view.now) own.now (from_list arguments.now)))) }
{
    match arguments {
        [one] => note_formula(alloc, found, view, own, one),
        [left, right] => note_both(alloc, found, view, own, left, right),
        _ => Ok(()),
    }
}

// What a function hands out of its arguments.
#[tactic(auto, using(crate::proofs::UnionLemmas::union_none), unfolding(crate::specs::Recs::if_word, crate::specs::Recs::if_error_word))]
#[cycle(records)]
fn note_call(
    alloc: Global,
    found: &mut RecordTables,
    view: &[ViewTable],
    own: &Name,
    name: &Name,
    arguments: &ArgumentList,
) -> Result<(), AllocError>
    ensures { OnOk result (found.new ≡ union found.old
        (called name.now (recs_each (columns_of view.now) own.now (from_list arguments.now)))) }
{
    match name.as_str() {
        "IF" => note_if(alloc, found, view, own, arguments.as_slice()),
        "IFERROR" => note_if_error(alloc, found, view, own, arguments.as_slice()),
        _ => Ok(()),
    }
}

#[cycle(records)]
fn note_attribute(
    alloc: Global,
    found: &mut RecordTables,
    view: &[ViewTable],
    own: &Name,
    inner: &Formula,
    name: &Name,
) -> Result<(), AllocError>
    ensures { OnOk result (found.new ≡ union found.old
        (field (columns_of view.now) (recs (columns_of view.now) own.now inner.now) name.now)) }
{
    let mut tables = RecordTables::none(alloc);
    note_formula(alloc, &mut tables, view, own, inner)?;
    note_field(found, view, &tables, name)
}

/// The tables whose records the value of a formula of a table may hold, by the columns that a view
/// shows.
///
/// Errors: out of memory. Memory: the names of the tables, for each attribute on the way.
/// Cost: linear in the formula, times the view's tables and columns.
pub fn recs_of(
    alloc: Global,
    view: &[ViewTable],
    own: &Name,
    formula: &Formula,
) -> Result<RecordTables, AllocError>
    ensures { IfOk result (λ q. q ≡ recs (columns_of view.now) own.now formula.now) }
{
    let mut found = RecordTables::none(alloc);
    note_formula(alloc, &mut found, view, own, formula)?;
    Ok(found)
}
