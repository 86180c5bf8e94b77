//! The plan of a rename, by a view.

ghost use Rattle.std.specs.Prelude.{◌≡◌, ◌∷◌, [], true, IfOk};
ghost use Rattle.std.specs.List.{list_all};
ghost use Rattle.doc_model.specs.WellFormed.{is_well_formed};
ghost use Rattle.rename_flow.specs.Parts.{with_parts};
ghost use Rattle.rename_flow.specs.Plan.{bare_plan, is_shown, is_table_word, name_parts, plan_of, whole_plan};

use crate::column_parts::add_tables;
use crate::rename_plan::RenamePlan;
use crate::rule_parts::add_rules;
use cell_types::CellText;
use doc_model::{UserAction, UserActionList, View, ViewTable};
use formula_records::find_column;
use rename_marks::ColumnRename;
use std::alloc::{AllocError, Global};

fn rename_of(
    table: &CellText,
    column: &CellText,
    new: &CellText,
) -> Result<ColumnRename, AllocError>
    ensures { IfOk result
        (λ r. r ≡ record { table = table.now; old = column.now; new = new.now }) }
{
    let table = table.clone()?;
    let old = column.clone()?;
    let new = new.clone()?;
    Ok(ColumnRename { table, old, new })
}

fn rename_action(rename: &ColumnRename) -> Result<UserAction, AllocError>
    ensures { IfOk result (λ a. a ∷ [] ≡ (bare_plan rename.now).actions) }
{
    let table = rename.table.clone()?;
    let column = rename.old.clone()?;
    let new = rename.new.clone()?;
    Ok(UserAction::RenameColumn { table, column, new })
}

// The rename alone.
fn bare_plan(alloc: Global, rename: &ColumnRename) -> Result<RenamePlan, AllocError>
    ensures { IfOk result (λ p. p ≡ bare_plan rename.now) }
{
    let mut actions = UserActionList::new(alloc);
    actions.push(rename_action(rename)?)?;
    Ok(RenamePlan {
        actions,
        unresolved: 0,
    })
}

fn is_shown(view: &[ViewTable], table: &str, column: &str) -> bool
    ensures { result ≡ is_shown view.now table.now column.now }
{
    find_column(view, table, column).is_some()
}

#[tactic(auto, unfolding(formula_parse::specs::Grammar::all_word, formula_parse::specs::Grammar::lookup_word))]
fn is_table_word(name: &str) -> bool
    ensures { result ≡ is_table_word name.now }
{
    name == "all" || name == "lookupRecords" || name == "lookupOne"
}

// Counts what stands against the names.
fn add_names(plan: &mut RenamePlan, rename: &ColumnRename, view: &[ViewTable])
    ensures { plan.new ≡ with_parts plan.old (name_parts view.now rename.now) }
{
    plan.count_where(is_shown(view, rename.table.as_str(), rename.new.as_str()));
    plan.count_where(is_table_word(rename.old.as_str()));
    plan.count_where(is_table_word(rename.new.as_str()));
}

#[tactic(auto, using(crate::proofs::PartLemmas::parts_append))]
fn whole_plan(
    alloc: Global,
    rename: &ColumnRename,
    view: &[ViewTable],
) -> Result<RenamePlan, AllocError>
    ensures { IfOk result (λ p. p ≡ whole_plan view.now rename.now) }
{
    let mut plan = bare_plan(alloc, rename)?;
    add_tables(alloc, &mut plan, rename, view)?;
    add_rules(alloc, &mut plan, rename, view)?;
    add_names(&mut plan, rename, view);
    Ok(plan)
}

fn plan_of(
    alloc: Global,
    rename: &ColumnRename,
    view: &[ViewTable],
) -> Result<RenamePlan, AllocError>
    ensures { IfOk result (λ p. p ≡ plan_of view.now rename.now) }
{
    if is_shown(view, rename.table.as_str(), rename.old.as_str()) {
        whole_plan(alloc, rename, view)
    } else {
        bare_plan(alloc, rename)
    }
}

/// What a user asks for by a rename of a column through formulas and rules, told from the user's
/// view alone: the rename; each formula that names the column, by the ids of table and column after
/// the rename; the formulas of rules that name it, and the attributes of users that are looked up
/// in it. With it comes how many uses of the two names cannot be resolved.
///
/// Where the view does not show the column, it is the rename alone.
/// Errors: out of memory.
/// Memory: the new texts. Cost: linear in the texts of formulas and rules, times the view's tables
/// and columns.
pub fn plan_rename(
    alloc: Global,
    view: &View,
    table: &CellText,
    column: &CellText,
    new: &CellText,
) -> Result<RenamePlan, AllocError>
    ensures plan { IfOk result (λ p. p ≡ plan_of view.now.tables
        (record { table = table.now; old = column.now; new = new.now })) }
    ensures well_formed { IfOk result (λ p. list_all is_well_formed p.actions ≡ true) }
{
    let rename = rename_of(table, column, new)?;
    plan_of(alloc, &rename, view.tables.as_slice())
}
