//! What the rename of a column makes of the rules that a view shows.

ghost use Rattle.std.specs.Prelude.{◌≡◌, ◌+◌, cond, IfOk, OnOk, option_copied};
ghost use Rattle.rename_marks.specs.Noted.{capped};
ghost use Rattle.rename_flow.specs.Parts.{with_part, with_parts};
ghost use Rattle.rename_flow.specs.Plan.{rule_parts};
ghost use Rattle.rename_flow.specs.RuleParts.{attribute_changed, attributes_part, claims, formula_changed, formulas_part, no_changes, rows_part, scoped_change, update_of, with_changes};
ghost use Rattle.rename_flow.specs.ShownRows.{rows_in};
ghost use Rattle.rename_flow.specs.ShownRules.{abouts_in, attributes_in};

use crate::attribute_texts::attribute_change;
use crate::rename_plan::RenamePlan;
use crate::row_changes::RowChanges;
use crate::shown_rows::{cells_at, text_shown};
use crate::shown_rules::{
    RuleAbout, about_of, abouts_in, attribute_shown, attributes_in, claims_new, resource_shown,
};
use crate::text_change::{TextChange, kept, rule_change};
use cell_types::{CellText, CellValue};
use doc_model::{UserAction, UserColumn, UserColumnList, ViewCol, ViewTable};
use formula_records::{RecordTables, find_table};
use rename_marks::{AttributeTable, ColumnRename, FormulaPlace};
use std::alloc::{AllocError, Global};

fn scoped_change(
    alloc: Global,
    rename: &ColumnRename,
    attributes: &[AttributeTable],
    about: Option<&RecordTables>,
    text: Option<&str>,
) -> Result<TextChange, AllocError>
    ensures { IfOk result (λ c. c ≡ scoped_change rename.now attributes.now
        (option_copied about.entry) (option_copied text.entry)) }
{
    match (about, text) {
        (Some(about), Some(text)) => {
            let place = FormulaPlace::Rule(about, attributes);
            rule_change(alloc, rename, &place, text)
        }
        _ => Ok(kept(0)),
    }
}

// The change of the formula of the rule in a row.
fn formula_changed(
    alloc: Global,
    rename: &ColumnRename,
    abouts: &[RuleAbout],
    attributes: &[AttributeTable],
    columns: &[ViewCol],
    cells: &[CellValue],
) -> Result<TextChange, AllocError>
    ensures { IfOk result (λ c. c
        ≡ formula_changed rename.now abouts.now attributes.now columns.now cells.now) }
{
    let about = about_of(abouts, columns, cells);
    scoped_change(
        alloc,
        rename,
        attributes,
        about,
        text_shown(columns, cells, "aclFormula"),
    )
}

// The change of the attribute that the rule in a row says.
fn attribute_changed(
    alloc: Global,
    rename: &ColumnRename,
    columns: &[ViewCol],
    cells: &[CellValue],
) -> Result<TextChange, AllocError>
    ensures { IfOk result (λ c. c ≡ attribute_changed rename.now columns.now cells.now) }
{
    let rule = attribute_shown(alloc, columns, cells)?;
    attribute_change(alloc, rename, &rule)
}

fn formula_changes(
    alloc: Global,
    rename: &ColumnRename,
    abouts: &[RuleAbout],
    attributes: &[AttributeTable],
    rules: Option<&ViewTable>,
) -> Result<RowChanges, AllocError>
    ensures { IfOk result (λ g. g ≡ with_changes
        (formula_changed rename.now abouts.now attributes.now) no_changes
        (rows_in (option_copied rules.entry))) }
{
    let mut changes = RowChanges::new(alloc);
    let Some(table) = rules else {
        return Ok(changes);
    };
    let columns = table.columns.as_slice();
    let rows = table.rows.as_slice();
    for (index, row) in rows.iter().enumerate() {
        let cells = cells_at(table, index);
        let change = formula_changed(alloc, rename, abouts, attributes, columns, cells)?;
        changes.note(*row, change)?;
    }
    Ok(changes)
}

fn attribute_changes(
    alloc: Global,
    rename: &ColumnRename,
    rules: Option<&ViewTable>,
) -> Result<RowChanges, AllocError>
    ensures { IfOk result (λ g. g ≡ with_changes (attribute_changed rename.now) no_changes
        (rows_in (option_copied rules.entry))) }
{
    let mut changes = RowChanges::new(alloc);
    let Some(table) = rules else {
        return Ok(changes);
    };
    let columns = table.columns.as_slice();
    let rows = table.rows.as_slice();
    for (index, row) in rows.iter().enumerate() {
        let change = attribute_changed(alloc, rename, columns, cells_at(table, index))?;
        changes.note(*row, change)?;
    }
    Ok(changes)
}

fn counted(count: u32, test: bool) -> u32
    ensures { result ≡ cond test (capped (count + 1)) count }
{
    if test { count.saturating_add(1) } else { count }
}

fn claims(
    alloc: Global,
    rename: &ColumnRename,
    resources: Option<&ViewTable>,
) -> Result<u32, AllocError>
    ensures { IfOk result (λ n. n ≡ claims rename.now 0 (rows_in (option_copied resources.entry))) }
{
    let Some(table) = resources else {
        return Ok(0);
    };
    let mut count = 0_u32;
    let columns = table.columns.as_slice();
    for index in 0..table.rows.len() {
        let resource = resource_shown(alloc, columns, cells_at(table, index))?;
        count = counted(count, claims_new(rename, &resource));
    }
    Ok(count)
}

// One action for all changes of a column.
#[tactic(auto, unfolding(doc_model::specs::MetadataIds::rules_id))]
fn updated(alloc: Global, column: &str, changes: RowChanges) -> Result<UserAction, AllocError>
    ensures { IfOk result (λ a. a ≡ update_of column.now changes) }
{
    let table = CellText::copy_of(alloc, "_grist_ACLRules")?;
    let id = CellText::copy_of(alloc, column)?;
    let mut columns = UserColumnList::new(alloc);
    columns.push(UserColumn {
        id,
        values: changes.texts,
    })?;
    Ok(UserAction::Update {
        table,
        single: false,
        rows: changes.rows,
        columns,
    })
}

// Adds the changes of a column to a plan.
fn add_changes(
    alloc: Global,
    plan: &mut RenamePlan,
    column: &str,
    changes: RowChanges,
) -> Result<(), AllocError>
    ensures { OnOk result (plan.new ≡ with_part plan.old (rows_part column.now changes)) }
{
    let unresolved = changes.unresolved;
    if changes.rows.is_empty() {
        plan.count(unresolved);
        return Ok(());
    }
    plan.add(updated(alloc, column, changes)?, unresolved)
}

// Adds what becomes of the formulas of rules.
fn add_formulas(
    alloc: Global,
    plan: &mut RenamePlan,
    rename: &ColumnRename,
    resources: Option<&ViewTable>,
    rules: Option<&ViewTable>,
) -> Result<(), AllocError>
    ensures { OnOk result (plan.new ≡ with_part plan.old (formulas_part rename.now
        (abouts_in (rows_in (option_copied resources.entry)))
        (attributes_in (rows_in (option_copied rules.entry)))
        (rows_in (option_copied rules.entry)))) }
{
    let abouts = abouts_in(alloc, resources)?;
    let attributes = attributes_in(alloc, rules)?;
    let changes = formula_changes(
        alloc,
        rename,
        abouts.as_slice(),
        attributes.as_slice(),
        rules,
    )?;
    add_changes(alloc, plan, "aclFormula", changes)
}

// Adds what becomes of the attributes that rules say.
fn add_attributes(
    alloc: Global,
    plan: &mut RenamePlan,
    rename: &ColumnRename,
    rules: Option<&ViewTable>,
) -> Result<(), AllocError>
    ensures { OnOk result (plan.new ≡ with_part plan.old
        (attributes_part rename.now (rows_in (option_copied rules.entry)))) }
{
    let changes = attribute_changes(alloc, rename, rules)?;
    add_changes(alloc, plan, "userAttributes", changes)
}

/// Adds what becomes of the rules that a view shows.
///
/// Errors: out of memory.
#[tactic(auto, unfolding(doc_model::specs::MetadataIds::resources_id, doc_model::specs::MetadataIds::rules_id))]
pub(crate) fn add_rules(
    alloc: Global,
    plan: &mut RenamePlan,
    rename: &ColumnRename,
    view: &[ViewTable],
) -> Result<(), AllocError>
    ensures { OnOk result (plan.new ≡ with_parts plan.old (rule_parts view.now rename.now)) }
{
    let resources = find_table(view, "_grist_ACLResources");
    let rules = find_table(view, "_grist_ACLRules");
    add_formulas(alloc, plan, rename, resources, rules)?;
    add_attributes(alloc, plan, rename, rules)?;
    plan.count(claims(alloc, rename, resources)?);
    Ok(())
}
