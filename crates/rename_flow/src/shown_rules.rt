//! What a view shows of access rules.

ghost use Rattle.std.specs.Prelude.{◌≡◌, ◌++◌, [], IfOk, OnOk, MatchOption, None, Some, bytes_eq, option_copied};
ghost use Rattle.std.specs.List.{list_any};
ghost use Rattle.cell_types.specs.Reference.{row_number};
ghost use Rattle.acl_rules.specs.Chain.{names_column};
ghost use Rattle.acl_rules.specs.Loaded.{resource_from};
ghost use Rattle.user_attrs.specs.AttributeText.{attribute_of};
ghost use Rattle.rename_flow.specs.ShownRows.{rows_in};
ghost use Rattle.rename_flow.specs.ShownRules.{about_at, about_before, about_of, abouts_in, attribute_before, attribute_shown, attributes_in, claims_new, resource_shown, tables_in};

use crate::shown_rows::{cells_at, number_shown, text_shown};
use acl_rules::{Columns, Resource, read_resource};
use cell_types::{CellValue, Name, Sequence};
use doc_model::{ViewCol, ViewTable};
use formula_records::RecordTables;
use rename_marks::{AttributeTable, AttributeTableList, ColumnRename};
use std::alloc::{AllocError, Global};
use user_attrs::{AttributeRule, read_attribute};

/// The tables that the rules of a resource are about, with the row of the resource.
#[derive(Drop)]
pub struct RuleAbout {
    pub row: u32,
    pub tables: RecordTables,
}

/// What rules are about, in the order of the resources.
pub type RuleAboutList = Sequence<RuleAbout>;

fn resource_from(
    alloc: Global,
    table: Option<&str>,
    columns: Option<&str>,
) -> Result<Option<Resource>, AllocError>
    ensures { IfOk result (λ o. o
        ≡ resource_from (option_copied table.entry) (option_copied columns.entry)) }
{
    match (table, columns) {
        (Some(table), Some(columns)) => read_resource(alloc, table, columns),
        _ => Ok(None),
    }
}

/// What the row of a resource says.
pub(crate) fn resource_shown(
    alloc: Global,
    columns: &[ViewCol],
    cells: &[CellValue],
) -> Result<Option<Resource>, AllocError>
    ensures { IfOk result (λ o. o ≡ resource_shown columns.now cells.now) }
{
    let table = text_shown(columns, cells, "tableId");
    resource_from(alloc, table, text_shown(columns, cells, "colIds"))
}

fn tables_in(alloc: Global, resource: &Resource) -> Result<RecordTables, AllocError>
    ensures { IfOk result (λ q. q ≡ tables_in resource.now) }
{
    match resource {
        Resource::Document => Ok(RecordTables::Any),
        Resource::Table(table, _) => RecordTables::only(alloc, table),
    }
}

// Adds what the rules of a resource are about.
fn note_about(
    alloc: Global,
    abouts: &mut RuleAboutList,
    row: u32,
    resource: &Option<Resource>,
) -> Result<(), AllocError>
    ensures { OnOk result (abouts.new ≡ abouts.old ++ about_before row resource.now []) }
{
    if let Some(resource) = resource {
        let tables = tables_in(alloc, resource)?;
        abouts.push(RuleAbout { row, tables })?;
    }
    Ok(())
}

fn abouts_of(alloc: Global, table: &ViewTable) -> Result<RuleAboutList, AllocError>
    ensures { IfOk result (λ l. l ≡ abouts_in (rows_in (Some table.now))) }
{
    let mut abouts = RuleAboutList::new(alloc);
    let columns = table.columns.as_slice();
    let rows = table.rows.as_slice();
    for (index, row) in rows.iter().enumerate() {
        let resource = resource_shown(alloc, columns, cells_at(table, index))?;
        note_about(alloc, &mut abouts, *row, &resource)?;
    }
    Ok(abouts)
}

/// The resources of a table that read, where there is one.
///
/// Errors: out of memory.
pub(crate) fn abouts_in(
    alloc: Global,
    table: Option<&ViewTable>,
) -> Result<RuleAboutList, AllocError>
    ensures { IfOk result (λ l. l ≡ abouts_in (rows_in (option_copied table.entry))) }
{
    match table {
        Some(table) => abouts_of(alloc, table),
        None => Ok(RuleAboutList::new(alloc)),
    }
}

fn about_at(abouts: &[RuleAbout], row: u32) -> Option<&RecordTables>
    ensures { option_copied result ≡ about_at abouts.now row }
{
    for about in abouts {
        if about.row == row {
            return Some(&about.tables);
        }
    }
    None
}

fn row_number(number: i64) -> Option<u32>
    ensures { result ≡ row_number number }
{
    u32::try_from(number).ok()
}

/// The tables that the rule in a row is about, where it is about any.
pub(crate) fn about_of<'a>(
    abouts: &'a [RuleAbout],
    columns: &[ViewCol],
    cells: &[CellValue],
) -> Option<&'a RecordTables>
    ensures { option_copied result ≡ about_of abouts.now columns.now cells.now }
{
    match row_number(number_shown(columns, cells, "resource")) {
        Some(row) => about_at(abouts, row),
        None => None,
    }
}

fn has_name(names: &[Name], name: &str) -> bool
    ensures { result ≡ list_any (λ d. bytes_eq d name.now) names.now }
{
    names.iter().any(|other| other.as_str() == name)
}

fn names_column(columns: &Columns, column: &str) -> bool
    ensures { result ≡ names_column columns.now column.now }
{
    match columns {
        Columns::All => false,
        Columns::These(names) => has_name(names.as_slice(), column),
    }
}

/// Whether a resource is of the renamed table and names the new column.
pub(crate) fn claims_new(rename: &ColumnRename, resource: &Option<Resource>) -> bool
    ensures { result ≡ claims_new rename.now resource.now }
{
    match resource {
        Some(Resource::Table(table, columns)) => {
            table.as_str() == rename.table.as_str() && names_column(columns, rename.new.as_str())
        }
        _ => false,
    }
}

/// The attribute that the rule in a row says, where it says one.
pub(crate) fn attribute_shown(
    alloc: Global,
    columns: &[ViewCol],
    cells: &[CellValue],
) -> Result<Option<AttributeRule>, AllocError>
    ensures { IfOk result (λ o. o ≡ attribute_shown columns.now cells.now) }
{
    match text_shown(columns, cells, "userAttributes") {
        Some(text) => read_attribute(alloc, text),
        None => Ok(None),
    }
}

// Adds the table of an attribute.
fn note_attribute(
    attributes: &mut AttributeTableList,
    rule: &Option<AttributeRule>,
) -> Result<(), AllocError>
    ensures { OnOk result (attributes.new ≡ attributes.old ++ attribute_before rule.now []) }
{
    if let Some(rule) = rule {
        let name = rule.name.clone()?;
        let table = rule.table.clone()?;
        attributes.push(AttributeTable { name, table })?;
    }
    Ok(())
}

fn attributes_of(alloc: Global, table: &ViewTable) -> Result<AttributeTableList, AllocError>
    ensures { IfOk result (λ l. l ≡ attributes_in (rows_in (Some table.now))) }
{
    let mut attributes = AttributeTableList::new(alloc);
    let columns = table.columns.as_slice();
    for index in 0..table.rows.len() {
        let rule = attribute_shown(alloc, columns, cells_at(table, index))?;
        note_attribute(&mut attributes, &rule)?;
    }
    Ok(attributes)
}

/// The tables of the attributes that the rules of a table say, where there is one.
///
/// Errors: out of memory.
pub(crate) fn attributes_in(
    alloc: Global,
    table: Option<&ViewTable>,
) -> Result<AttributeTableList, AllocError>
    ensures { IfOk result (λ l. l ≡ attributes_in (rows_in (option_copied table.entry))) }
{
    match table {
        Some(table) => attributes_of(alloc, table),
        None => Ok(AttributeTableList::new(alloc)),
    }
}
