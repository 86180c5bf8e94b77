//! The rules of a document, read from its tables.

ghost use Rattle.std.specs.Prelude.{◌≡◌, IfOk, map, option_and_then, option_copied};
ghost use Rattle.acl_formula.specs.FormulaText.{formula_of};
ghost use Rattle.acl_formula.specs.Permissions.{permissions_of};
ghost use Rattle.acl_rules.specs.Loaded.{book_of, book_rule, resource_at, resource_named, rule_in, or_none, or_empty};
ghost use Rattle.acl_rules.specs.RuleIds.{AreRuleIds};

use crate::book::RuleBook;
use crate::placing::rows_by_place;
use crate::resource::Resource;
use crate::resource_texts::read_resource;
use crate::rule::Rule;
use crate::rule_ids::{RuleIds, rule_ids};
use crate::told_cells::{number_in, row_number, text_in};
use acl_formula::{PermFlags, PermSet, RuleTree, parse_rule, read_permissions};
use cell_types::CellText;
use doc_model::DocReader;
use formula_parse::ParseFault;
use std::alloc::{AllocError, Global};

// What denies everything.
const NOTHING: PermFlags = PermFlags {
    create: false,
    read: false,
    update: false,
    delete: false,
    schema: false,
};

const EVERYTHING: PermFlags = PermFlags {
    create: true,
    read: true,
    update: true,
    delete: true,
    schema: true,
};

// The formula that a text spells, where it spells one.
fn formula_of(alloc: Global, text: &str) -> Result<Option<RuleTree>, AllocError>
    ensures { IfOk result (λ f. f ≡ formula_of text.now) }
{
    match parse_rule(alloc, text) {
        Ok(tree) => Ok(Some(tree)),
        Err(ParseFault::Syntax { .. }) => Ok(None),
        Err(ParseFault::NoMemory) => Err(AllocError),
    }
}

fn formula_in(alloc: Global, text: Option<&str>) -> Result<Option<RuleTree>, AllocError>
    ensures { IfOk result (λ f. f ≡ option_and_then formula_of (option_copied text.entry)) }
{
    match text {
        Some(text) => formula_of(alloc, text),
        None => Ok(None),
    }
}

// What a text allows and denies: all is denied where it does not read.
fn permissions_in(text: Option<&str>) -> PermSet
    ensures { result ≡ or_none (option_and_then permissions_of (option_copied text.entry)) }
{
    let denies_all = PermSet {
        allowed: NOTHING,
        denied: EVERYTHING,
    };
    match text {
        Some(text) => read_permissions(text).unwrap_or(denies_all),
        None => denies_all,
    }
}

fn memo_in(alloc: Global, text: Option<&str>) -> Result<CellText, AllocError>
    ensures { IfOk result (λ m. m ≡ or_empty (option_copied text.entry)) }
{
    CellText::copy_of(alloc, text.unwrap_or(""))
}

// The rule in a row.
fn rule_in<D: DocReader>(
    alloc: Global,
    tables: &D,
    ids: &RuleIds,
    row: u32,
) -> Result<Rule, AllocError>
    requires { AreRuleIds ids.now }
    ensures { IfOk result (λ r. r ≡ rule_in (D.document tables.now) row) }
{
    let permissions = permissions_in(text_in(tables, &ids.rules, &ids.permissions, row));
    let memo = memo_in(alloc, text_in(tables, &ids.rules, &ids.memo, row))?;
    match formula_in(alloc, text_in(tables, &ids.rules, &ids.formula, row)) {
        Ok(formula) => Ok(Rule {
            row,
            formula,
            permissions,
            memo,
        }),
        Err(error) => {
            drop(memo);
            Err(error)
        }
    }
}

// The resource in a row, where its texts read.
fn resource_at<D: DocReader>(
    alloc: Global,
    tables: &D,
    ids: &RuleIds,
    row: u32,
) -> Result<Option<Resource>, AllocError>
    requires { AreRuleIds ids.now }
    ensures { IfOk result (λ r. r ≡ resource_at (D.document tables.now) row) }
{
    let table = text_in(tables, &ids.resources, &ids.table_id, row);
    let columns = text_in(tables, &ids.resources, &ids.col_ids, row);
    match (table, columns) {
        (Some(table), Some(columns)) => read_resource(alloc, table, columns),
        _ => Ok(None),
    }
}

// What the rule in a row is about.
fn resource_named<D: DocReader>(
    alloc: Global,
    tables: &D,
    ids: &RuleIds,
    row: u32,
) -> Result<Option<Resource>, AllocError>
    requires { AreRuleIds ids.now }
    ensures { IfOk result (λ r. r ≡ resource_named (D.document tables.now) row) }
{
    match row_number(number_in(tables, &ids.rules, &ids.resource, row)) {
        Some(named) => resource_at(alloc, tables, ids, named),
        None => Ok(None),
    }
}

fn rules_in<D: DocReader>(
    alloc: Global,
    tables: &D,
    ids: &RuleIds,
    rows: &[(i64, u32)],
) -> Result<Vec<Rule>, AllocError>
    requires { AreRuleIds ids.now }
    ensures { IfOk result
        (λ v. v.items ≡ map (λ p. rule_in (D.document tables.now) p.1) rows.now) }
{
    let mut made = Vec::new(alloc);
    for (_, row) in rows {
        made.push(rule_in(alloc, tables, ids, *row)?)?;
    }
    Ok(made)
}

fn resources_in<D: DocReader>(
    alloc: Global,
    tables: &D,
    ids: &RuleIds,
    rows: &[(i64, u32)],
) -> Result<Vec<Option<Resource>>, AllocError>
    requires { AreRuleIds ids.now }
    ensures { IfOk result
        (λ v. v.items ≡ map (λ p. resource_named (D.document tables.now) p.1) rows.now) }
{
    let mut made = Vec::new(alloc);
    for (_, row) in rows {
        made.push(resource_named(alloc, tables, ids, *row)?)?;
    }
    Ok(made)
}

// The rules in these rows.
fn book_in<D: DocReader>(
    alloc: Global,
    tables: &D,
    ids: &RuleIds,
    rows: &[(i64, u32)],
) -> Result<RuleBook, AllocError>
    requires { AreRuleIds ids.now }
    ensures { IfOk result
        (λ book. book ≡ map (λ p. book_rule (D.document tables.now) p.1) rows.now) }
{
    let rules = rules_in(alloc, tables, ids, rows)?;
    match resources_in(alloc, tables, ids, rows) {
        Ok(resources) => {
            let book = RuleBook::new(alloc, rules, resources)?;
            Ok(book)
        }
        Err(error) => {
            drop(rules);
            Err(error)
        }
    }
}

/// The rules of a document, in the order of their places.
///
/// Errors: out of memory.
/// Memory: the rules, and while it runs a pair of numbers for each. Cost: sorting the rules, and
/// reading their texts.
pub fn load<D: DocReader>(alloc: Global, tables: &D) -> Result<RuleBook, AllocError>
    ensures { IfOk result (λ book. book ≡ book_of (D.document tables.now)) }
{
    let ids = rule_ids(alloc)?;
    let rows = rows_by_place(alloc, tables, &ids)?;
    let book = book_in(alloc, tables, &ids, rows.as_slice())?;
    Ok(book)
}
