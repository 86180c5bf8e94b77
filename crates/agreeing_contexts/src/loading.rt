//! The fields that the rules of a document mention.

ghost use Rattle.std.specs.Prelude.{◌≡◌, [], codes, map, Option, option_and_then, option_copied, IfOk, OnOk};
ghost use Rattle.cell_types.specs.NameLength.{HasNameLength};
ghost use Rattle.doc_model.specs.MetadataIds.{rules_id};
ghost use Rattle.formula_parse.specs.Tree.{Tree};
ghost use Rattle.formula_parse.specs.Spelling.{SpellsIn};
ghost use Rattle.formula_parse.specs.declared.operator.Dialect.TheVariants as dialects;
ghost use Rattle.acl_formula.specs.FormulaText.{formula_of};
ghost use Rattle.acl_rules.specs.Loaded.{book_of, rule_in};
ghost use Rattle.agreeing_contexts.specs.Fields.{formula_fields, gathered, mentioned_fields};
ghost use Rattle.agreeing_contexts.specs.Rows.{row_fields};

use crate::field::UserFieldList;
use crate::mentioned::note_formula;
use acl_formula::{RuleTree, parse_rule};
use acl_rules::{rules_by_place, text_in};
use cell_types::{CellText, Name};
use doc_model::DocReader;
use formula_parse::{Dialect, Formula, ParseFault, read_tree};
use std::alloc::{AllocError, Global};

fn name_of(alloc: Global, text: &str) -> Result<Name, AllocError>
    requires { HasNameLength text.now }
    ensures { IfOk result (λ n. n ≡ text.now) }
{
    Ok(Name::new(CellText::copy_of(alloc, text)?))
}

// The ids of the table of rules and of its column of formulas.
#[tactic(auto, unfolding(doc_model::specs::MetadataIds::rules_id))]
fn formula_ids(alloc: Global) -> Result<(Name, Name), AllocError>
    ensures { IfOk result (λ n. (n.0 ≡ rules_id) × (n.1 ≡ codes "aclFormula")) }
{
    let rules = name_of(alloc, "_grist_ACLRules")?;
    Ok((rules, name_of(alloc, "aclFormula")?))
}

// The tree of a formula. Its text is read once more, since a rule does not lend its tree; so it
// spells that one, and only memory can be wanting.
fn tree_of(alloc: Global, text: &str, rule: &RuleTree) -> Result<Option<Formula>, AllocError>
    requires { (other : Option Tree) → SpellsIn dialects.Rule text.now other → other ≡ rule.now }
    ensures { IfOk result (λ o. o ≡ rule.now) }
{
    match read_tree(alloc, Dialect::Rule, text) {
        Ok(tree) => Ok(tree),
        Err(_) => Err(AllocError),
    }
}

// The formula that a text spells, where it spells one.
fn formula_of(alloc: Global, text: &str) -> Result<Option<Option<Formula>>, AllocError>
    ensures { IfOk result (λ f. f ≡ formula_of text.now) }
{
    match parse_rule(alloc, text) {
        Ok(rule) => Ok(Some(tree_of(alloc, text, &rule)?)),
        Err(ParseFault::Syntax { .. }) => Ok(None),
        Err(ParseFault::NoMemory) => Err(AllocError),
    }
}

fn formula_in(alloc: Global, text: Option<&str>) -> Result<Option<Option<Formula>>, AllocError>
    ensures { IfOk result (λ f. f ≡ option_and_then formula_of (option_copied text.entry)) }
{
    let Some(text) = text else {
        return Ok(None);
    };
    formula_of(alloc, text)
}

// Adds the fields that the rule in a row mentions.
fn note_rule<D: DocReader>(
    alloc: Global,
    tables: &D,
    rules: &Name,
    formulas: &Name,
    row: u32,
    fields: &mut UserFieldList,
) -> Result<(), AllocError>
    requires rules { rules.now ≡ rules_id }
    requires formulas { formulas.now ≡ codes "aclFormula" }
    ensures { OnOk result (fields.new ≡ gathered fields.old
        (formula_fields (rule_in (D.document tables.now) row).formula)) }
{
    let formula = formula_in(alloc, text_in(tables, rules, formulas, row))?;
    note_formula(fields, &formula)
}

// The rows of these pairs.
fn rows_placed(alloc: Global, placed: &[(i64, u32)]) -> Result<Vec<u32>, AllocError>
    ensures { IfOk result (λ l. l.items ≡ map (λ p. p.1) placed.now) }
{
    let mut rows = Vec::with_capacity(alloc, placed.len())?;
    for (_, row) in placed {
        rows.push(*row)?;
    }
    Ok(rows)
}

fn fields_in<D: DocReader>(
    alloc: Global,
    tables: &D,
    rules: &Name,
    formulas: &Name,
    rows: &[u32],
) -> Result<UserFieldList, AllocError>
    requires rules { rules.now ≡ rules_id }
    requires formulas { formulas.now ≡ codes "aclFormula" }
    ensures { IfOk result (λ v. v ≡ gathered [] (row_fields (D.document tables.now) rows.now)) }
{
    let mut fields = UserFieldList::new(alloc);
    for row in rows {
        note_rule(alloc, tables, rules, formulas, *row, &mut fields)?;
    }
    Ok(fields)
}

/// The fields of the rows of attributes that the rules of a document mention, in the order of the
/// rules, each once. A rule whose formula does not read mentions none.
///
/// Errors: out of memory.
/// Memory: the fields, and while it runs three numbers for each rule and one formula. Cost:
/// sorting the rules, and reading their formulas.
#[tactic(auto, using(crate::proofs::LoadedLemmas::placed_mentioned))]
pub fn load_fields<D: DocReader>(alloc: Global, tables: &D) -> Result<UserFieldList, AllocError>
    ensures { IfOk result (λ v. v ≡ mentioned_fields (book_of (D.document tables.now))) }
{
    let (rules, formulas) = formula_ids(alloc)?;
    let placed = rules_by_place(alloc, tables)?;
    let rows = rows_placed(alloc, placed.as_slice())?;
    fields_in(alloc, tables, &rules, &formulas, rows.as_slice())
}
