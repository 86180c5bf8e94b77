//! What the rename of a column makes of a text.

ghost use Rattle.std.specs.Prelude.{◌≡◌, ◌+◌, cond, nat_le, length, IfOk, IfSome, Option, option_map};
ghost use Rattle.std.specs.List.{list_any};
ghost use Rattle.formula_parse.specs.FormulaOf.{formula_of};
ghost use Rattle.formula_parse.specs.Spelling.{max_bytes};
ghost use Rattle.rename_marks.specs.Noted.{capped};
ghost use Rattle.rename_marks.specs.Scope.{scope_at};
ghost use Rattle.rename_flow.specs.Changes.{by_marks, formula_change, kept, maybe_change, rewritten, rule_change, rule_tree, tree_change};

use cell_types::CellText;
use formula_parse::{Dialect, Formula, MAX_TEXT_BYTES, ParseFault, parse, read_tree};
use rename_marks::{ColumnRename, FormulaPlace, Marking, mark_formula};
use rename_texts::rewrite;
use std::alloc::{AllocError, Global};

/// The new text, where there is one, and how many uses of names cannot be resolved.
#[derive(Drop)]
pub struct TextChange {
    pub text: Option<CellText>,
    pub unresolved: u32,
}

// A text that stays.
pub(crate) fn kept(unresolved: u32) -> TextChange
    ensures { result ≡ kept unresolved }
{
    TextChange {
        text: None,
        unresolved,
    }
}

#[tactic(auto, unfolding(formula_parse::specs::Spelling::max_bytes))]
fn rewritten(text: CellText, unresolved: u32) -> TextChange
    ensures { result ≡ rewritten text unresolved }
{
    let unresolved = if text.len() <= MAX_TEXT_BYTES {
        unresolved
    } else {
        unresolved.saturating_add(1)
    };
    TextChange {
        text: Some(text),
        unresolved,
    }
}

fn has_marks(marks: &[bool]) -> bool
    ensures { result ≡ list_any (λ m. m) marks.now }
{
    marks.iter().any(|mark| *mark)
}

// The text where names are replaced.
fn by_marks(
    alloc: Global,
    rename: &ColumnRename,
    text: &str,
    marking: &Marking,
) -> Result<TextChange, AllocError>
    ensures { IfOk result (λ c. c
        ≡ by_marks rename.now text.now marking.now.marks marking.now.unresolved) }
{
    let marks = marking.marks.as_slice();
    if !has_marks(marks) {
        return Ok(kept(marking.unresolved));
    }
    let text = rewrite(alloc, text, marks, rename.new.as_str())?;
    Ok(rewritten(text, marking.unresolved))
}

fn tree_change(
    alloc: Global,
    rename: &ColumnRename,
    place: &FormulaPlace<'_>,
    text: &str,
    formula: &Formula,
) -> Result<TextChange, AllocError>
    ensures { IfOk result (λ c. c
        ≡ tree_change rename.now (scope_at place.now) text.now formula.now) }
{
    let marking = mark_formula(alloc, rename, place, formula)?;
    by_marks(alloc, rename, text, &marking)
}

fn maybe_change(
    alloc: Global,
    rename: &ColumnRename,
    place: &FormulaPlace<'_>,
    text: &str,
    formula: &Option<Formula>,
) -> Result<TextChange, AllocError>
    ensures { IfOk result (λ c. c
        ≡ maybe_change rename.now (scope_at place.now) text.now formula.now) }
{
    match formula {
        Some(formula) => tree_change(alloc, rename, place, text, formula),
        None => Ok(kept(0)),
    }
}

// The tree of a column's formula, where its text has one.
fn formula_tree(alloc: Global, text: &str) -> Result<Option<Formula>, AllocError>
    ensures { IfOk result (λ o. o ≡ formula_of text.now) }
{
    match parse(alloc, text) {
        Ok(formula) => Ok(Some(formula)),
        Err(ParseFault::Syntax { .. }) => Ok(None),
        Err(ParseFault::NoMemory) => Err(AllocError),
    }
}

// The tree of a rule's formula, where its text has one.
fn rule_tree(alloc: Global, text: &str) -> Result<Option<Formula>, AllocError>
    ensures { IfOk result (λ o. o ≡ rule_tree text.now) }
{
    match read_tree(alloc, Dialect::Rule, text) {
        Ok(formula) => Ok(formula),
        Err(ParseFault::Syntax { .. }) => Ok(None),
        Err(ParseFault::NoMemory) => Err(AllocError),
    }
}

/// What a rename makes of the formula of a column; one that is hidden counts.
///
/// Errors: out of memory.
pub(crate) fn formula_change(
    alloc: Global,
    rename: &ColumnRename,
    place: &FormulaPlace<'_>,
    formula: &Option<CellText>,
) -> Result<TextChange, AllocError>
    ensures { IfOk result (λ c. c
        ≡ formula_change rename.now (scope_at place.now) formula.now) }
{
    match formula {
        Some(text) => {
            let tree = formula_tree(alloc, text.as_str())?;
            maybe_change(alloc, rename, place, text.as_str(), &tree)
        }
        None => Ok(kept(1)),
    }
}

/// What a rename makes of the formula of a rule.
///
/// Errors: out of memory.
pub(crate) fn rule_change(
    alloc: Global,
    rename: &ColumnRename,
    place: &FormulaPlace<'_>,
    text: &str,
) -> Result<TextChange, AllocError>
    ensures { IfOk result (λ c. c
        ≡ rule_change rename.now (scope_at place.now) text.now) }
{
    let tree = rule_tree(alloc, text)?;
    maybe_change(alloc, rename, place, text, &tree)
}
