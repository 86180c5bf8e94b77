//! The trees of rule formulas.

ghost use Rattle.std.specs.Prelude.{◌≡◌, ◌≤◌, Option, Some, None, IfOk, IfErr, MatchOption};
ghost use Rattle.std.specs.List.{list_any};
ghost use Rattle.formula_parse.specs.Tree.{Tree};
ghost use Rattle.formula_parse.specs.Spelling.{SpellsIn, FitsFault};
ghost use Rattle.formula_parse.specs.declared.operator.Dialect.TheVariants as dialects;
ghost use Rattle.acl_formula.specs.FormulaText.{formula_of, LacksFormula};
ghost use Rattle.acl_formula.specs.Mentions.{mentioned, uses_row, is_about_row};
ghost use Rattle.acl_formula.specs.Room.{whole_room, most_room};

use crate::mention::{Mention, MentionList, note_formula};
use crate::room::room_of;
use formula_parse::{Dialect, Formula, ParseFault, read_tree};
use std::alloc::{AllocError, Global};
use std::marker::Model;

/// A rule's formula. Contracts see its tree, or nothing for a text without tokens.
#[derive(Drop)]
pub struct RuleTree {
    formula: Option<Formula>,
    mentions: MentionList,
    room: usize,
}

impl Model for RuleTree {
    ghost use Rattle.std.specs.Prelude.{◌≡◌, ◌≤◌, Option};
    ghost use Rattle.std.specs.Coded.{coded_option};
    ghost use Rattle.formula_parse.specs.Tree.{Tree};
    ghost use Rattle.formula_parse.specs.TreeCode.{coded_tree};
    ghost use Rattle.acl_formula.specs.Mentions.{mentioned};
    ghost use Rattle.acl_formula.specs.Room.{whole_room, most_room};

    ghost Value = { Option Tree };

    ghost coded = { coded_option coded_tree };

    ghost view = { λ r. r.formula };

    ghost invariant = { λ r. (r.mentions ≡ mentioned r.formula)
        × (r.room ≡ whole_room r.formula) × (r.room ≤ most_room) };
}

impl RuleTree {
    /// What the formula asks for, in the order of its text, each once.
    ///
    /// Memory: none.
    pub fn mentions(&self) -> &[Mention]
        ensures { result.now ≡ mentioned self.now }
    {
        self.mentions.as_slice()
    }

    // The formula, where there is one.
    pub(crate) fn formula(&self) -> Option<&Formula>
        ensures { MatchOption result (self.now ≡ None) (λ f. self.now ≡ Some f.now) }
    {
        self.formula.as_ref()
    }

    // The room that its evaluation needs.
    pub(crate) fn room(&self) -> usize
        ensures room { result ≡ whole_room self.now }
        ensures most { result ≤ most_room }
    {
        self.room
    }

    /// Whether the formula uses `rec` or `newRec`.
    ///
    /// Memory: none.
    pub fn uses_row(&self) -> bool
        ensures { result ≡ uses_row self.now }
    {
        self.mentions
            .as_slice()
            .iter()
            .any(|mention| mention.is_about_row())
    }
}

/// Reads the formula of a rule. A text without tokens is a formula that is always true.
///
/// Units: places count bytes.
/// Errors: `Syntax` where no tree within the limits spells the text; `NoMemory`.
/// Memory: the tokens, the tree and its mentions, and a stack of what is open.
/// Source: docs/FORMULAS.md, "Rules".
pub fn parse_rule(alloc: Global, text: &str) -> Result<RuleTree, ParseFault>
    // The text spells the tree, and no other one.
    ensures spells { IfOk result (λ rule. SpellsIn dialects.Rule text.now rule) }
    ensures only { IfOk result
        (λ rule. (other : Option Tree) → SpellsIn dialects.Rule text.now other → other ≡ rule) }
    ensures fault { IfErr result
        (FitsFault text.now ((o : Option Tree) × SpellsIn dialects.Rule text.now o)) }

    // The same by the function: the tree is the text's formula, and at a fault there is none.
    ensures formula { IfOk result (λ rule. formula_of text.now ≡ Some rule) }
    ensures none { IfErr result (LacksFormula text.now) }
{
    let formula = read_tree(alloc, Dialect::Rule, text)?;
    let mentions = mentions_of(alloc, &formula)?;
    let room = whole_room(&formula);
    Ok(RuleTree {
        formula,
        mentions,
        room,
    })
}

fn mentions_of(alloc: Global, formula: &Option<Formula>) -> Result<MentionList, AllocError>
    ensures { IfOk result (λ mentions. mentions ≡ mentioned formula.now) }
{
    let mut mentions = MentionList::new(alloc);
    if let Some(formula) = formula {
        note_formula(&mut mentions, formula)?;
    }
    Ok(mentions)
}

fn whole_room(formula: &Option<Formula>) -> usize
    requires { whole_room formula.now ≤ most_room }
    ensures { result ≡ whole_room formula.now }
{
    match formula {
        Some(formula) => room_of(formula),
        None => 0,
    }
}
