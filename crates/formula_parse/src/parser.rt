//! The parser: it takes one token after the other, and keeps what is open on a stack.

ghost use Rattle.std.specs.Prelude.{◌≡◌, ◌≤◌, ℕ, List, [], Option, Some, None, IfOk, IfErr, length};
ghost use Rattle.formula_lex.specs.Places.{IsInOrder};
ghost use Rattle.formula_lex.specs.Lexed.{Gives};
ghost use Rattle.formula_parse.specs.FormulaOf.{formula_of, IsNoneAt};
ghost use Rattle.formula_parse.specs.Parsed.{GivesWithin};
ghost use Rattle.formula_parse.specs.Spelling.{SpellsIn, SpellsFormula, FitsFault};
ghost use Rattle.formula_parse.specs.Runs.{token_step, finish, tree_from};
ghost use Rattle.formula_parse.specs.Tree.{Tree};
ghost use Rattle.formula_parse.specs.declared.operator.Dialect.TheVariants as dialects;

use crate::fault::ParseFault;
use crate::frame::{Mode, Stack};
use crate::lexeme::lexeme_of;
use crate::operator::{Constant, Dialect};
use crate::step::{finish, step};
use crate::tree::{Formula, Node};
use formula_lex::{Stop, Token, tokens};
use std::alloc::Global;

/// How many bytes the text of a formula has at most.
pub const MAX_TEXT_BYTES: usize = 4096;

// What a token makes of what is open.
fn token_stop(
    alloc: Global,
    dialect: Dialect,
    frames: &mut Stack,
    mode: Mode,
    token: &Token,
) -> Result<Mode, Stop>
    ensures { Gives (λ m. (frames.new, m)) result (token_step dialect token.now frames.old mode) }
{
    match lexeme_of(alloc, &token.kind) {
        Ok(lexeme) => step(alloc, dialect, frames, mode, lexeme),
        Err(stop) => {
            drop(mode);
            Err(stop)
        }
    }
}

// The same with the place of the token.
fn token_step(
    alloc: Global,
    dialect: Dialect,
    frames: &mut Stack,
    mode: Mode,
    token: &Token,
) -> Result<Mode, ParseFault>
    ensures { GivesWithin token.now.from (λ m. (frames.new, m)) result
        (token_step dialect token.now frames.old mode) }
{
    match token_stop(alloc, dialect, frames, mode, token) {
        Ok(next) => Ok(next),
        Err(Stop::Bad) => Err(ParseFault::Syntax { at: token.from }),
        Err(Stop::NoMemory) => Err(ParseFault::NoMemory),
    }
}

// What the end at the place makes of what is open.
fn finish_at(
    alloc: Global,
    frames: &mut Stack,
    mode: Mode,
    at: usize,
) -> Result<Formula, ParseFault>
    ensures { GivesWithin at (λ t. t) result (finish frames.old mode) }
{
    match finish(alloc, frames, mode) {
        Ok(tree) => Ok(tree),
        Err(Stop::Bad) => Err(ParseFault::Syntax { at }),
        Err(Stop::NoMemory) => Err(ParseFault::NoMemory),
    }
}

// What the tokens of a text lead to, which ends at the place.
fn run(alloc: Global, dialect: Dialect, tokens: &[Token], end: usize) -> Result<Formula, ParseFault>
    requires { IsInOrder 0 tokens.now end }
    ensures { GivesWithin end (λ t. t) result (tree_from dialect tokens.now) }
{
    let mut frames = Stack::new(alloc);
    let mut mode = Mode::Operand;
    for token in tokens {
        mode = token_step(alloc, dialect, &mut frames, mode, token)?;
    }
    finish_at(alloc, &mut frames, mode, end)
}

/// Reads a formula of the dialect, and nothing where the text has no tokens.
///
/// Units: places count bytes.
/// Errors: `Syntax` where no tree within the limits spells the text; `NoMemory`.
/// Memory: the tokens, the tree, and a stack of what is open.
/// Cost: linear in the text, but for the names of a lookup's keys, each of which is looked for
/// among those before it in a sorted set.
/// Source: docs/FORMULAS.md, "Formulas".
pub fn read_tree(alloc: Global, dialect: Dialect, text: &str) -> Result<Option<Formula>, ParseFault>
    // The text spells the tree, and no other one.
    ensures spells { IfOk result (λ o. SpellsIn dialect text.now o) }
    ensures only { IfOk result
        (λ o. (other : Option Tree) → SpellsIn dialect text.now other → other ≡ o) }
    ensures fault { IfErr result
        (FitsFault text.now ((o : Option Tree) × SpellsIn dialect text.now o)) }
{
    if text.len() > MAX_TEXT_BYTES {
        return Err(ParseFault::Syntax { at: MAX_TEXT_BYTES });
    }
    let list = tokens(alloc, text)?;
    if list.is_empty() {
        return Ok(None);
    }
    let tree = run(alloc, dialect, list.as_slice(), text.len())?;
    Ok(Some(tree))
}

/// Reads the formula of a column. A text without tokens is `None`.
///
/// Units: places count bytes.
/// Errors: `Syntax` where no tree within the limits spells the text; `NoMemory`.
/// Memory: the tokens, the tree, and a stack of what is open.
/// Cost: linear in the text, but for the names of a lookup's keys, each of which is looked for
/// among those before it in a sorted set.
/// Source: docs/FORMULAS.md, "Formulas".
pub fn parse(alloc: Global, text: &str) -> Result<Formula, ParseFault>
    // The text spells the tree, and no other one.
    ensures spells { IfOk result (λ tree. SpellsFormula text.now tree) }
    ensures only { IfOk result
        (λ tree. (other : Tree) → SpellsFormula text.now other → other ≡ tree) }
    ensures fault { IfErr result (FitsFault text.now ((t : Tree) × SpellsFormula text.now t)) }

    // The same by the function: the tree is the text's formula, and at a fault there is none.
    ensures formula { IfOk result (λ tree. formula_of text.now ≡ Some tree) }
    ensures none { IfErr result (λ fault. IsNoneAt fault (formula_of text.now)) }
{
    match read_tree(alloc, Dialect::Formula, text)? {
        Some(tree) => Ok(tree),
        None => Ok(Formula::of(alloc, Node::Constant(Constant::None), 1)?),
    }
}
