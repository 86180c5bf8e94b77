//! The lexer: it takes one character after the other.

ghost use Rattle.std.specs.Prelude.{◌≡◌, ◌+◌, ◌^◌, ◌<◌, ◌≤◌, List, length, IfOk, IfErr};
ghost use Rattle.std.specs.Char.{len_utf8};
ghost use Rattle.std.specs.List.{All};
ghost use Rattle.std.specs.Str.{chars};
ghost use Rattle.formula_lex.specs.declared.token.Token.{Token};
ghost use Rattle.formula_lex.specs.Lexed.{GivesWithin};
ghost use Rattle.formula_lex.specs.Machine.{step, finish, tokens_in};
ghost use Rattle.formula_lex.specs.Places.{IsInOrder, IsSlice};
ghost use Rattle.formula_lex.specs.Spelling.{SpellsText, FitsFault};

use crate::fault::{LexFault, Stop};
use crate::reading::{Reading, finish, step};
use crate::token::TokenList;
use std::alloc::Global;

// What the character at the place makes of the open token.
fn step_at(
    alloc: Global,
    out: &mut TokenList,
    reading: Reading,
    at: usize,
    c: char,
) -> Result<Reading, LexFault>
    requires { at + len_utf8 c < 2 ^ 64 }
    ensures { GivesWithin at (λ reading. (out.new, reading)) result (step out.old reading at c) }
{
    match step(alloc, out, reading, at, c) {
        Ok(next) => Ok(next),
        Err(Stop::Bad) => Err(LexFault::Bad { at }),
        Err(Stop::NoMemory) => Err(LexFault::NoMemory),
    }
}

// What the end at the place makes of the open token.
fn finish_at(out: &mut TokenList, reading: Reading, at: usize) -> Result<(), LexFault>
    ensures { GivesWithin at (λ _. out.new) result (finish out.old reading at) }
{
    match finish(out, reading, at) {
        Ok(()) => Ok(()),
        Err(Stop::Bad) => Err(LexFault::Bad { at }),
        Err(Stop::NoMemory) => Err(LexFault::NoMemory),
    }
}

// What the characters lead to.
fn run(alloc: Global, text: &str) -> Result<TokenList, LexFault>
    ensures { GivesWithin (length text.now) (λ list. list) result (tokens_in (chars text.now)) }
{
    let mut out = TokenList::new(alloc);
    let mut reading = Reading::Between;
    let mut at = 0;
    for c in text.chars() {
        reading = step_at(alloc, &mut out, reading, at, c)?;
        at += c.len_utf8();
    }
    finish_at(&mut out, reading, at)?;
    Ok(out)
}

/// Reads the tokens of a text.
///
/// Units: places count bytes.
/// Errors: `Bad` where no list of tokens spells the text; `NoMemory`.
/// Memory: the list, and the text of each name and string.
/// Cost: linear in the text; each character is looked at once.
/// Source: docs/FORMULAS.md, "Tokens".
pub fn tokens(alloc: Global, text: &str) -> Result<TokenList, LexFault>
    // The list spells the text, and no other one does.
    ensures spells { IfOk result (λ list. SpellsText text.now list) }
    ensures only { IfOk result
        (λ list. (other : List Token) → SpellsText text.now other → other ≡ list) }

    // Tokens stand one behind the other, and each is written as its slice of the text.
    ensures in_order { IfOk result (λ list. IsInOrder 0 list (length text.now)) }
    ensures slices { IfOk result (λ list. All (IsSlice text.now) list) }
    ensures fault { IfErr result (FitsFault text.now) }
{
    run(alloc, text)
}
