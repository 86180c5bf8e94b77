//! Texts in which a new name stands in the places of marked words.

ghost use Rattle.std.specs.Prelude.{◌≡◌, ◌≤◌, ◌++◌, IfOk, OnOk, length};
ghost use Rattle.std.specs.List.{slice_range};
ghost use Rattle.std.specs.Str.{IsUtf8};
ghost use Rattle.formula_lex.specs.Places.{IsInOrder};
ghost use Rattle.formula_lex.specs.Spelling.{SpellsText};
ghost use Rattle.rename_texts.specs.Respelled.{first_mark, other_marks, turned_word};
ghost use Rattle.rename_texts.specs.Rewriting.{replaced, rewritten_text};

use cell_types::CellText;
use formula_lex::{LexFault, Token, TokenKind, tokens};
use std::alloc::{AllocError, Global};

// The mark of the first token.
fn first_mark(marks: &[bool]) -> bool
    ensures { result ≡ first_mark marks.now }
{
    match marks {
        [first, ..] => *first,
        [] => false,
    }
}

// The marks of the others.
fn other_marks(marks: &[bool]) -> &[bool]
    ensures { result.now ≡ other_marks marks.now }
{
    match marks {
        [_, others @ ..] => others,
        [] => &[],
    }
}

// Adds the word of a token, or the new name where it is marked.
fn push_word(
    out: &mut Vec<u8>,
    kind: &TokenKind,
    is_marked: bool,
    word: &[u8],
    new: &[u8],
) -> Result<(), AllocError>
    ensures { OnOk result
        (out.new.items ≡ out.old.items ++ turned_word new.now is_marked kind.now word.now) }
{
    if !is_marked {
        return out.extend_from_slice(word);
    }
    match kind {
        TokenKind::Name(_) => out.extend_from_slice(new),
        TokenKind::Dollar(_) => {
            out.push(b'$')?;
            out.extend_from_slice(new)
        }
        _ => out.extend_from_slice(word),
    }
}

// Adds what stands in front of a token, from a place on, and then its word or the new name.
fn push_token(
    out: &mut Vec<u8>,
    text: &[u8],
    at: usize,
    token: &Token,
    is_marked: bool,
    new: &[u8],
) -> Result<(), AllocError>
    requires from { at ≤ token.now.from }
    requires to { token.now.from ≤ token.now.to }
    requires end { token.now.to ≤ length text.now }
    ensures { OnOk result (out.new.items ≡ out.old.items ++ (slice_range text.now at token.now.from
        ++ turned_word new.now is_marked token.now.kind
        (slice_range text.now token.now.from token.now.to))) }
{
    out.extend_from_slice(&text[at..token.from])?;
    push_word(
        out,
        &token.kind,
        is_marked,
        &text[token.from..token.to],
        new,
    )
}

// The bytes of the text with the new name in the places of the marked tokens.
fn replaced(
    alloc: Global,
    text: &[u8],
    tokens: &[Token],
    marks: &[bool],
    new: &[u8],
) -> Result<Vec<u8>, AllocError>
    requires { IsInOrder 0 tokens.now (length text.now) }
    ensures { IfOk result (λ v. v.items ≡ replaced text.now new.now 0 tokens.now marks.now) }
{
    let mut out = Vec::new(alloc);
    let mut rest = marks;
    let mut at = 0;
    for token in tokens {
        push_token(&mut out, text, at, token, first_mark(rest), new)?;
        rest = other_marks(rest);
        at = token.to;
    }
    out.extend_from_slice(&text[at..])?;
    Ok(out)
}

// The text of bytes that are one.
fn text_of(bytes: Vec<u8>) -> Result<CellText, AllocError>
    requires { IsUtf8 bytes.items }
    ensures { IfOk result (λ t. t ≡ bytes.items) }
{
    match String::from_utf8(bytes) {
        Ok(text) => CellText::from_string(text),
        Err(_) => unreachable!(),
    }
}

// The same of the tokens that the text spells.
fn with_words(
    alloc: Global,
    text: &str,
    tokens: &[Token],
    marks: &[bool],
    new: &str,
) -> Result<CellText, AllocError>
    requires spelled { SpellsText text.now tokens.now }
    requires in_order { IsInOrder 0 tokens.now (length text.now) }
    ensures { IfOk result (λ t. t ≡ replaced text.now new.now 0 tokens.now marks.now) }
{
    let bytes = replaced(alloc, text.as_bytes(), tokens, marks, new.as_bytes())?;
    text_of(bytes)
}

/// A text with the new name in the places of its marked tokens, and all else as it is. There is a
/// mark for each token, in their order; only names are replaced, with or without `$` in front.
///
/// A text that has no tokens stays as it is.
/// Errors: out of memory.
/// Memory: the tokens, and the text twice. Cost: linear in both texts.
#[tactic(auto, unfolding(crate::specs::Rewriting::rewritten_text))]
pub fn rewrite(alloc: Global, text: &str, marks: &[bool], new: &str) -> Result<CellText, AllocError>
    ensures { IfOk result (λ t. t ≡ rewritten_text text.now marks.now new.now) }
{
    match tokens(alloc, text) {
        Ok(tokens) => with_words(alloc, text, tokens.as_slice(), marks, new),
        Err(LexFault::Bad { .. }) => CellText::copy_of(alloc, text),
        Err(LexFault::NoMemory) => Err(AllocError),
    }
}
