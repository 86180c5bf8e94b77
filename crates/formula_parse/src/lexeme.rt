//! What the grammar tells apart in tokens: a word is a keyword, an allowed name, or nothing.

ghost use Rattle.std.specs.Prelude.{◌≡◌, Bool, Option, Some, None, cond, bytes_eq};
ghost use Rattle.cell_types.specs.NameRule.{is_reserved};
ghost use Rattle.formula_parse.specs.Lexemes.{keyword_of, operator_word, value_word, is_id, is_field};
ghost use Rattle.formula_parse.specs.Runs.{lexeme_of, kept_name};
ghost use Rattle.formula_lex.specs.Lexed.{Gives};

use cell_types::{CellText, Name};
use formula_lex::{Sign, Stop, TokenKind, TokenText};
use std::alloc::Global;

/// A reserved word that the grammar uses.
#[derive(Clone, Copy)]
pub enum Keyword {
    Or,
    And,
    Not,
    In,
    Is,
    If,
    Else,
    True,
    False,
    None,
    Rec,
}

/// A token as the grammar sees it.
#[derive(Drop)]
pub enum Lexeme {
    Number(u64),
    Text(CellText),
    Name(Name),
    Dollar(Name),
    Keyword(Keyword),
    Sign(Sign),
}

// The operator that a word is, or else this.
#[tactic(auto, unfolding(crate::specs::Lexemes::operator_word))]
fn operator_word(word: &str, other: Option<Keyword>) -> Option<Keyword>
    ensures { result ≡ operator_word word.now other }
{
    match word {
        "or" => Some(Keyword::Or),
        "and" => Some(Keyword::And),
        "not" => Some(Keyword::Not),
        "in" => Some(Keyword::In),
        "is" => Some(Keyword::Is),
        "if" => Some(Keyword::If),
        "else" => Some(Keyword::Else),
        _ => other,
    }
}

// The value that a word is.
#[tactic(auto, unfolding(crate::specs::Lexemes::value_word))]
fn value_word(word: &str) -> Option<Keyword>
    ensures { result ≡ value_word word.now }
{
    match word {
        "True" => Some(Keyword::True),
        "False" => Some(Keyword::False),
        "None" => Some(Keyword::None),
        "rec" => Some(Keyword::Rec),
        _ => None,
    }
}

// The keyword that a word is.
#[tactic(auto, unfolding(crate::specs::Lexemes::keyword_of))]
fn keyword_of(word: &str) -> Option<Keyword>
    ensures { result ≡ keyword_of word.now }
{
    operator_word(word, value_word(word))
}

// Whether a word is reserved.
#[tactic(auto, unfolding(cell_types::specs::NameRule::is_reserved, cell_types::specs::NameRule::reserved_words))]
fn is_reserved(word: &str) -> bool
    ensures { result ≡ is_reserved word.now }
{
    const RESERVED: [&str; 37] = [
        "False", "None", "True", "and", "as", "assert", "async", "await", "break", "class",
        "continue", "def", "del", "elif", "else", "except", "finally", "for", "from", "global",
        "if", "import", "in", "is", "lambda", "nonlocal", "not", "or", "pass", "raise", "return",
        "try", "while", "with", "yield", "id", "rec",
    ];
    RESERVED.contains(&word)
}

/// Whether a name is `id`, which columns are asked by and nothing else is called.
#[tactic(auto, unfolding(crate::specs::Lexemes::id_word))]
pub(crate) fn is_id(name: &str) -> bool
    ensures { result ≡ is_id name.now }
{
    name == "id"
}

// A copy of a name that is allowed.
fn kept_name(alloc: Global, word: &TokenText) -> Result<Name, Stop>
    ensures { Gives (λ name. name) result (kept_name word.now) }
{
    if is_reserved(word.as_str()) && !is_id(word.as_str()) {
        return Err(Stop::Bad);
    }
    let text = CellText::copy_of(alloc, word.as_str())?;
    match Name::try_new(text) {
        Some(name) => Ok(name),
        None => Err(Stop::Bad),
    }
}

/// What the grammar sees in a token.
#[tactic(auto, unfolding(crate::specs::Runs::lexeme_of))]
pub(crate) fn lexeme_of(alloc: Global, kind: &TokenKind) -> Result<Lexeme, Stop>
    ensures { Gives (λ lexeme. lexeme) result (lexeme_of kind.now) }
{
    match kind {
        TokenKind::Number(n) => Ok(Lexeme::Number(*n)),
        TokenKind::Text(text) => Ok(Lexeme::Text(CellText::copy_of(alloc, text.as_str())?)),
        TokenKind::Name(word) => match keyword_of(word.as_str()) {
            Some(keyword) => Ok(Lexeme::Keyword(keyword)),
            None => Ok(Lexeme::Name(kept_name(alloc, word)?)),
        },
        TokenKind::Dollar(word) => Ok(Lexeme::Dollar(kept_name(alloc, word)?)),
        TokenKind::Sign(sign) => Ok(Lexeme::Sign(*sign)),
    }
}
