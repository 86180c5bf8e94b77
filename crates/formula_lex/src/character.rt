//! What a character may begin, and what it may stand for inside a token.

ghost use Rattle.std.specs.Prelude.{◌≡◌};
ghost use Rattle.formula_lex.specs.Characters.{escaped, is_plain};
ghost use Rattle.formula_lex.specs.Classes.{class_of, joined, alone};

use crate::token::Sign;
use unicode_ident::is_xid_start;

/// A sign of which a second character may be part.
#[derive(Clone, Copy)]
pub enum Half {
    Slash,
    Bang,
    Equals,
    Less,
    More,
}

/// What a character begins, where no token is open.
#[derive(Clone, Copy)]
pub enum Class {
    Blank,
    Digit,
    Start,
    DollarSign,
    Quote,
    Single(Sign),
    Pair(Half),
    Other,
}

/// The class of a character.
#[tactic(auto, unfolding(crate::specs::Classes::class_of))]
pub fn class_of(c: char) -> Class
    ensures { result ≡ class_of c }
{
    if is_xid_start(c) {
        return Class::Start;
    }
    match c {
        ' ' | '\t' | '\r' | '\n' => Class::Blank,
        '0'..='9' => Class::Digit,
        '$' => Class::DollarSign,
        '\'' | '"' => Class::Quote,
        '+' => Class::Single(Sign::Plus),
        '-' => Class::Single(Sign::Minus),
        '*' => Class::Single(Sign::Star),
        '%' => Class::Single(Sign::Percent),
        '(' => Class::Single(Sign::Open),
        ')' => Class::Single(Sign::Close),
        '[' => Class::Single(Sign::OpenList),
        ']' => Class::Single(Sign::CloseList),
        ',' => Class::Single(Sign::Comma),
        '.' => Class::Single(Sign::Point),
        '/' => Class::Pair(Half::Slash),
        '!' => Class::Pair(Half::Bang),
        '=' => Class::Pair(Half::Equals),
        '<' => Class::Pair(Half::Less),
        '>' => Class::Pair(Half::More),
        _ => Class::Other,
    }
}

/// The sign that the two characters make.
pub fn joined(half: Half, c: char) -> Option<Sign>
    ensures { result ≡ joined half c }
{
    match half {
        Half::Slash => (c == '/').then_some(Sign::DoubleSlash),
        Half::Bang => (c == '=').then_some(Sign::NotEqual),
        Half::Equals => (c == '=').then_some(Sign::Equal),
        Half::Less => (c == '=').then_some(Sign::AtMost),
        Half::More => (c == '=').then_some(Sign::AtLeast),
    }
}

/// The sign that the one character makes.
pub fn alone(half: Half) -> Option<Sign>
    ensures { result ≡ alone half }
{
    match half {
        Half::Slash | Half::Bang => None,
        Half::Equals => Some(Sign::Assign),
        Half::Less => Some(Sign::Less),
        Half::More => Some(Sign::More),
    }
}

/// The character that an escape means.
pub fn escaped(c: char) -> Option<char>
    ensures { result ≡ escaped c }
{
    match c {
        '\\' | '\'' | '"' => Some(c),
        'n' => Some('\n'),
        't' => Some('\t'),
        _ => None,
    }
}

/// Whether a character stands for itself in a string between these quotes.
pub fn is_plain(quote: char, c: char) -> bool
    ensures { result ≡ is_plain quote c }
{
    !(c == quote || c == '\\' || c == '\n' || c == '\r')
}
