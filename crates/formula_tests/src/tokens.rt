//! Expected values are worked out by hand from the tokens' description in docs/FORMULAS.md.
//! `reads_tokens` shows kinds, values and places; `refuses_texts` shows where reading ends;
//! `faults_tell_their_place` has the messages.

use crate::texts::is_text;
use formula_lex::{LexFault, Token, TokenKind, tokens};
use std::alloc::{AllocError, Global};

// Adds the token's value.
fn show_kind(out: &mut String, kind: &TokenKind) -> Result<(), AllocError> {
    match kind {
        TokenKind::Number(n) => write!(out, "{n}"),
        TokenKind::Text(text) => write!(out, "'{}'", text.as_str()),
        TokenKind::Name(name) => out.push_str(name.as_str()),
        TokenKind::Dollar(name) => write!(out, "${}", name.as_str()),
        TokenKind::Sign(sign) => write!(out, "{sign:?}"),
    }
}

// Adds the token as its value and its place.
fn show(out: &mut String, token: &Token) -> Result<(), AllocError> {
    show_kind(out, &token.kind)?;
    let from = token.from;
    let to = token.to;
    write!(out, "@{from}-{to} ")
}

fn show_all(alloc: Global, list: &[Token]) -> Result<String, AllocError> {
    let mut out = String::new(alloc);
    for token in list {
        show(&mut out, token)?;
    }
    Ok(out)
}

fn are_shown(alloc: Global, list: &[Token], want: &str) -> bool {
    is_text(&show_all(alloc, list), want)
}

fn are_read(alloc: Global, text: &str, want: &str) -> bool {
    let Ok(list) = tokens(alloc, text) else {
        return false;
    };
    are_shown(alloc, list.as_slice(), want)
}

// Texts, and their tokens with their places.
static TOKENS: [(&str, &str); 15] = [
    ("", ""),
    (" \t\r\n", ""),
    ("007+$A1", "7@0-3 Plus@3-4 $A1@4-7 "),
    ("1if x", "1@0-1 if@1-3 x@4-5 "),
    ("a_1.all", "a_1@0-3 Point@3-4 all@4-7 "),
    ("$id $if", "$id@0-3 $if@4-7 "),
    ("é+ß1", "é@0-2 Plus@2-3 ß1@3-6 "),
    ("9223372036854775807", "9223372036854775807@0-19 "),
    ("'a\"b' \"c'd\"", "'a\"b'@0-5 'c'd'@6-11 "),
    ("'\\\\\\'\\\"\\n\\t'", "'\\'\"\n\t'@0-12 "),
    ("''\"\"", "''@0-2 ''@2-4 "),
    (
        "+-*//%",
        "Plus@0-1 Minus@1-2 Star@2-3 DoubleSlash@3-5 Percent@5-6 ",
    ),
    (
        "==!=<<=>>==",
        "Equal@0-2 NotEqual@2-4 Less@4-5 AtMost@5-7 More@7-8 AtLeast@8-10 Assign@10-11 ",
    ),
    ("= =", "Assign@0-1 Assign@2-3 "),
    (
        "()[],.",
        "Open@0-1 Close@1-2 OpenList@2-3 CloseList@3-4 Comma@4-5 Point@5-6 ",
    ),
];

#[test]
fn reads_tokens(rt: HostRuntime) {
    for row in &TOKENS {
        assert!(rt; are_read(rt.alloc(), row.0, row.1), "at {}", row.0);
    }
}

// Texts, and the places where reading ends.
static REFUSED: [(&str, usize); 17] = [
    ("_a", 0),
    ("1 / 2", 3),
    ("1 ! 2", 3),
    ("$", 1),
    ("$ A", 1),
    ("$1", 1),
    ("'a", 2),
    ("'a\"", 3),
    ("'a\nb'", 2),
    ("'a\rb'", 2),
    ("'a\\xb'", 3),
    ("'\\", 2),
    ("9223372036854775808", 18),
    ("1\u{c}", 1),
    ("1\u{a0}2", 1),
    ("1 # x", 2),
    ("1;", 1),
];

fn ends_at(alloc: Global, text: &str, place: usize) -> bool {
    match &tokens(alloc, text) {
        Err(LexFault::Bad { at }) => *at == place,
        _ => false,
    }
}

#[test]
fn refuses_texts(rt: HostRuntime) {
    for row in &REFUSED {
        assert!(rt; ends_at(rt.alloc(), row.0, row.1), "at {}", row.0);
    }
}

// Faults, and what they tell.
static MESSAGES: [(LexFault, &str); 2] = [
    (LexFault::Bad { at: 17 }, "no token at byte 17"),
    (LexFault::NoMemory, "out of memory"),
];

fn is_told(alloc: Global, fault: LexFault, want: &str) -> bool {
    is_text(&format!(in alloc; "{fault}"), want)
}

#[test]
fn faults_tell_their_place(rt: HostRuntime) {
    for row in &MESSAGES {
        assert!(rt; is_told(rt.alloc(), row.0, row.1), "not {}", row.1);
    }
}
