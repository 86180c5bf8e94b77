//! Tokens, and lists of them.

ghost use Rattle.std.specs.Prelude.{◌≡◌, ◌↔◌, List, [], ◌∷◌, ◌++◌, IfOk, IsTrue, OnOk, OnErr, length, string_bytes};
ghost use Rattle.std.specs.Char.{encode_utf8};
ghost use Rattle.formula_lex.specs.Machine.{put};

use std::alloc::{AllocError, AllocFailed, Global};
use std::marker::Model;

/// A sign of one or two characters.
#[derive(Clone, Copy, Debug)]
pub enum Sign {
    /// `+`
    Plus,
    /// `-`
    Minus,
    /// `*`
    Star,
    /// `//`
    DoubleSlash,
    /// `%`
    Percent,
    /// `==`
    Equal,
    /// `!=`
    NotEqual,
    /// `<`
    Less,
    /// `<=`
    AtMost,
    /// `>`
    More,
    /// `>=`
    AtLeast,
    /// `(`
    Open,
    /// `)`
    Close,
    /// `[`
    OpenList,
    /// `]`
    CloseList,
    /// `,`
    Comma,
    /// `.`
    Point,
    /// `=`
    Assign,
}

/// What a token is.
#[derive(Drop)]
pub enum TokenKind {
    /// Decimal digits, by their value.
    Number(u64),
    /// A string, without its quotes and with its escapes read.
    Text(TokenText),
    /// A word that begins like a name, reserved or not, of any length.
    Name(TokenText),
    /// Such a word directly behind `$`.
    Dollar(TokenText),
    /// A sign.
    Sign(Sign),
}

/// A token, and the bytes of the text that it takes.
///
/// Units: `from` and `to` count bytes; `to` is the place behind the token.
#[derive(Drop)]
pub struct Token {
    pub kind: TokenKind,
    pub from: usize,
    pub to: usize,
}

/// The text of a name or a string. Contracts see its bytes; they are UTF-8.
#[derive(Drop)]
pub struct TokenText {
    text: String,
}

impl Model for TokenText {
    ghost use Rattle.std.specs.Prelude.{List, ℕ, string_bytes};

    ghost Value = { List ℕ };

    ghost view = { λ t. string_bytes t.text };
}

impl TokenText {
    /// The text of no bytes.
    ///
    /// Memory: none.
    pub fn empty(alloc: Global) -> Self
        ensures { result ≡ [] }
    {
        TokenText {
            text: String::new(alloc),
        }
    }

    /// The text as a slice.
    pub fn as_str(&self) -> &str
        ensures { result.now ≡ self.now }
    {
        self.text.as_str()
    }

    /// The string that holds the text.
    ///
    /// Memory: none.
    pub fn into_string(self) -> String
        ensures { string_bytes result ≡ self }
    {
        self.text
    }

    /// Adds a character at the end.
    pub fn push(&mut self, c: char) -> Result<(), AllocError>
        ensures ok { OnOk result (self.new ≡ self.old ++ encode_utf8 c) }
        ensures err { OnErr result (self.new ≡ self.old) }
    {
        self.text.push(c)
    }

    // The text of that one character.
    pub(crate) fn of(alloc: Global, c: char) -> Result<Self, AllocError>
        ensures { IfOk result (λ t. t ≡ encode_utf8 c) }
    {
        let mut text = TokenText::empty(alloc);
        text.push(c)?;
        Ok(text)
    }
}

/// Tokens in the order of the text. Contracts see the list of them.
#[derive(Drop)]
pub struct TokenList {
    tokens: Vec<Token>,
}

impl Model for TokenList {
    ghost use Rattle.std.specs.Prelude.{List};
    ghost use Rattle.std.specs.Coded.{coded_list};
    ghost use Rattle.formula_lex.specs.declared.token.Token.{Token};
    ghost use Rattle.formula_lex.specs.contracts.token.Token as token;

    ghost Value = { List Token };

    ghost coded = { coded_list token.the_row.coded };

    ghost view = { λ l. l.tokens.items };
}

impl TokenList {
    /// The list of no tokens.
    ///
    /// Memory: none.
    pub fn new(alloc: Global) -> Self
        ensures { result ≡ [] }
    {
        TokenList {
            tokens: Vec::new(alloc),
        }
    }

    /// How many tokens there are.
    pub fn len(&self) -> usize
        ensures { result ≡ length self.now }
    {
        self.tokens.len()
    }

    /// Whether there are no tokens.
    pub fn is_empty(&self) -> bool
        ensures { IsTrue result ↔ (self.now ≡ []) }
    {
        self.tokens.is_empty()
    }

    /// The tokens as a slice.
    pub fn as_slice(&self) -> &[Token]
        ensures { result.now ≡ self.now }
    {
        self.tokens.as_slice()
    }

    /// The vector that holds the tokens.
    ///
    /// Memory: none.
    pub fn into_vec(self) -> Vec<Token>
        ensures { result.items ≡ self }
    {
        self.tokens
    }

    // Adds a token at the end.
    pub(crate) fn put(
        &mut self,
        kind: TokenKind,
        from: usize,
        to: usize,
    ) -> Result<(), AllocFailed<Token>>
        ensures { OnOk result (self.new ≡ put self.old kind from to) }
    {
        self.tokens.push(Token { kind, from, to })
    }
}
