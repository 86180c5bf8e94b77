//! The tokens of formulas: a text read as the one list of tokens that spells it.
//!
//! Stands on `unicode_ident` (which characters a name may have). Used by `formula_parse`.
//!
//! Promises: `tokens` gives the list that specs/Spelling.antt says, and no other list spells the
//! text; `Bad` comes exactly where no list does. The text is read once, from its start to its end.
//! Not promised: that a name is no reserved word or short enough; the parser tells that.
//! Read first: token.rt, then lexer.rt.
#![tactic(auto)]

mod character;
mod fault;
mod lexer;
mod reading;
mod token;

pub use fault::{LexFault, Stop};
pub use lexer::tokens;
pub use token::{Sign, Token, TokenKind, TokenList, TokenText};
