//! A column's new name in the texts of formulas and rules: which words are replaced, and what the
//! text spells then.
//!
//! Stands on `formula_lex` (tokens and their places), `formula_parse` (trees and how they are
//! written), `unicode_ident` and `cell_types`. Used by `rename_flow`.
//!
//! Promises: specs/Renamed.antt says where a name is replaced in a tree, and specs/Marked.antt
//! which of its lexemes that are. The laws say that a tree with names replaced is as high as it
//! was, of the grammar and with names that are allowed, and that a text with the new name in the
//! places of the marked words, and all else as it was, spells exactly that tree. `rewrite` makes
//! this text.
//! Not promised: that a replaced name means the same; that is for who marks.
//! Read first: specs/Renamed.antt, specs/Marked.antt, then rewriting.rt and laws.rt.
#![tactic(auto)]

mod laws;
mod rewriting;

pub use laws::{rename_laws, respell_law, rewritten_law, text_law};
pub use rewriting::rewrite;
