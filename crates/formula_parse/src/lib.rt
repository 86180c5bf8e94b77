//! Formulas: a text read as the one tree that spells it.
//!
//! Stands on `cell_types` (names and texts) and `formula_lex` (tokens).
//! Used by `formula_eval` (values of formulas).
//!
//! Promises: `parse` gives the tree that specs/Spelling.antt says, no other tree is spelled by the
//! text, and `Syntax` comes exactly where none is, within 4,096 bytes and 256 constructs. The text
//! is read once, with a stack of what is open and no recursion. `formula_of` gives the same tree as
//! a function of the text.
//! Not promised: that a fault's place tells a writer what is wrong; it lies in the text, no more.
//! Read first: operator.rt, tree.rt, then frame.rt and parser.rt.
#![tactic(auto)]

mod fault;
mod frame;
mod laws;
mod lexeme;
mod open_keys;
mod operator;
mod parser;
mod reduce;
mod rule;
mod step;
mod tree;

pub use fault::ParseFault;
pub use laws::formula_law;
pub use operator::{BinaryOp, Constant, Dialect, LookupKind, PrefixOp};
pub use parser::{MAX_TEXT_BYTES, parse, read_tree};
pub use rule::RuleAtom;
pub use tree::{ArgumentList, Formula, LookupKey, LookupKeyList, MAX_HEIGHT, Node};
