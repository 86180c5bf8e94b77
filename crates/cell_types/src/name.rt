//! Names of tables, columns and sessions.

ghost use Rattle.std.specs.Prelude.{◌≡◌, ◌==◌, ◌↔◌, length, IsTrue, MatchOption};
ghost use Rattle.std.proofs.Common.{rules};
ghost use Rattle.std.specs.Cmp.{partial_order_from_own_ties};
ghost use Rattle.std.specs.Cmp.Lexicographic.{slice_cmp, pointwise};
ghost use Rattle.std.specs.Cmp.Rules.{comparing};
ghost use Rattle.std.specs.Ordering.{nat_cmp, as_partial_cmp};
ghost use Rattle.std.specs.Str.{chars};
ghost use Rattle.cell_types.specs.NameLength.{HasNameLength};

use crate::{CellText, Same, Sequence};
use std::cmp::Ordering;
use std::marker::Model;

/// How many characters a name has at most.
pub const MAX_NAME_CHARACTERS: usize = 64;

/// The id of a table or a column, or the name of a session: a text of 1 to 64 characters.
///
/// Names that users choose obey the stricter rule of specs/NameRule.antt; the metadata tables and
/// the session of unreadable frames have names that begin with `_`.
#[derive(Clone, Debug, Drop)]
pub struct Name {
    text: CellText,
}

/// Names in order.
pub type NameList = Sequence<Name>;

impl Model for Name {
    ghost use Rattle.std.specs.Prelude.{List, ℕ};
    ghost use Rattle.cell_types.specs.NameLength.{HasNameLength};

    ghost Value = { List ℕ };

    ghost view = { λ n. n.text };

    ghost invariant = { λ n. HasNameLength n.text };
}

impl Name {
    /// The name of that text.
    ///
    /// Memory: none.
    pub fn new(text: CellText) -> Self
        requires { HasNameLength text }
        ensures { result ≡ text }
    {
        Name { text }
    }

    /// The name of that text, or nothing where it has no characters or more than 64.
    ///
    /// Memory: none.
    pub fn try_new(text: CellText) -> Option<Self>
        ensures { MatchOption result (HasNameLength text → ⊥)
            (λ n. (n ≡ text) × HasNameLength text) }
    {
        if has_name_length(text.as_str()) {
            Some(Name { text })
        } else {
            None
        }
    }

    /// The name as a slice.
    #[inline]
    pub fn as_str(&self) -> &str
        ensures value { result.now ≡ self.now }
        ensures length { HasNameLength self.now }
    {
        self.text.as_str()
    }

    /// The text that the name was made of.
    ///
    /// Memory: none.
    pub fn into_text(self) -> CellText
        ensures { result ≡ self }
    {
        self.text
    }
}

impl Same for Name {
    fn same_as(&self, other: &Name) -> bool {
        self.text.same_as(&other.text)
    }
}

impl PartialEq for Name {
    ghost eq = { pointwise ◌==◌ };

    ghost laws = { Prim.search (comparing, rules) };

    fn eq(&self, other: &Name) -> bool {
        self.text == other.text
    }
}

impl Eq for Name {
    ghost laws = { Prim.search (comparing, rules) };
}

impl Ord for Name {
    ghost cmp = { slice_cmp nat_cmp };

    ghost total = { Prim.search (comparing, rules) };

    ghost matches_partial_cmp = { Prim.search (comparing, rules) };

    ghost matches_eq = { Prim.search (comparing, rules) };

    fn cmp(&self, other: &Name) -> Ordering {
        self.text.cmp(&other.text)
    }
}

impl PartialOrd for Name {
    ghost partial_cmp = { as_partial_cmp (slice_cmp nat_cmp) };

    ghost laws = { partial_order_from_own_ties (Prim.search (comparing, rules))
        (Prim.search (comparing, rules)) };

    fn partial_cmp(&self, other: &Name) -> Option<Ordering> {
        Some(self.cmp(other))
    }
}

// Whether a text has 1 to 64 characters.
fn has_name_length(text: &str) -> bool
    ensures { IsTrue result ↔ HasNameLength text.now }
{
    let characters = character_count(text);
    0 < characters && characters <= MAX_NAME_CHARACTERS
}

fn character_count(text: &str) -> usize
    ensures { result ≡ length (chars text.now) }
{
    text.chars().count()
}
