//! Texts, seen as their bytes.

ghost use Rattle.std.specs.Prelude.{◌≡◌, ◌==◌, ◌↔◌, [], length, IfOk, IsTrue, string_bytes};
ghost use Rattle.std.proofs.Common.{rules};
ghost use Rattle.std.specs.Cmp.{partial_order_from_own_ties};
ghost use Rattle.std.specs.Cmp.Lexicographic.{slice_cmp, pointwise};
ghost use Rattle.std.specs.Cmp.Rules.{comparing};
ghost use Rattle.std.specs.Ordering.{nat_cmp, as_partial_cmp};

use crate::{Same, Sequence};
use std::alloc::{AllocError, Global};
use std::cmp::Ordering;
use std::marker::Model;
use std::sync::ArcStr;

/// A text of any length. Contracts see its bytes; they are UTF-8.
///
/// A text shares its bytes with its copies, so that a copy takes no memory.
#[derive(Debug, Drop)]
pub struct CellText {
    // Nothing where the text has no bytes.
    shared: Option<ArcStr>,
}

/// Texts in order.
pub type TextList = Sequence<CellText>;

impl Model for CellText {
    ghost use Rattle.std.specs.Prelude.{List, ℕ, []};
    ghost use Rattle.std.specs.Arc.{arc_str_bytes};
    ghost use Rattle.std.specs.Option.{option_map_or};

    ghost Value = { List ℕ };

    ghost view = { λ t. option_map_or arc_str_bytes t.shared [] };
}

impl CellText {
    /// The text of no bytes.
    ///
    /// Memory: none.
    pub fn empty() -> Self
        ensures { result ≡ [] }
    {
        CellText { shared: None }
    }

    /// A copy of a text.
    pub fn copy_of(alloc: Global, text: &str) -> Result<Self, AllocError>
        ensures { IfOk result (λ t. t ≡ text.now) }
    {
        if text.is_empty() {
            return Ok(CellText::empty());
        }
        let shared = ArcStr::from_str(alloc, text)?;
        Ok(CellText {
            shared: Some(shared),
        })
    }

    /// The text of a string, whose bytes it takes over.
    pub fn from_string(text: String) -> Result<Self, AllocError>
        ensures { IfOk result (λ t. t ≡ string_bytes text) }
    {
        let shared = ArcStr::from_string(text)?;
        Ok(CellText {
            shared: Some(shared),
        })
    }

    /// The text as a slice.
    #[inline]
    pub fn as_str(&self) -> &str
        ensures { result.now ≡ self.now }
    {
        match &self.shared {
            Some(text) => text.as_str(),
            None => "",
        }
    }

    /// How many bytes the text has.
    pub fn len(&self) -> usize
        ensures { result ≡ length self.now }
    {
        self.as_str().len()
    }

    /// Whether the text has no bytes.
    pub fn is_empty(&self) -> bool
        ensures { IsTrue result ↔ (self.now ≡ []) }
    {
        self.as_str().is_empty()
    }
}

impl Clone for CellText {
    ghost is_clone = { λ text copy. copy ≡ text };

    fn clone(&self) -> Result<CellText, AllocError> {
        match &self.shared {
            Some(text) => Ok(CellText {
                shared: Some(text.clone()?),
            }),
            None => Ok(CellText::empty()),
        }
    }
}

impl Same for CellText {
    fn same_as(&self, other: &CellText) -> bool {
        self.as_str() == other.as_str()
    }
}

impl PartialEq for CellText {
    ghost eq = { pointwise ◌==◌ };

    ghost laws = { Prim.search (comparing, rules) };

    fn eq(&self, other: &CellText) -> bool {
        self.as_str() == other.as_str()
    }
}

impl Eq for CellText {
    ghost laws = { Prim.search (comparing, rules) };
}

impl Ord for CellText {
    ghost cmp = { slice_cmp nat_cmp };

    ghost total = { Prim.search (comparing, rules) };

    ghost matches_partial_cmp = { Prim.search (comparing, rules) };

    ghost matches_eq = { Prim.search (comparing, rules) };

    fn cmp(&self, other: &CellText) -> Ordering {
        self.as_str().cmp(other.as_str())
    }
}

impl PartialOrd for CellText {
    ghost partial_cmp = { as_partial_cmp (slice_cmp nat_cmp) };

    ghost laws = { partial_order_from_own_ties (Prim.search (comparing, rules))
        (Prim.search (comparing, rules)) };

    fn partial_cmp(&self, other: &CellText) -> Option<Ordering> {
        Some(self.cmp(other))
    }
}
