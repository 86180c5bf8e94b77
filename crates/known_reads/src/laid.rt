//! What cells read before changes, laid aside until it is recorded again.

ghost use Rattle.std.specs.Prelude.{◌≡◌, ◌+◌, ◌∷◌, ◌++◌, [], MatchOption, length};
ghost use Rattle.known_reads.specs.Laid.{all_laid, all_turned};

use dep_graph::WereReads;
use std::marker::Model;
use std::mem;

/// What cells read before changes, the last change first. It takes no memory to lay more aside,
/// since each change makes room for its own. It is seen as what was noted at each.
#[cycle(laid)]
#[derive(Drop)]
pub struct LaidReads {
    link: Link,
}

#[cycle(laid)]
#[derive(Drop)]
enum Link {
    End,
    More(Vec<WereReads>, Box<LaidReads>),
}

impl Model for LaidReads {
    ghost use Rattle.std.specs.Prelude.{List, ℕ, length};
    ghost use Rattle.dep_graph.specs.Named.{Were};

    ghost Value = { List (List Were) };

    ghost use Rattle.known_reads.specs.Laid.{laid_in};

    ghost view = { λ a. laid_in a.link };

    ghost size = { length };

    ghost use Rattle.std.proofs.Common.{arith, length-append};

    ghost size_decreases = { λ a h. Prim.grind (arith, length-append) };
}

/// What cells read before a change, and room to lay it aside.
#[derive(Drop)]
pub struct ReadsBefore {
    pub were: Vec<WereReads>,
    pub(crate) room: Box<LaidReads>,
}

impl LaidReads {
    /// Nothing.
    ///
    /// Memory: none.
    pub fn none() -> Self
        ensures { result ≡ [] }
    {
        LaidReads { link: Link::End }
    }

    // What lies on what is below.
    fn above(were: Vec<WereReads>, below: Box<LaidReads>) -> Self
        ensures { result ≡ were.items ∷ below.value }
    {
        LaidReads {
            link: Link::More(were, below),
        }
    }

    /// Lays more aside.
    ///
    /// Memory: none.
    pub fn lay(&mut self, before: ReadsBefore)
        ensures { self.new ≡ before.were.items ∷ self.old }
    {
        let ReadsBefore { were, mut room } = before;
        *room = mem::replace(self, LaidReads::none());
        *self = LaidReads::above(were, room);
    }

    /// Hands out what was laid aside last.
    ///
    /// Memory: none.
    pub fn take(&mut self) -> Option<ReadsBefore>
        ensures { MatchOption result ((self.old ≡ []) × (self.new ≡ []))
            (λ top. self.old ≡ top.were.items ∷ self.new) }
    {
        let LaidReads { link } = mem::replace(self, LaidReads::none());
        match link {
            Link::End => None,
            Link::More(were, mut room) => {
                *self = mem::replace(&mut *room, LaidReads::none());
                Some(ReadsBefore { were, room })
            }
        }
    }
}

/// Lays the whole of one on another, so that the order of all is turned.
///
/// Memory: none.
pub(crate) fn turn_over(from: &mut LaidReads, to: &mut LaidReads)
    ensures none { from.new ≡ [] }
    ensures count { length to.new ≡ length to.old + length from.old }
    ensures turned { all_turned to.new ≡ all_turned to.old ++ all_laid from.old }
    ensures laid { all_laid to.new ≡ all_turned from.old ++ all_laid to.old }
{
    'turning: while let Some(top) = from.take() {
        to.lay(top);
    }
}
