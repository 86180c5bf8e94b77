//! What is counted of a document from one action to the next.

ghost use Rattle.std.specs.Prelude.{◌≡◌, ◌≤◌, MatchOption, max, true};
ghost use Rattle.doc_model.specs.Apply.{apply};
ghost use Rattle.doc_model.specs.Counts.{counts};
ghost use Rattle.doc_model.specs.DocumentLaws.{IsWhole};
ghost use Rattle.doc_model.specs.Valid.{valid};
ghost use Rattle.action_limits.specs.Capped.{AreTaken, tally_or_limit};
ghost use Rattle.action_limits.specs.Tallies.{IsTally, IsTallyOrLimit};

use crate::limits::{Counted, are_within, counts_of, first_passed, no_counts};
use crate::maxima::maxima_after;
use crate::moves::after_action;
use doc_model::{DocAction, DocTables, LimitKind};

/// The counted sums of a document, kept from one action to the next: its tables, its cells and
/// their weight in bytes; and whether no table has too many columns or rows, or too great a row id.
#[derive(Clone, Copy)]
pub struct Tally {
    pub tables: u64,
    pub cells: u64,
    pub weight: u64,
    pub within: bool,
}

impl Tally {
    /// That of a document; nothing where its cells or their weight are more than 64 bits can tell,
    /// which no memory holds.
    ///
    /// Memory: none. Cost: a walk over all cells.
    /// Source: docs/DEFINITIONS.md, "action_limits".
    pub fn of<D: DocTables>(tables: &D) -> Option<Tally>
        requires { IsWhole (D.document tables.now) }
        ensures { MatchOption result
            (18446744073709551615 ≤ max (counts (D.document tables.now)).cells
            (counts (D.document tables.now)).weight) (λ t. IsTally (D.document tables.now) t) }
    {
        let counts = counts_of(tables);
        if counts.cells == u64::MAX || counts.weight == u64::MAX {
            return None;
        }
        Some(Tally {
            tables: counts.tables,
            cells: counts.cells,
            weight: counts.weight,
            within: are_within(counts),
        })
    }

    /// That after a valid action, or the first limit that is passed then, from the document before
    /// the action.
    ///
    /// Memory: none. Cost: the rows and values that the action gives, writes or removes; where a
    /// table was above its bounds before, a walk over all tables and columns.
    /// Source: docs/DEFINITIONS.md, "action_limits".
    pub fn after<D: DocTables>(self, tables: &D, action: &DocAction) -> Result<Tally, LimitKind>
        requires whole { IsWhole (D.document tables.now) }
        requires tally { IsTally (D.document tables.now) self }
        requires valid { valid (D.document tables.now) action.now ≡ true }
        ensures { IsTallyOrLimit (apply (D.document tables.now) action.now) result }
    {
        let sums = after_action(tables, sums_of(self), action);
        tally_or_limit(sums, maxima_after(tables, self.within, action))
    }
}

/// The sums of a tally.
pub(crate) fn sums_of(tally: Tally) -> Counted
    ensures { AreTaken tally result }
{
    Counted {
        tables: tally.tables,
        cells: tally.cells,
        weight: tally.weight,
        ..no_counts()
    }
}

/// The tally of these sums where they and the maxima pass no limit, or else the first limit.
pub(crate) fn tally_or_limit(sums: Counted, most: Counted) -> Result<Tally, LimitKind>
    ensures { result ≡ tally_or_limit sums most }
{
    let counts = Counted {
        tables: sums.tables,
        cells: sums.cells,
        weight: sums.weight,
        ..most
    };
    match first_passed(counts) {
        Some(kind) => Err(kind),
        None => Ok(Tally {
            tables: sums.tables,
            cells: sums.cells,
            weight: sums.weight,
            within: true,
        }),
    }
}
