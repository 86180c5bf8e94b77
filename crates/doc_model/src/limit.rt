//! Limits, and the rules that deny actions.

ghost use Rattle.std.specs.Prelude.{◌≡◌};
ghost use Rattle.doc_model.specs.Counts.{bound_of};

use cell_types::CellText;

/// How many user actions a bundle has at most.
pub const MAX_ACTIONS: u64 = 2_000;

/// How many sessions are open at most.
pub const MAX_SESSIONS: u64 = 1_024;

/// How many tables a document has at most, the metadata tables apart.
pub const MAX_TABLES: u64 = 2_048;

/// How many columns a table has at most.
pub const MAX_COLUMNS: u64 = 1_024;

/// How many rows a table has at most.
pub const MAX_ROWS: u64 = 1_000_000;

/// The last row id.
pub const LAST_ROW_ID: u64 = 4_294_967_295;

/// How many cells a document has at most, those of the schema tables apart.
pub const MAX_CELLS: u64 = 4_000_000;

/// How much the cells and formulas of a document weigh at most, in bytes.
pub const MAX_WEIGHT_BYTES: u64 = 268_435_456;

/// What is counted against a bound.
#[derive(Clone, Copy)]
pub enum LimitKind {
    Actions,
    Sessions,
    Tables,
    Columns,
    Rows,
    RowId,
    Cells,
    Weight,
}

/// The rule that denied an action: its row of `_grist_ACLRules`, 0 for the built-in rule, and its
/// memo.
#[derive(Drop)]
pub struct RuleRef {
    pub row: u32,
    pub memo: CellText,
}

impl LimitKind {
    /// How much of it there may be.
    pub fn bound(self) -> u64
        ensures { result ≡ bound_of self }
    {
        match self {
            LimitKind::Actions => MAX_ACTIONS,
            LimitKind::Sessions => MAX_SESSIONS,
            LimitKind::Tables => MAX_TABLES,
            LimitKind::Columns => MAX_COLUMNS,
            LimitKind::Rows => MAX_ROWS,
            LimitKind::RowId => LAST_ROW_ID,
            LimitKind::Cells => MAX_CELLS,
            LimitKind::Weight => MAX_WEIGHT_BYTES,
        }
    }
}
