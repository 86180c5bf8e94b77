//! Why a request or an action is refused.

ghost use Rattle.std.specs.Prelude.{◌≡◌};
ghost use Rattle.doc_model.specs.Refusals.{refusal_name, refusal_number};

/// Why a request or an action is refused.
///
/// Source: docs/PROTOCOL.md, "refusals".
#[derive(Clone, Copy)]
pub enum Refusal {
    /// The line spells no request.
    BadLine = 1,
    LineTooLong = 2,
    /// The session is not open.
    NotOpen = 3,
    /// The session is open.
    AlreadyOpen = 4,
    /// No user has the token.
    UnknownToken = 5,
    /// The table is not in the view.
    NoSuchTable = 6,
    /// A column is not in the view.
    NoSuchColumn = 7,
    /// A row is not in the view.
    NoSuchRow = 8,
    /// A row stands twice.
    DuplicateRow = 9,
    /// Only the document itself writes that table.
    MetaTable = 10,
    /// A formula gives the column its values.
    FormulaColumn = 11,
    /// A cell cannot hold the value, or a column cannot be as it is said.
    BadValue = 12,
    /// An access rule cannot be as it is said.
    BadRule = 13,
    /// A new id is no name.
    BadName = 14,
    /// A counted quantity would pass its bound.
    Limit = 15,
    NoSuchBundle = 16,
    /// The bundle was undone before.
    AlreadyUndone = 17,
    /// An action that takes the bundle back is not valid.
    UndoStale = 18,
    /// The keeper failed.
    StoreFault = 19,
    /// An access rule denies it.
    Denied = 20,
    /// A line of the session could not be made.
    Lagged = 21,
    /// A renaming meets names that it cannot follow.
    Unresolved = 22,
}

impl Refusal {
    /// The number by which replies tell it.
    pub fn number(self) -> u8
        ensures { result ≡ refusal_number self }
    {
        self as u8
    }

    /// The name by which replies tell it.
    pub fn name(self) -> &'static str
        ensures { result.now ≡ refusal_name self }
    {
        match self {
            Refusal::BadLine => "BadLine",
            Refusal::LineTooLong => "LineTooLong",
            Refusal::NotOpen => "NotOpen",
            Refusal::AlreadyOpen => "AlreadyOpen",
            Refusal::UnknownToken => "UnknownToken",
            Refusal::NoSuchTable => "NoSuchTable",
            Refusal::NoSuchColumn => "NoSuchColumn",
            Refusal::NoSuchRow => "NoSuchRow",
            Refusal::DuplicateRow => "DuplicateRow",
            Refusal::MetaTable => "MetaTable",
            Refusal::FormulaColumn => "FormulaColumn",
            Refusal::BadValue => "BadValue",
            Refusal::BadRule => "BadRule",
            Refusal::BadName => "BadName",
            Refusal::Limit => "Limit",
            Refusal::NoSuchBundle => "NoSuchBundle",
            Refusal::AlreadyUndone => "AlreadyUndone",
            Refusal::UndoStale => "UndoStale",
            Refusal::StoreFault => "StoreFault",
            Refusal::Denied => "Denied",
            Refusal::Lagged => "Lagged",
            Refusal::Unresolved => "Unresolved",
        }
    }
}
