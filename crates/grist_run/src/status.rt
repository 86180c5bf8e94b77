//! How a run ends.

use doc_keeper::Keeper;
use doc_model::EntryList;

/// How a run ended. The first event that ends a run decides.
#[derive(Clone, Copy, Debug, Drop, PartialEq, Eq)]
pub enum Status {
    /// The input was read to its end, and every request was answered.
    Done,
    /// The words are of no form.
    Usage,
    /// A user line spells no user, repeats a token, or is one more than there may be.
    ///
    /// Units: lines are numbered from 1.
    BadUsers { line: u64 },
    /// A read failed.
    ReadFault,
    /// A write failed.
    WriteFault,
    /// The keeper failed before its records were loaded.
    StoreFault,
    NoMemory,
    /// A record of the keeper is bad at its place.
    ///
    /// Units: records are numbered from 0.
    BadStore { number: u64 },
    /// As many reads as a run makes each took a byte.
    TurnsSpent,
    /// A port failed. No replay ends so.
    PortFault,
    /// The history has no room for a request.
    HistoryFull,
}

impl Status {
    ghost use Rattle.std.specs.Prelude.{◌≡◌};
    ghost use Rattle.grist_run.specs.Words.{place_of, status_code};

    /// The status with which the program ends.
    ///
    /// Source: docs/PROTOCOL.md, "statuses".
    pub fn code(self) -> u8
        ensures { result ≡ status_code self }
    {
        match self {
            Status::Done => 0,
            Status::Usage => 2,
            Status::BadUsers { .. } => 3,
            Status::ReadFault => 4,
            Status::WriteFault => 5,
            Status::StoreFault => 6,
            Status::NoMemory => 7,
            Status::BadStore { .. } => 8,
            Status::TurnsSpent => 9,
            Status::PortFault => 10,
            Status::HistoryFull => 11,
        }
    }

    /// The number of the bad user line, or of the bad record; else 0.
    pub fn place(self) -> u64
        ensures { result ≡ place_of self }
    {
        match self {
            Status::BadUsers { line } => line,
            Status::BadStore { number } => number,
            _ => 0,
        }
    }
}

/// What a run came to: how it ended, and at which user line or record; the requests that took
/// effect; and the keeper as it is then.
#[derive(Drop)]
pub struct Outcome<K: Keeper> {
    pub status: Status,
    pub at: u64,
    pub history: EntryList,
    pub keeper: K,
}
