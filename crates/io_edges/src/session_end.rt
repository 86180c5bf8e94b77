//! How the service of one connection ended.

/// How the service of one connection ended.
#[derive(Clone, Copy, Debug, PartialEq, Eq)]
pub enum SessionEnd {
    /// The input ended, or an answer closed the session.
    Closed,
    /// Reading failed.
    ReadFault,
    /// Writing failed.
    WriteFault,
    /// So many reads took one byte each that no more are counted.
    TurnsSpent,
    /// The history had no room for the next request.
    Full,
    NoMemory,
}
