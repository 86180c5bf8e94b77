//! The stages of a script.

/// What a generator makes next.
///
/// Units: bundles of rows are numbered from 0, and rows from 1.
#[derive(Clone, Copy, Debug)]
pub(crate) enum Stage {
    OpenFirst,
    OpenSecond,
    AddTable,
    AddRule,
    AddRows { number: u32 },
    /// The editor's session is heard before the bundle of that number.
    Pause { number: u32 },
    UpdateRow { row: u32 },
    SyncFirst,
    SyncSecond,
    Done,
}
