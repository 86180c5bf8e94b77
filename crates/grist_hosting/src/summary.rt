//! The line that tells what a server did, written into room that was taken before.
ghost use Rattle.std.specs.Prelude.{◌≡◌, ◌≤◌, [], vec_capacity};
ghost use Rattle.grist_hosting.specs.Summary.{summary_line};

use grist_run::{append, append_number};

/// How many bytes the line has at most.
pub(crate) const SUMMARY_BYTES: usize = 192;

/// What a server did: its accepted bundles, its connections, and the entries of its history.
#[derive(Clone, Copy)]
pub(crate) struct Summary {
    pub bundles: u64,
    pub connections: u64,
    pub entries: u64,
}

/// Writes the line into a vector that has room for it.
///
/// Memory: none.
pub(crate) fn append_summary(line: &mut Vec<u8>, summary: Summary)
    requires empty { line.old.items ≡ [] }
    requires room { 192 ≤ vec_capacity line.old }
    ensures { line.new.items
        ≡ summary_line summary.bundles summary.connections summary.entries }
{
    append(line, b"{\"bundles\":");
    append_number(line, summary.bundles);
    append(line, b",\"connections\":");
    append_number(line, summary.connections);
    append(line, b",\"entries\":");
    append_number(line, summary.entries);
    append(line, b"}\n");
}
