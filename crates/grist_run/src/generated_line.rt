//! The line that sums up a generated run.
ghost use Rattle.std.specs.Prelude.{◌≡◌, ◌≤◌, [], vec_capacity};
ghost use Rattle.grist_run.specs.Generated.{summary_line};

use crate::line_room::{append, append_number};

/// How many bytes the line has at most.
pub(crate) const SUMMARY_BYTES: usize = 320;

/// What a generated run did: its accepted and denied bundles, the entries of its history, the
/// stream lines that were made, and the rows of its script.
#[derive(Clone, Copy)]
pub(crate) struct Summary {
    pub accepted: u64,
    pub denied: u64,
    pub entries: u64,
    pub lines: u64,
    pub rows: u32,
}

/// Writes the line into a vector that has room for it.
///
/// Memory: none.
pub(crate) fn append_summary(line: &mut Vec<u8>, summary: Summary)
    requires empty { line.old.items ≡ [] }
    requires room { 320 ≤ vec_capacity line.old }
    ensures { line.new.items ≡ summary_line summary.accepted summary.denied summary.entries
        summary.lines summary.rows }
{
    append(line, b"{\"accepted\":");
    append_number(line, summary.accepted);
    append(line, b",\"denied\":");
    append_number(line, summary.denied);
    append(line, b",\"entries\":");
    append_number(line, summary.entries);
    append(line, b",\"lines\":");
    append_number(line, summary.lines);
    append(line, b",\"rows\":");
    append_number(line, summary.rows as u64);
    append(line, b"}\n");
}
