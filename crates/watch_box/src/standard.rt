//! The trusted edge: each line written to a writer of std, with a count of faults. It tells no
//! lines.
ghost use Rattle.std.specs.Prelude.{None};

use crate::watcher::Watcher;
use io_edges::Failed;
use std::io::Write;

/// A watcher that writes each line, with a newline, to a writer of std: to standard error, as the
/// program makes it.
#[derive(Drop)]
pub struct StderrWatcher<W: Write> {
    writer: W,
    faults: u64,
}

impl<W: Write> StderrWatcher<W> {
    ghost use Rattle.std.specs.Prelude.{◌≡◌};

    /// Writes to that writer.
    pub fn new(writer: W) -> Self
        ensures { result.faults ≡ 0 }
    {
        StderrWatcher { writer, faults: 0 }
    }
}

fn write_line<W: Write>(writer: &mut W, line: &[u8]) -> bool {
    writer.write_all(line).is_ok() && writer.write_all(b"\n").is_ok() && writer.flush().is_ok()
}

impl<W: Write + Drop> Watcher for StderrWatcher<W> {
    ghost taken = { λ _. None };

    ghost refused_from = { λ _. None };

    ghost faults = { λ w. w.faults };

    fn take(&mut self, line: &[u8]) -> Result<(), Failed> {
        if write_line(&mut self.writer, line) {
            return Ok(());
        }
        self.faults = self.faults.saturating_add(1);
        Err(Failed)
    }
}
