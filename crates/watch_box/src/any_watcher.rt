//! A watcher whose kind only its maker knows.
use crate::watcher::Watcher;
use io_edges::Failed;
use std::marker::Send;

/// A watcher whose kind only its maker knows. It is seen as what the one inside tells.
pub type AnyWatcher = Box<dyn Watcher + Send>;

impl Watcher for Box<dyn Watcher + Send> {
    ghost taken = { λ b. (Watcher-box b).taken b.value };

    ghost refused_from = { λ b. (Watcher-box b).refused_from b.value };

    ghost faults = { λ b. (Watcher-box b).faults b.value };

    fn take(&mut self, line: &[u8]) -> Result<(), Failed> {
        (**self).take(line)
    }
}
