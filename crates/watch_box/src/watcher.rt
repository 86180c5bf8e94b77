//! Who takes lines.
ghost use Rattle.std.specs.Prelude.{List, ℕ, Option};
ghost use Rattle.io_edges.specs.Causes.{HasCause};
ghost use Rattle.watch_box.specs.Taking.{Takes, RefusesFrom};

use io_edges::Failed;

/// Takes the lines of a session, one after the other.
pub trait Watcher: Drop {
    /// The lines that were taken, where the watcher tells them.
    ghost taken: { Self → Option (List (List ℕ)) };

    /// From which length on the next line is refused, where the watcher tells it.
    ///
    /// Units: bytes.
    ghost refused_from: { Self → Option ℕ };

    /// How often the watcher has failed. The count stands still at its type's end.
    ghost faults: { Self → ℕ };

    /// Takes a line, without its newline.
    ///
    /// Errors: `Failed`, where the count rose. The told lines are then as before.
    fn take(&mut self, line: &[u8]) -> Result<(), Failed>
        ensures lines { Takes (taken self.old) (taken self.new) line.now result }
        ensures refused { RefusesFrom (refused_from self.old) line.now result }
        ensures cause { HasCause (faults self.old) (faults self.new) result };
}
