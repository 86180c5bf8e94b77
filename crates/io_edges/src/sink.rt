//! Bytes that go out.
ghost use Rattle.std.specs.Prelude.{List, ℕ, ◌≡◌, ◌<◌, Option, length, IfOk};
ghost use Rattle.std.specs.Io.{WritesAtMost};
ghost use Rattle.std.specs.Io.KnownBytes.{WriteAppends, Keeps};
ghost use Rattle.io_edges.specs.Causes.{HasCause};
ghost use Rattle.io_edges.specs.Sides.{Incoming};

use crate::Failed;

/// Bytes that go out, one piece after the other.
pub trait Sink: Drop {
    /// The bytes that were written, where the sink tells them.
    ghost written: { Self → Option (List ℕ) };

    /// How often the sink has failed. The count stands still at its type's end.
    ghost faults: { Self → ℕ };

    /// What is told of the bytes that come in, where the sink is one end of a connection: writes
    /// leave it as it is.
    ghost incoming: { Self → Incoming };

    /// Takes some bytes from the front of `piece`, at least one where it is not empty.
    ///
    /// Errors: `Failed`, where the count rose. What was written is then as before.
    fn write(&mut self, piece: &[u8]) -> Result<usize, Failed>
        ensures bound { WritesAtMost result piece.now }
        ensures some { 0 < length piece.now → IfOk result (λ n. 0 < n) }
        ensures bytes { WriteAppends (written self.old) (written self.new) result piece.now }
        ensures apart { incoming self.new ≡ incoming self.old }
        ensures cause { HasCause (faults self.old) (faults self.new) result };

    /// Hands on what the sink itself still holds back.
    ///
    /// Errors: `Failed`, where the count rose.
    fn flush(&mut self) -> Result<(), Failed>
        ensures bytes { Keeps (written self.old) (written self.new) }
        ensures apart { incoming self.new ≡ incoming self.old }
        ensures cause { HasCause (faults self.old) (faults self.new) result };
}
