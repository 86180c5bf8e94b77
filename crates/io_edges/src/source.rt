//! Bytes that come in.
ghost use Rattle.std.specs.Prelude.{◌≡◌, List, ℕ, Option};
ghost use Rattle.std.specs.Io.{ReadsAtMost};
ghost use Rattle.std.specs.Io.KnownBytes.{ReadConsumes};
ghost use Rattle.io_edges.specs.Causes.{HasCause};
ghost use Rattle.io_edges.specs.Sides.{Outgoing};

use crate::Failed;

/// Bytes that come in, one piece after the other.
pub trait Source: Drop {
    /// The bytes that reads will give from here on, where the source tells them.
    ghost left: { Self → Option (List ℕ) };

    /// How often the source has failed. The count stands still at its type's end.
    ghost faults: { Self → ℕ };

    /// What is told of the bytes that go out, where the source is one end of a connection: reads
    /// leave it as it is.
    ghost outgoing: { Self → Outgoing };

    /// Reads some bytes to the front of `buf`. For a buffer that is not empty, 0 is the end.
    ///
    /// Errors: `Failed`, where the count rose. What is left is then as before.
    fn read(&mut self, buf: &mut [u8]) -> Result<usize, Failed>
        ensures bound { ReadsAtMost result buf.new }
        ensures bytes { ReadConsumes (left self.old) (left self.new) result buf.new }
        ensures apart { outgoing self.new ≡ outgoing self.old }
        ensures cause { HasCause (faults self.old) (faults self.new) result };
}
