//! One end of a connection.
ghost use Rattle.std.specs.Prelude.{◌≡◌};

use crate::{Sink, Source};

/// One end of a connection: bytes come in, and bytes go out. A read leaves what was written, and a
/// write what is left; so lines are read from it as from any source, and an outbox gathers what
/// goes out as before any sink.
pub trait Link: Source + Sink {
    /// Of what goes out it tells as a source what it tells as a sink.
    ghost goes_out: { (l : Self) → Self.Source.outgoing l
        ≡ record { written = Self.Sink.written l; faults = Self.Sink.faults l } };

    /// Of what comes in it tells as a sink what it tells as a source.
    ghost comes_in: { (l : Self) → Self.Sink.incoming l
        ≡ record { left = Self.Source.left l; faults = Self.Source.faults l } };
}
