//! Links in memory: one that fails at listed reads and writes, and one that never fails.
ghost use Rattle.std.specs.Prelude.{None, Some, refl};
ghost use Rattle.io_edges.specs.Memory.{left_of, read_faults, written_of, write_faults, sure_left_of, source_of, sink_of};

use crate::{Failed, Link, MemSink, MemSource, Sink, Source, SureSink, SureSource};

/// A link in memory over a source and a sink in memory: it fails at the reads and the writes at
/// which they were made to fail, and where there is no room for what is written.
#[derive(Drop)]
pub struct MemLink {
    source: MemSource,
    sink: MemSink,
}

impl MemLink {
    ghost use Rattle.std.specs.Prelude.{◌≡◌};

    /// Gives what the source gives, and holds what the sink takes.
    pub fn new(source: MemSource, sink: MemSink) -> Self
        ensures source { source_of result ≡ source }
        ensures sink { sink_of result ≡ sink }
    {
        MemLink { source, sink }
    }

    /// What was written.
    pub fn bytes(&self) -> &[u8]
        ensures { result.now ≡ written_of (sink_of self.now) }
    {
        self.sink.bytes()
    }
}

impl Source for MemLink {
    ghost left = { λ l. Some (left_of (source_of l)) };

    ghost outgoing = { λ l. record {
      written = Some (written_of (sink_of l));
      faults = write_faults (sink_of l);
    } };

    ghost faults = { λ l. read_faults (source_of l) };

    fn read(&mut self, buf: &mut [u8]) -> Result<usize, Failed> {
        self.source.read(buf)
    }
}

impl Sink for MemLink {
    ghost written = { λ l. Some (written_of (sink_of l)) };

    ghost incoming = { λ l. record {
      left = Some (left_of (source_of l));
      faults = read_faults (source_of l);
    } };

    ghost faults = { λ l. write_faults (sink_of l) };

    fn write(&mut self, piece: &[u8]) -> Result<usize, Failed> {
        self.sink.write(piece)
    }

    fn flush(&mut self) -> Result<(), Failed> {
        self.sink.flush()
    }
}

impl Link for MemLink {
    ghost goes_out = { λ _. refl };

    ghost comes_in = { λ _. refl };
}

/// A link over bytes in memory that never fails, keeps nothing of what it is given and tells none
/// of it.
#[derive(Drop)]
pub struct SureLink {
    source: SureSource,
}

impl SureLink {
    ghost use Rattle.std.specs.Prelude.{◌≡◌};
    ghost use Rattle.io_edges.specs.Memory.{sure_source_of};

    /// Gives what the source gives.
    pub fn new(source: SureSource) -> Self
        ensures { sure_source_of result ≡ source }
    {
        SureLink { source }
    }
}

impl Source for SureLink {
    ghost use Rattle.io_edges.specs.Memory.{sure_source_of};
    ghost use Rattle.io_edges.specs.Sides.{nothing_out};

    ghost left = { λ l. Some (sure_left_of (sure_source_of l)) };

    ghost outgoing = { λ _. nothing_out };

    ghost faults = { λ _. 0 };

    fn read(&mut self, buf: &mut [u8]) -> Result<usize, Failed> {
        self.source.read(buf)
    }
}

impl Sink for SureLink {
    ghost use Rattle.io_edges.specs.Memory.{sure_source_of};

    ghost written = { λ _. None };

    ghost incoming = { λ l. record { left = Some (sure_left_of (sure_source_of l)); faults = 0 } };

    ghost faults = { λ _. 0 };

    fn write(&mut self, piece: &[u8]) -> Result<usize, Failed> {
        SureSink.write(piece)
    }

    fn flush(&mut self) -> Result<(), Failed> {
        Ok(())
    }
}

impl Link for SureLink {
    ghost goes_out = { λ _. refl };

    ghost comes_in = { λ _. refl };
}
