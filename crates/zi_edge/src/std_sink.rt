//! The standard streams.
ghost use Rattle.std.specs.Prelude.{OnOk};
ghost use Rattle.std.specs.Io.KnownBytes.{Appends};
ghost use Rattle.zi_outside.specs.Outside.{Puts};
ghost use Rattle.zi_edge.specs.Seen.{stream_seen};

use crate::log::Log;
use crate::trouble::Reason;
use std::alloc::Global;
use std::io::Write;
use zi_outside::{Sink, SinkFault};

/// A sink over a stream, which doesn't tell what was written. What a stream holds grows by each piece that was put, where that is
/// known.
#[derive(Drop)]
pub struct StdSink<W: Write> {
    name: &'static str,
    writer: W,
    faults: u64,
    log: Log,
}

impl<W: Write + Drop> StdSink<W> {
    /// The sink of a stream of this name, without a fault.
    pub fn new(alloc: Global, name: &'static str, writer: W) -> StdSink<W> {
        StdSink {
            name,
            writer,
            faults: 0,
            log: Log::new(alloc),
        }
    }

    /// What failed.
    pub fn log(&self) -> &Log {
        &self.log
    }
}

impl<W: Write + Drop> Sink for StdSink<W> {
    ghost use Rattle.zi_edge.specs.Seen.{stream_seen};

    ghost seen = { λ s. stream_seen s.faults };

    fn put(&mut self, bytes: &[u8]) -> Result<(), SinkFault>
        ensures puts { Puts (stream_seen self.old.faults) bytes.now result (stream_seen self.new.faults) }
        ensures written { OnOk result (Appends (W.contents self.old.writer) (W.contents self.new.writer) bytes.now) }
    {
        match self.writer.write_all(bytes) {
            Ok(()) => Ok(()),
            Err(error) => {
                self.log.tell(&[self.name], Reason::System(error));
                self.faults = self.faults.saturating_add(1);
                Err(SinkFault::Failed)
            }
        }
    }
}
