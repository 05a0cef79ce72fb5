//! A stream of one line, which a terminal may show.
ghost use Rattle.std.specs.Prelude.{◌≡◌, false, OnOk};
ghost use Rattle.std.specs.Io.KnownBytes.{Appends};
ghost use Rattle.zi_outside.specs.Outside.{Puts};
ghost use Rattle.zi_edge.specs.Lines.{ends_line, written_of, held_after, held_back};
ghost use Rattle.zi_edge.specs.Seen.{stream_seen};

use crate::log::Log;
use crate::trouble::Reason;
use std::alloc::Global;
use std::io::{self, Write};
use zi_outside::{Sink, SinkFault};
use zi_shown::{show, show_bytes};

/// A sink over a stream of one line, which doesn't tell what was written. All that is put is shown as a terminal may have it
/// (`zi_shown`), so names in it neither change what the terminal does nor look like a line of their own. A line feed at the end of a
/// piece is held back: it ends the line where nothing more is put, and else is shown as any other character that may not stand.
#[derive(Drop)]
pub struct LineSink<W: Write> {
    name: &'static str,
    writer: W,
    held: bool,
    faults: u64,
    log: Log,
}

impl<W: Write + Drop> LineSink<W> {
    /// The sink of a stream of this name, without a fault.
    pub fn new(alloc: Global, name: &'static str, writer: W) -> LineSink<W>
        ensures { result.held ≡ false }
    {
        LineSink {
            name,
            writer,
            held: false,
            faults: 0,
            log: Log::new(alloc),
        }
    }

    /// What failed.
    pub fn log(&self) -> &Log {
        &self.log
    }

    // Writes a line feed that was held back and ends no line.
    #[tactic(auto, using(zi_shown::proofs::ShownLemmas::nothing_more))]
    fn show_held(&mut self) -> io::Result<()>
        ensures written { OnOk result (Appends (W.contents self.old.writer) (W.contents self.new.writer) (held_back self.old.held)) }
        ensures none { OnOk result (self.new.held ≡ false) }
        ensures faults { self.new.faults ≡ self.old.faults }
    {
        if self.held {
            show("\n", &mut self.writer)?;
            self.held = false;
        }
        Ok(())
    }

    // Writes a piece, and holds a line feed at its end back.
    #[tactic(auto, using(zi_shown::proofs::ShownLemmas::nothing_more, crate::proofs::LineLemmas::nothing_put, crate::proofs::LineLemmas::nothing_held))]
    fn show(&mut self, bytes: &[u8]) -> io::Result<()>
        ensures written { OnOk result (Appends (W.contents self.old.writer) (W.contents self.new.writer) (written_of self.old.held bytes.now)) }
        ensures held { OnOk result (self.new.held ≡ held_after self.old.held bytes.now) }
        ensures faults { self.new.faults ≡ self.old.faults }
    {
        let Some((last, front)) = bytes.split_last() else {
            return Ok(());
        };
        self.show_held()?;
        if *last == b'\n' {
            show_bytes(front, &mut self.writer)?;
            self.held = true;
            Ok(())
        } else {
            show_bytes(bytes, &mut self.writer)
        }
    }

    /// Ends the line: a line feed that is held back is written as it is.
    pub fn end(&mut self)
        ensures { self.new.faults ≡ self.old.faults }
    {
        if self.held {
            self.held = false;
            let _ = self.writer.write_all(b"\n");
        }
    }
}

impl<W: Write + Drop> Sink for LineSink<W> {
    ghost use Rattle.zi_edge.specs.Seen.{stream_seen};

    ghost seen = { λ s. stream_seen s.faults };

    fn put(&mut self, bytes: &[u8]) -> Result<(), SinkFault>
        ensures puts { Puts (stream_seen self.old.faults) bytes.now result (stream_seen self.new.faults) }
        ensures written { OnOk result (Appends (W.contents self.old.writer) (W.contents self.new.writer) (written_of self.old.held bytes.now)) }
        ensures held { OnOk result (self.new.held ≡ held_after self.old.held bytes.now) }
    {
        match self.show(bytes) {
            Ok(()) => Ok(()),
            Err(error) => {
                self.log.tell(&[self.name], Reason::System(error));
                self.faults = self.faults.saturating_add(1);
                Err(SinkFault::Failed)
            }
        }
    }
}
