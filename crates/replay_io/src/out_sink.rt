//! A sink over a writer, as standard output is one.

ghost use Rattle.std.specs.Prelude.{◌≡◌, ◌<◌, ◌≤◌, length, take, IfOk, OnOk, OnErr};
ghost use Rattle.std.specs.Io.KnownBytes.{Appends, Keeps};
ghost use Rattle.replay_io.specs.Outside.{Rose};
ghost use Rattle.replay_io.specs.Counted.{one_more};

use crate::faults::Failed;
use crate::sink::Sink;
use crate::system::write_some;
use std::io::Write;
use std::marker::Model;

/// A writer, such as standard output. It tells no bytes, and keeps none back: what a call took, the writer has taken.
///
/// A write that a signal cuts short is tried again, a bounded number of times; every other failure counts at once, and
/// so does a write of no byte.
#[derive(Drop)]
pub struct OutSink<W: Write + Drop> {
    writer: W,
    faults: u64,
}

impl<W: Write + Drop> Model for OutSink<W> {
    ghost use Rattle.replay_io.specs.Real.{RealOutput};

    ghost Value = { RealOutput };

    ghost view = { λ sink. record { held = W.contents sink.writer; faults = sink.faults } };
}

impl<W: Write + Drop> OutSink<W> {
    /// Over this writer. No call failed yet.
    pub fn new(writer: W) -> OutSink<W>
        ensures { result ≡ record { held = W.contents writer; faults = 0 } }
    {
        OutSink { writer, faults: 0 }
    }
}

impl<W: Write + Drop> Sink for OutSink<W> {
    ghost use Rattle.std.specs.Prelude.{None};

    ghost written = { λ _. None };

    ghost faults = { λ sink. sink.faults };

    fn put(&mut self, bytes: &[u8]) -> Result<usize, Failed>
        ensures within { IfOk result (λ count. count ≤ length bytes.now) }
        ensures some { IfOk result (λ count. 0 < length bytes.now → 0 < count) }
        ensures bytes { IfOk result (λ count. Appends self.old.held self.new.held (take count bytes.now)) }
        ensures keeps { OnErr result (Keeps self.old.held self.new.held) }
        ensures err { OnErr result (self.new.faults ≡ one_more self.old.faults) }
        ensures failed { OnErr result (Rose self.old.faults self.new.faults) }
        ensures counts { self.old.faults ≤ self.new.faults }
        ensures quiet { OnOk result (self.new.faults ≡ self.old.faults) }
    {
        match write_some(&mut self.writer, bytes) {
            Some(count) => Ok(count),
            None => {
                self.faults = self.faults.saturating_add(1);
                Err(Failed)
            }
        }
    }
}
