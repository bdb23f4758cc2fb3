//! A sink in memory, some of whose calls fail.

ghost use Rattle.std.specs.Prelude.{◌≡◌, ◌<◌, ◌≤◌, ◌↔◌, length, take, IsErr, IfOk, OnErr, true};
ghost use Rattle.replay_io.specs.Memory.{blank, rejects, taken, holding, spurned};
ghost use Rattle.replay_io.specs.Outside.{Rose};

use crate::calls::Calls;
use crate::faults::Failed;
use crate::sink::Sink;
use edit_base::NoMemory;
use std::alloc::Global;
use std::marker::Model;

/// A place in memory to write to, with room for so many bytes.
///
/// The calls of `put` are counted from 1. Those whose numbers are listed fail, and so does one with bytes where no room
/// is left. No other call fails, and a call that fails writes nothing. A `put` takes no memory.
#[derive(Debug, Drop)]
pub struct MemorySink {
    kept: Vec<u8>,
    room: usize,
    piece: usize,
    calls: Calls,
}

impl Model for MemorySink {
    ghost use Rattle.std.specs.Prelude.{◌≤◌, ◌+◌, vec_len};
    ghost use Rattle.std.specs.Vec.{vec_capacity};
    ghost use Rattle.replay_io.specs.Memory.{MemoryBytes};

    ghost Value = { MemoryBytes };

    ghost view = { λ sink. record {
      written = sink.kept.items;
      room = sink.room;
      piece = sink.piece;
      calls = sink.calls;
    } };

    ghost invariant = { λ sink. record {
      piece : 1 ≤ sink.piece;
      room : vec_len sink.kept + sink.room ≤ vec_capacity sink.kept;
    } };
}

impl MemorySink {
    /// A sink with room for `room` bytes, whose calls take at most `piece` bytes. Those with the numbers in `failing`
    /// fail.
    pub fn new(
        alloc: Global,
        room: u32,
        piece: usize,
        failing: Vec<u32>,
    ) -> Result<MemorySink, NoMemory>
        requires { 1 ≤ piece }
        ensures { IfOk result (λ sink. sink ≡ blank room piece failing.items) }
    {
        let room = room as usize;
        let kept = Vec::with_capacity(alloc, room)?;
        let calls = Calls::new(failing);
        Ok(MemorySink {
            kept,
            room,
            piece,
            calls,
        })
    }

    /// The bytes that were written.
    pub fn written(&self) -> &[u8]
        ensures { result.now ≡ self.now.written }
    {
        self.kept.as_slice()
    }
}

impl Sink for MemorySink {
    ghost use Rattle.std.specs.Prelude.{Some};

    ghost written = { λ sink. Some sink.written };

    ghost faults = { λ sink. sink.calls.faults };

    fn put(&mut self, bytes: &[u8]) -> Result<usize, Failed>
        ensures fails { IsErr result ↔ (rejects (length bytes.now) self.old ≡ true) }
        ensures count { IfOk result (λ count. count ≡ taken (length bytes.now) self.old) }
        ensures some { IfOk result (λ count. 0 < length bytes.now → 0 < count) }
        ensures holds { IfOk result (λ count. self.new ≡ holding (take count bytes.now) self.old) }
        ensures err { OnErr result (self.new ≡ spurned self.old) }
        ensures failed { OnErr result (Rose self.old.calls.faults self.new.calls.faults) }
        ensures counts { self.old.calls.faults ≤ self.new.calls.faults }
    {
        let count = bytes.len().min(self.piece).min(self.room);
        if self.calls.is_listed() || (!bytes.is_empty() && self.room == 0) {
            self.calls.fail();
            return Err(Failed);
        }
        self.calls.succeed();
        self.room -= count;
        self.kept.extend_from_slice(&bytes[..count]).unwrap();
        Ok(count)
    }
}
