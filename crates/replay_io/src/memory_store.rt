//! A store in memory, some of whose calls fail.

ghost use Rattle.std.specs.Prelude.{◌≡◌, ◌≤◌, ◌↔◌, map, length, IsErr, IfOk, OnOk, OnErr, true, false};
ghost use Rattle.replay_io.specs.Stored.{file_of, handed};
ghost use Rattle.replay_io.specs.Counted.{is_listed};
ghost use Rattle.replay_io.specs.Memory.{fresh, refuses, begun, refused, took, failed};
ghost use Rattle.replay_io.specs.Outside.{Rose, HandsOut};

use crate::calls::Calls;
use crate::faults::{Failed, ReadFault};
use crate::store::Store;
use crate::stored::{StoredFile, StoredFiles};
use std::marker::Model;

/// Files in memory. Where two have one name, the first counts. Before a file is begun nothing is left, and a call
/// hands out no byte. The store tells its bytes. Of a name that isn't there it tells an empty file, which is never
/// begun.
///
/// The calls of `begin_read` and `take` are counted together, from 1. Those whose numbers are listed fail, and so does
/// a `begin_read` of a name that isn't there. No other call fails. A `begin_read` that answers `NoMemory` isn't
/// counted.
#[derive(Debug, Drop)]
pub struct MemoryStore {
    stored: StoredFiles,
    calls: Calls,
}

impl Model for MemoryStore {
    ghost use Rattle.replay_io.specs.Memory.{MemoryFiles};

    ghost Value = { MemoryFiles };

    ghost view = { λ store. record { stored = store.stored; calls = store.calls } };
}

impl MemoryStore {
    /// Each call hands out at most `piece` bytes, and those whose numbers are in `failing` fail.
    pub fn new(files: Vec<StoredFile>, piece: usize, failing: Vec<u32>) -> MemoryStore
        requires { 1 ≤ piece }
        ensures { result ≡ fresh (map file_of files.items) piece failing.items }
    {
        MemoryStore {
            stored: StoredFiles::new(files, piece),
            calls: Calls::new(failing),
        }
    }
}

impl Store for MemoryStore {
    ghost use Rattle.std.specs.Prelude.{Some};
    ghost use Rattle.replay_io.specs.Stored.{bytes_under};

    ghost stands = { λ store name. Some (bytes_under name store.stored.files) };

    ghost left = { λ store. Some store.stored.left };

    ghost asked = { λ store. store.stored.asked };

    ghost faults = { λ store. store.calls.faults };

    fn begin_read(&mut self, name: &str) -> Result<(), ReadFault>
        ensures begun { OnOk result (self.new ≡ begun name.now self.old) }
        ensures begins { OnOk result (refuses name.now self.old ≡ false) }
        ensures refused { result ≡ Err ReadFault.Failed → self.new ≡ refused name.now self.old }
        ensures fails { result ≡ Err ReadFault.Failed → refuses name.now self.old ≡ true }
        ensures no_memory { result ≡ Err ReadFault.NoMemory → self.new ≡ self.old }
        ensures failed { result ≡ Err ReadFault.Failed → Rose self.old.calls.faults self.new.calls.faults }
        ensures counts { self.old.calls.faults ≤ self.new.calls.faults }
    {
        if self.calls.is_listed() || !self.stored.has(name) {
            self.stored.refuse(name)?;
            self.calls.fail();
            return Err(ReadFault::Failed);
        }
        self.stored.begin(name)?;
        self.calls.succeed();
        Ok(())
    }

    fn take(&mut self, buf: &mut [u8]) -> Result<usize, Failed>
        ensures fails { IsErr result ↔ (is_listed self.old.calls ≡ true) }
        ensures count { IfOk result (λ count. count ≡ handed (length buf.new) self.old.stored) }
        ensures bytes { IfOk result (λ count.
            HandsOut (Some self.old.stored.left) (Some self.new.stored.left) buf.new count) }
        ensures took { IfOk result (λ count. self.new ≡ took count self.old) }
        ensures err { OnErr result (self.new ≡ failed self.old) }
        ensures failed { OnErr result (Rose self.old.calls.faults self.new.calls.faults) }
        ensures counts { self.old.calls.faults ≤ self.new.calls.faults }
    {
        if self.calls.is_listed() {
            self.calls.fail();
            return Err(Failed);
        }
        self.calls.succeed();
        Ok(self.stored.hand_out(buf))
    }
}
