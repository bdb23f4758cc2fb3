//! The real files.

ghost use Rattle.std.specs.Prelude.{◌≡◌, ◌≤◌, ◌<◌, length, take, IfOk, OnOk, OnErr, Ok, false};
ghost use Rattle.std.specs.Io.KnownBytes.{Consumes, IsAtEnd, Keeps};
ghost use Rattle.replay_io.specs.Outside.{Rose};
ghost use Rattle.replay_io.specs.Real.{unasked, opened, unopened, unread, left_with};

use crate::asked::AskedNames;
use crate::faults::{Failed, ReadFault};
use crate::store::Store;
use crate::system::{open_file, read_some};
use std::alloc::Global;
use std::marker::Model;
use std::rt::Files;

/// The files of the system. It tells no bytes: what a file holds when it is opened, no clause can say. Of a file that
/// is open it hands out what std says is left of it, in order.
///
/// Before a file is begun a call hands out no byte. An open or a read that a signal cuts short is tried again, a
/// bounded number of times; every other failure counts at once. A `begin_read` answers `NoMemory` where the system
/// tells want of memory, or where there is none for the name.
#[derive(Drop)]
pub struct FileStore<R: Files> {
    rt: R,
    file: Option<R::File>,
    asked: AskedNames,
    faults: u64,
}

impl<R: Files> Model for FileStore<R> {
    ghost use Rattle.std.specs.Prelude.{is_some, option_and_then};
    ghost use Rattle.replay_io.specs.Real.{RealFiles};

    ghost Value = { RealFiles };

    ghost view = { λ store. record {
      asked = store.asked;
      reading = is_some store.file;
      left = option_and_then R.File.remaining store.file;
      faults = store.faults;
    } };
}

impl<R: Files> FileStore<R> {
    /// The files that a runtime reaches. The allocator is for the names asked for.
    pub fn new(rt: R, alloc: Global) -> FileStore<R>
        ensures { result ≡ unasked }
    {
        FileStore {
            rt,
            file: None,
            asked: AskedNames::new(alloc),
            faults: 0,
        }
    }
}

impl<R: Files> Store for FileStore<R> {
    ghost use Rattle.std.specs.Prelude.{None};

    ghost stands = { λ _ _. None };

    ghost left = { λ _. None };

    ghost asked = { λ store. store.asked };

    ghost faults = { λ store. store.faults };

    fn begin_read(&mut self, name: &str) -> Result<(), ReadFault>
        ensures begun { OnOk result (self.new ≡ left_with self.new.left (opened name.now self.old)) }
        ensures refused { result ≡ Err ReadFault.Failed → self.new ≡ unopened name.now self.old }
        ensures no_memory { result ≡ Err ReadFault.NoMemory → self.new ≡ self.old }
        ensures failed { result ≡ Err ReadFault.Failed → Rose self.old.faults self.new.faults }
        ensures counts { self.old.faults ≤ self.new.faults }
    {
        match open_file(&self.rt, name) {
            Ok(file) => {
                self.asked.keep(name, true)?;
                self.file = Some(file);
                Ok(())
            }
            Err(ReadFault::NoMemory) => Err(ReadFault::NoMemory),
            Err(ReadFault::Failed) => {
                self.asked.keep(name, false)?;
                self.faults = self.faults.saturating_add(1);
                Err(ReadFault::Failed)
            }
        }
    }

    fn take(&mut self, buf: &mut [u8]) -> Result<usize, Failed>
        ensures within { IfOk result (λ count. count ≤ length buf.new) }
        ensures bytes { IfOk result (λ count. Consumes self.old.left self.new.left (take count buf.new)) }
        ensures end { IfOk result (λ count. count ≡ 0 → 0 < length buf.new → IsAtEnd self.new.left) }
        ensures unbegun { self.old.reading ≡ false → result ≡ Ok 0 }
        ensures ok { OnOk result (self.new ≡ left_with self.new.left self.old) }
        ensures err { OnErr result (self.new ≡ left_with self.new.left (unread self.old)) }
        ensures keeps { OnErr result (Keeps self.old.left self.new.left) }
        ensures failed { OnErr result (Rose self.old.faults self.new.faults) }
        ensures counts { self.old.faults ≤ self.new.faults }
    {
        let Some(file) = &mut self.file else {
            return Ok(0);
        };
        match read_some(file, buf) {
            Some(count) => Ok(count),
            None => {
                self.faults = self.faults.saturating_add(1);
                Err(Failed)
            }
        }
    }
}
