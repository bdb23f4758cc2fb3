//! A store in memory that never fails.

ghost use Rattle.std.specs.Prelude.{◌≡◌, ◌≢◌, ◌≤◌, map, length, OnOk, OnErr, Ok};
ghost use Rattle.replay_io.specs.Stored.{file_of, unread, after_begin, after_piece, handed};
ghost use Rattle.replay_io.specs.Outside.{HandsOut};

use crate::faults::{Failed, ReadFault};
use crate::store::Store;
use crate::stored::{StoredFile, StoredFiles};
use std::marker::Model;

/// Files in memory. Where two have one name, the first counts, and a name that isn't there is an empty file. Before a
/// file is begun nothing is left, and a call hands out no byte. The store tells its bytes. No call fails.
#[derive(Debug, Drop)]
pub struct SteadyStore {
    stored: StoredFiles,
}

impl Model for SteadyStore {
    ghost use Rattle.replay_io.specs.Stored.{Stored};

    ghost Value = { Stored };

    ghost view = { λ store. store.stored };
}

impl SteadyStore {
    /// Each call hands out at most `piece` bytes.
    pub fn new(files: Vec<StoredFile>, piece: usize) -> SteadyStore
        requires { 1 ≤ piece }
        ensures { result ≡ unread (map file_of files.items) piece }
    {
        SteadyStore {
            stored: StoredFiles::new(files, piece),
        }
    }
}

impl Store for SteadyStore {
    ghost use Rattle.std.specs.Prelude.{Some};
    ghost use Rattle.replay_io.specs.Stored.{bytes_under};

    ghost stands = { λ store name. Some (bytes_under name store.files) };

    ghost left = { λ store. Some store.left };

    ghost asked = { λ store. store.asked };

    ghost faults = { λ _. 0 };

    fn begin_read(&mut self, name: &str) -> Result<(), ReadFault>
        ensures steady { result ≢ Err ReadFault.Failed }
        ensures begun { OnOk result (self.new ≡ after_begin name.now self.old) }
        ensures no_memory { OnErr result (self.new ≡ self.old) }
    {
        self.stored.begin(name)?;
        Ok(())
    }

    fn take(&mut self, buf: &mut [u8]) -> Result<usize, Failed>
        ensures count { result ≡ Ok (handed (length buf.new) self.old) }
        ensures bytes { HandsOut (Some self.old.left) (Some self.new.left) buf.new
            (handed (length buf.new) self.old) }
        ensures took { self.new ≡ after_piece (handed (length buf.new) self.old) self.old }
    {
        Ok(self.stored.hand_out(buf))
    }
}
