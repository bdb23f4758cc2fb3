//! Files in memory, one of which is read.

ghost use Rattle.std.specs.Prelude.{◌≡◌, ◌≤◌, map, min, length, take, OnOk, OnErr};
ghost use Rattle.replay_io.specs.Stored.{file_of, file_place, bytes_at, is_there, unread, after_begin, after_refusal, handed, after_piece};

use crate::asked::AskedNames;
use edit_base::NoMemory;
use std::marker::Model;

/// A file in memory: its name and its bytes.
#[derive(Debug, Drop)]
pub struct StoredFile {
    pub name: String,
    pub bytes: Vec<u8>,
}

// Files in memory, the most bytes that a call hands out, the names asked for, and where the file that was begun last
// is read. The place of the file is the number of files where none was begun.
#[derive(Debug, Drop)]
pub(crate) struct StoredFiles {
    files: Vec<StoredFile>,
    piece: usize,
    asked: AskedNames,
    current: usize,
    at: usize,
}

impl Model for StoredFiles {
    ghost use Rattle.std.specs.Prelude.{◌≤◌, map, drop, length};
    ghost use Rattle.replay_io.specs.Stored.{Stored, file_of, bytes_at};

    ghost Value = { Stored };

    ghost view = { λ stored. record {
      files = map file_of stored.files.items;
      piece = stored.piece;
      asked = stored.asked;
      left = drop stored.at (bytes_at stored.current (map file_of stored.files.items));
    } };

    ghost invariant = { λ stored. record {
      piece : 1 ≤ stored.piece;
      at : stored.at ≤ length (bytes_at stored.current (map file_of stored.files.items));
    } };
}

impl StoredFiles {
    // Nothing was read yet. A call hands out at most `piece` bytes.
    pub(crate) fn new(files: Vec<StoredFile>, piece: usize) -> StoredFiles
        requires { 1 ≤ piece }
        ensures { result ≡ unread (map file_of files.items) piece }
    {
        let asked = AskedNames::new(*files.allocator());
        let current = files.len();
        StoredFiles {
            files,
            piece,
            asked,
            current,
            at: 0,
        }
    }

    // Whether a file has the name.
    pub(crate) fn has(&self, name: &str) -> bool
        ensures { result ≡ is_there name.now self.now.files }
    {
        file_place(&self.files, name) < self.files.len()
    }

    // Begins the first file of a name; where none has it, nothing is left.
    pub(crate) fn begin(&mut self, name: &str) -> Result<(), NoMemory>
        ensures ok { OnOk result (self.new ≡ after_begin name.now self.old) }
        ensures err { OnErr result (self.new ≡ self.old) }
    {
        self.asked.keep(name, true)?;
        self.current = file_place(&self.files, name);
        self.at = 0;
        Ok(())
    }

    // Keeps a name that reading doesn't begin for.
    pub(crate) fn refuse(&mut self, name: &str) -> Result<(), NoMemory>
        ensures ok { OnOk result (self.new ≡ after_refusal name.now self.old) }
        ensures err { OnErr result (self.new ≡ self.old) }
    {
        self.asked.keep(name, false)
    }

    // Hands out the next bytes, and answers how many.
    pub(crate) fn hand_out(&mut self, buf: &mut [u8]) -> usize
        ensures count { result ≡ handed (length buf.new) self.old }
        ensures bytes { take result buf.new ≡ take result self.old.left }
        ensures state { self.new ≡ after_piece result self.old }
        ensures piece { 1 ≤ self.old.piece }
    {
        let bytes = bytes_at(&self.files, self.current);
        let most = buf.len().min(self.piece);
        let count = copy_first(&bytes[self.at..], most, buf);
        self.at += count;
        count
    }
}

// The place of the first file of a name, or the number of files where none has it.
fn file_place(files: &[StoredFile], name: &str) -> usize
    ensures { result ≡ file_place name.now (map file_of files.now) }
{
    for (place, file) in files.iter().enumerate() {
        if file.name.as_str() == name {
            return place;
        }
    }
    files.len()
}

// The bytes of the file at a place, and none behind the last file.
fn bytes_at(files: &[StoredFile], place: usize) -> &[u8]
    ensures { result.now ≡ bytes_at place (map file_of files.now) }
{
    match files.get(place) {
        Some(file) => file.bytes.as_slice(),
        None => &[],
    }
}

// Copies the first bytes, at most so many of them, and answers how many there were.
fn copy_first(from: &[u8], most: usize, to: &mut [u8]) -> usize
    requires { most ≤ length to.old }
    ensures count { result ≡ min most (length from.now) }
    ensures bytes { take result to.new ≡ take result from.now }
{
    let count = from.len().min(most);
    to[..count].copy_from_slice(&from[..count]);
    count
}
