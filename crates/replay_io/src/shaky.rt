//! For tests: readers, writers and files of which the first calls fail.

use std::alloc::Allocator;
use std::cell::Cell;
use std::fs::{Metadata, OpenOptions};
use std::io::{self, ErrorKind, Read, Write};
use std::rt::Files;

// Something of which so many calls fail in this way, before all others go through.
#[derive(Drop)]
pub(crate) struct Shaky<T: Drop> {
    inner: T,
    failing: Cell<u32>,
    kind: ErrorKind,
}

impl<T: Drop> Shaky<T> {
    pub(crate) fn new(inner: T, failing: u32, kind: ErrorKind) -> Shaky<T> {
        Shaky {
            inner,
            failing: Cell::new(failing),
            kind,
        }
    }

    // Fails while calls are to fail.
    fn pass(&self) -> io::Result<()> {
        match self.failing.get().checked_sub(1) {
            None => Ok(()),
            Some(left) => {
                self.failing.set(left);
                Err(io::Error::from(self.kind))
            }
        }
    }
}

impl<T: Read + Drop> Read for Shaky<T> {
    fn read(&mut self, buf: &mut [u8]) -> io::Result<usize> {
        self.pass()?;
        self.inner.read(buf)
    }
}

impl<T: Write + Drop> Write for Shaky<T> {
    fn write(&mut self, buf: &[u8]) -> io::Result<usize> {
        self.pass()?;
        self.inner.write(buf)
    }

    fn flush(&mut self) -> io::Result<()> {
        self.inner.flush()
    }
}

// Only opening a file can fail.
impl<T: Files + Drop> Files for Shaky<T> {
    type File = T::File;

    type Dir = T::Dir;

    fn open_file(&self, how: &OpenOptions, path: &str) -> io::Result<T::File> {
        self.pass()?;
        self.inner.open_file(how, path)
    }

    fn open_dir(&self, path: &str) -> io::Result<T::Dir> {
        self.inner.open_dir(path)
    }

    fn metadata(&self, path: &str) -> io::Result<Metadata> {
        self.inner.metadata(path)
    }

    fn symlink_metadata(&self, path: &str) -> io::Result<Metadata> {
        self.inner.symlink_metadata(path)
    }

    fn copy(&self, from: &str, to: &str) -> io::Result<u64> {
        self.inner.copy(from, to)
    }

    fn rename(&self, from: &str, to: &str) -> io::Result<()> {
        self.inner.rename(from, to)
    }

    fn remove_file(&self, path: &str) -> io::Result<()> {
        self.inner.remove_file(path)
    }

    fn create_dir(&self, path: &str) -> io::Result<()> {
        self.inner.create_dir(path)
    }

    fn remove_dir(&self, path: &str) -> io::Result<()> {
        self.inner.remove_dir(path)
    }

    fn remove_dir_all<B: Allocator>(&self, alloc: B, path: &str) -> io::Result<()> {
        self.inner.remove_dir_all(alloc, path)
    }
}
