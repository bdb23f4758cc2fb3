//! Calls of the system. One that a signal cuts short is tried again, a bounded number of times.

ghost use Rattle.std.specs.Prelude.{◌≡◌, ◌<◌, ◌≤◌, ◌↔◌, length, take, IfSome, IsNone};
ghost use Rattle.std.specs.Io.KnownBytes.{Appends, Consumes, IsAtEnd, Keeps};
ghost use Rattle.std.specs.IoError.{error_kind};

use crate::faults::ReadFault;
use std::fs::File;
use std::io::{Error, ErrorKind, Read, Write};
use std::rt::Files;

// How often a call is tried.
const TRIES: u32 = 64;

// Opens a file to read it.
pub(crate) fn open_file<R: Files>(rt: &R, name: &str) -> Result<R::File, ReadFault> {
    for _ in 0..TRIES {
        match File::open(rt, name) {
            Ok(file) => return Ok(file),
            Err(error) => {
                if error.kind() != ErrorKind::Interrupted {
                    return Err(fault_of(&error));
                }
            }
        }
    }
    Err(ReadFault::Failed)
}

// What an error of the system is to a store.
pub(crate) fn fault_of(error: &Error) -> ReadFault
    ensures { (result ≡ ReadFault.NoMemory) ↔ (error_kind error.now ≡ ErrorKind.OutOfMemory) }
{
    if error.kind() == ErrorKind::OutOfMemory {
        ReadFault::NoMemory
    } else {
        ReadFault::Failed
    }
}

// Reads the next bytes of a file, and answers how many; none where it failed.
pub(crate) fn read_some<F: Read>(file: &mut F, buf: &mut [u8]) -> Option<usize>
    ensures within { IfSome result (λ count. count ≤ length buf.new) }
    ensures bytes { IfSome result (λ count.
        Consumes (F.remaining file.old) (F.remaining file.new) (take count buf.new)) }
    ensures end { IfSome result (λ count. count ≡ 0 → 0 < length buf.new → IsAtEnd (F.remaining file.new)) }
    ensures failed { IsNone result → Keeps (F.remaining file.old) (F.remaining file.new) }
{
    for _ in 0..TRIES {
        match file.read(buf) {
            Ok(count) => return Some(count),
            Err(error) => {
                if error.kind() != ErrorKind::Interrupted {
                    return None;
                }
            }
        }
    }
    None
}

// Writes the first bytes of a piece, and answers how many; none where it failed, as a write of no byte of several has.
pub(crate) fn write_some<W: Write>(writer: &mut W, bytes: &[u8]) -> Option<usize>
    ensures within { IfSome result (λ count. count ≤ length bytes.now) }
    ensures some { IfSome result (λ count. 0 < length bytes.now → 0 < count) }
    ensures bytes { IfSome result (λ count.
        Appends (W.contents writer.old) (W.contents writer.new) (take count bytes.now)) }
    ensures failed { IsNone result → Keeps (W.contents writer.old) (W.contents writer.new) }
{
    for _ in 0..TRIES {
        match writer.write(bytes) {
            Ok(count) => {
                return if count > 0 || bytes.is_empty() {
                    Some(count)
                } else {
                    None
                };
            }
            Err(error) => {
                if error.kind() != ErrorKind::Interrupted {
                    return None;
                }
            }
        }
    }
    None
}
