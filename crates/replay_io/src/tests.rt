//! What no clause says: a call that fails in mid-stream and the one behind it, and the system's own calls.

use super::shaky::Shaky;
use super::system::read_some;
use super::{
    Failed, FileStore, MemorySink, MemoryStore, OutSink, ReadEnd, ReadFault, Sink, Store,
    StoredFile, read_all, write_all_of,
};
use std::alloc::{AllocError, Global};
use std::io::ErrorKind;
use std::process::Abort;
use std::rt::Files;
use std::test::Fail;
use std::{fs, io};

// ---- stores and sinks in memory

// A file of five bytes.
fn greeting(alloc: Global) -> Result<Vec<StoredFile>, AllocError> {
    let mut files = Vec::new(alloc);
    files.push(StoredFile {
        name: String::from_str(alloc, "greeting")?,
        bytes: Vec::from_slice(alloc, b"hello")?,
    })?;
    Ok(files)
}

// The third call fails, a read in mid-stream, and the next ones go on where it stood.
fn reads_on(rt: &impl Abort, store: &mut MemoryStore) {
    let mut buf = [0; 3];
    assert_eq!(rt; store.begin_read("greeting"), Ok(()));
    assert_eq!(rt; store.take(&mut buf), Ok(3));
    assert_eq!(rt; store.take(&mut buf), Err(Failed));
    assert_eq!(rt; store.take(&mut buf), Ok(2));
    assert_eq!(rt; buf.as_slice(), b"lol".as_slice());
    assert_eq!(rt; store.take(&mut buf), Ok(0));
}

#[test]
fn goes_on_behind_a_failed_read(rt: HostRuntime) -> Result<(), Fail> {
    let failing = Vec::from_slice(rt.alloc(), &[3])?;
    let mut store = MemoryStore::new(greeting(rt.alloc())?, 9, failing);
    reads_on(&rt, &mut store);
    Ok(())
}

// The second call fails, a write in mid-stream, and the next piece stands behind what was written.
fn writes_on(rt: &impl Abort, sink: &mut MemorySink) {
    assert_eq!(rt; write_all_of(sink, b"> 1 replace"), Err(Failed));
    assert_eq!(rt; sink.written(), b"> 1 ".as_slice());
    assert_eq!(rt; write_all_of(sink, b"> 2 end"), Ok(()));
    assert_eq!(rt; sink.written(), b"> 1 > 2 end".as_slice());
}

#[test]
fn goes_on_behind_a_failed_write(rt: HostRuntime) -> Result<(), Fail> {
    let failing = Vec::from_slice(rt.alloc(), &[2])?;
    let mut sink = MemorySink::new(rt.alloc(), 64, 4, failing)?;
    writes_on(&rt, &mut sink);
    Ok(())
}

// ---- the system

// Names, how reading up to 12 bytes ends, and what came. A folder can be opened, and no byte of it read.
const FILES: [(&str, Result<ReadEnd, ReadFault>, &str); 4] = [
    ("missing.txt", Err(ReadFault::Failed), ""),
    (".", Err(ReadFault::Failed), ""),
    ("greeting.txt", Ok(ReadEnd::Whole), "hello\nworld\n"),
    ("longer.txt", Ok(ReadEnd::Over), "hello\nworld."),
];

fn reads<R: Files>(
    rt: &impl Abort,
    alloc: Global,
    store: &mut FileStore<R>,
    row: &(&str, Result<ReadEnd, ReadFault>, &str),
) {
    let (name, end, gained) = *row;
    let mut out = Vec::new(alloc);
    assert_eq!(rt; read_all(store, name, 12, &mut out), end, "{name}");
    assert_eq!(rt; out.as_slice(), gained.as_bytes(), "{name}");
}

#[test]
fn reads_real_files(rt: HostRuntime) -> Result<(), Fail> {
    fs::write(&rt, "greeting.txt", "hello\nworld\n")?;
    fs::write(&rt, "longer.txt", "hello\nworld.\n")?;
    let mut store = FileStore::new(&rt, rt.alloc());
    for row in &FILES {
        reads(&rt, rt.alloc(), &mut store, row);
    }
    drop(store);
    fs::remove_file(&rt, "greeting.txt")?;
    fs::remove_file(&rt, "longer.txt")?;
    Ok(())
}

// How many opens fail and in which way, and what the store answers.
const OPENS: [(u32, ErrorKind, Result<(), ReadFault>); 4] = [
    (1, ErrorKind::Interrupted, Ok(())),
    (u32::MAX, ErrorKind::Interrupted, Err(ReadFault::Failed)),
    (1, ErrorKind::PermissionDenied, Err(ReadFault::Failed)),
    (1, ErrorKind::OutOfMemory, Err(ReadFault::NoMemory)),
];

fn opens<R: Files + Drop>(
    rt: &impl Abort,
    alloc: Global,
    files: R,
    row: &(u32, ErrorKind, Result<(), ReadFault>),
) {
    let (failing, kind, answer) = *row;
    let mut store = FileStore::new(Shaky::new(files, failing, kind), alloc);
    assert_eq!(rt; store.begin_read("."), answer, "{failing} times {kind:?}");
}

#[test]
fn tries_an_open_again_that_was_cut_short(rt: HostRuntime) {
    for row in &OPENS {
        opens(&rt, rt.alloc(), &rt, row);
    }
}

// How many reads fail and in which way, and how many bytes come.
const READS: [(u32, ErrorKind, Option<usize>); 3] = [
    (1, ErrorKind::Interrupted, Some(4)),
    (u32::MAX, ErrorKind::Interrupted, None),
    (1, ErrorKind::OutOfMemory, None),
];

fn reads_some(rt: &impl Abort, row: &(u32, ErrorKind, Option<usize>)) {
    let (failing, kind, count) = *row;
    let mut file = Shaky::new(b"hello".as_slice(), failing, kind);
    assert_eq!(rt;
        read_some(&mut file, &mut [0; 4]),
        count,
        "{failing} times {kind:?}"
    );
}

#[test]
fn tries_a_read_again_that_was_cut_short(rt: HostRuntime) {
    for row in &READS {
        reads_some(&rt, row);
    }
}

// How many writes fail and in which way, how writing five bytes and then four more ends where there is room for five, and
// what stands then. A writer that takes no byte has failed.
const WRITES: [(
    u32,
    ErrorKind,
    Result<(), Failed>,
    Result<usize, Failed>,
    &str,
); 4] = [
    (0, ErrorKind::Other, Ok(()), Err(Failed), "hello"),
    (1, ErrorKind::Interrupted, Ok(()), Err(Failed), "hello"),
    (
        u32::MAX,
        ErrorKind::Interrupted,
        Err(Failed),
        Err(Failed),
        ".....",
    ),
    (1, ErrorKind::BrokenPipe, Err(Failed), Ok(4), "more."),
];

fn writes(
    rt: &impl Abort,
    row: &(
        u32,
        ErrorKind,
        Result<(), Failed>,
        Result<usize, Failed>,
        &str,
    ),
) {
    let (failing, kind, all, more, written) = *row;
    let mut room = *b".....";
    let mut sink = OutSink::new(Shaky::new(room.as_mut_slice(), failing, kind));
    let answers = (write_all_of(&mut sink, b"hello"), sink.put(b"more"));
    assert_eq!(rt; answers.0, all, "{failing} times {kind:?}");
    assert_eq!(rt; answers.1, more, "{failing} times {kind:?}");
    assert_eq!(rt;
        room.as_slice(),
        written.as_bytes(),
        "{failing} times {kind:?}"
    );
}

#[test]
fn puts_to_a_writer(rt: HostRuntime) {
    for row in &WRITES {
        writes(&rt, row);
    }
}

#[test]
fn puts_to_standard_output(rt: HostRuntime) {
    let mut sink = OutSink::new(io::writer(&rt));
    assert_eq!(rt; sink.put(b"\n"), Ok(1));
    assert_eq!(rt; write_all_of(&mut sink, b"put\n"), Ok(()));
}
