//! A store and a sink that fail at one of their calls.

use crate::shelf::run_on_blank_shelf;
use crate::status::Status;
use replay_io::{MemorySink, MemoryStore, StoredFile};
use std::alloc::Global;
use std::process::Abort;
use std::test::Fail;

// A run of `play - T`: the trace, the call of the store and that of the sink that fail, counted from 1, where 0 is none,
// how the run ends, and what was written.
struct Run {
    trace: &'static str,
    read: u32,
    write: u32,
    status: Status,
    written: &'static str,
}

const RUNS: [Run; 6] = [
    // The file can't be begun, a read in mid-stream fails, and the read behind the last byte.
    Run {
        trace: HELLO,
        read: 1,
        write: 0,
        status: Status::ReadFault,
        written: "",
    },
    Run {
        trace: HELLO,
        read: 3,
        write: 0,
        status: Status::ReadFault,
        written: "",
    },
    Run {
        trace: "\n",
        read: 3,
        write: 0,
        status: Status::ReadFault,
        written: "",
    },
    // A write fails at once, in a command's output, and in the end block.
    Run {
        trace: HELLO,
        read: 0,
        write: 1,
        status: Status::WriteFault,
        written: "",
    },
    Run {
        trace: HELLO,
        read: 0,
        write: 2,
        status: Status::WriteFault,
        written: "> 1 ",
    },
    Run {
        trace: "",
        read: 0,
        write: 3,
        status: Status::WriteFault,
        written: "end\ntext",
    },
];

const HELLO: &str = r#"{"op":"replace","start":0,"end":0,"text":"hello"}
{"op":"replace","start":1,"end":4,"text":"xy"}
"#;

#[test]
fn failing_calls_are_faults(rt: HostRuntime) -> Result<(), Fail> {
    for run in &RUNS {
        over_words(&rt, rt.alloc(), run)?;
    }
    Ok(())
}

fn over_words(rt: &impl Abort, alloc: Global, run: &Run) -> Result<(), Fail> {
    let mut words = Vec::new(alloc);
    add_words(alloc, &mut words)?;
    over_store(rt, alloc, run, words.as_slice())
}

fn add_words(alloc: Global, words: &mut Vec<String>) -> Result<(), Fail> {
    words.push(String::from_str(alloc, "play")?)?;
    words.push(String::from_str(alloc, "-")?)?;
    words.push(String::from_str(alloc, "T")?)?;
    Ok(())
}

// The calls of the store hand out at most 7 bytes.
fn over_store(rt: &impl Abort, alloc: Global, run: &Run, words: &[String]) -> Result<(), Fail> {
    let mut files = Vec::new(alloc);
    add_trace(alloc, run.trace, &mut files)?;
    let failing = Vec::from_slice(alloc, &[run.read])?;
    let mut store = MemoryStore::new(files, 7, failing);
    over_sink(rt, alloc, run, words, &mut store)
}

fn add_trace(alloc: Global, trace: &str, files: &mut Vec<StoredFile>) -> Result<(), Fail> {
    let name = String::from_str(alloc, "T")?;
    let bytes = Vec::from_slice(alloc, trace.as_bytes())?;
    files.push(StoredFile { name, bytes })?;
    Ok(())
}

// Those of the sink take at most 4 bytes.
fn over_sink(
    rt: &impl Abort,
    alloc: Global,
    run: &Run,
    words: &[String],
    store: &mut MemoryStore,
) -> Result<(), Fail> {
    let failing = Vec::from_slice(alloc, &[run.write])?;
    let mut sink = MemorySink::new(alloc, 1_000, 4, failing)?;
    ends(rt, alloc, run, words, store, &mut sink);
    Ok(())
}

fn ends(
    rt: &impl Abort,
    alloc: Global,
    run: &Run,
    words: &[String],
    store: &mut MemoryStore,
    sink: &mut MemorySink,
) {
    let status = run_on_blank_shelf(alloc, words, store, sink);
    assert_eq!(rt; status, run.status);
    assert_eq!(rt; sink.written(), run.written.as_bytes());
}
