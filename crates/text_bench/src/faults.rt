//! Why a run stops.

use edit_base::NoMemory;

/// Why a run stops.
#[derive(Clone, Copy, Debug, PartialEq, Eq)]
pub enum Fault {
    /// The words ask for nothing that can be done.
    Usage,
    /// A replacement or a span wasn't done, so that nothing was measured.
    NotDone,
    /// The output couldn't be written.
    Write,
    /// There was no memory.
    NoMemory,
}

impl From<NoMemory> for Fault {
    fn from(_error: NoMemory) -> Fault {
        Fault::NoMemory
    }
}

impl Fault {
    /// The program's exit code.
    pub fn code(&self) -> u8 {
        match self {
            Fault::Usage => 1,
            Fault::NotDone => 2,
            Fault::Write => 3,
            Fault::NoMemory => 4,
        }
    }

    /// What is said of it on standard error, without a line end.
    pub fn text(&self) -> &'static str {
        match self {
            Fault::Usage => {
                "fault usage: cursor, anywhere, backspace, ends, clear, pile, query, edge, near, emptying, gone, moved, new, removal, put, typed, select, report, compose, commit or delete, then LENGTH from 1 to 1048576, SPANS up to 4096, NESTED of them, and COUNT as far as the text has room"
            }
            Fault::NotDone => "fault not-done",
            Fault::Write => "fault write",
            Fault::NoMemory => "fault memory",
        }
    }
}
