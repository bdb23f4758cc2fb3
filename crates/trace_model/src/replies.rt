//! What is answered to a command that isn't an edit, and to a reading of a trace.

use edit_model::Logged;

/// One line in answer.
#[derive(Clone, Copy, Debug, PartialEq, Eq)]
pub enum Reply {
    /// A verdict: on a query whose range is refused, on a batch that begins or ends, or on a connection's command
    /// without items.
    Verdict(Logged),
    /// How many spans were found; a line for each of them follows.
    Found(u32),
    /// The next place where a span starts or ends.
    Edge(u32),
    /// There is no selected text.
    Nothing,
    /// The places of selection and composing region, -1 where there is none.
    Report {
        sel_start: i64,
        sel_end: i64,
        start: i64,
        end: i64,
    },
    /// The first line of the block behind the last command.
    End,
    /// The selection's places in that block.
    Selection {
        start: i64,
        end: i64,
    },
    /// The composing region's places there.
    Region {
        start: i64,
        end: i64,
    },
    /// How many commands a trace has that was read and not run.
    Checked(u32),
}
