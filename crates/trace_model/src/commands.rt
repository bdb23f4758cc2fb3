//! What a line of a trace asks for.

ghost use Rattle.std.specs.Prelude.{◌≡◌};
ghost use Rattle.trace_model.specs.Operations.{op_of};

use crate::operations::Op;
use edit_base::{Incoming, What};

/// A command of a trace, one variant for each operation.
#[derive(Drop)]
pub enum Command {
    /// `replace`: the units from `start` to `end` become the incoming ones.
    Replace {
        start: i32,
        end: i32,
        incoming: Incoming,
    },
    /// `set_span`: a span is attached, or an attached one is given these places, flags and what.
    SetSpan {
        id: u32,
        start: i32,
        end: i32,
        flags: u32,
        what: What,
    },
    /// `remove_span`: an attached span goes.
    RemoveSpan {
        id: u32,
    },
    /// `spans_over`: the spans that lie over a range.
    SpansOver {
        start: i32,
        end: i32,
    },
    /// `next_edge`: the next place where a span starts or ends.
    NextEdge {
        start: i32,
        limit: i32,
    },
    /// `select`: the selection goes to these places.
    Select {
        start: i32,
        end: i32,
    },
    /// `deselect`: the selection goes.
    Deselect,
    /// `compose`: a connection's text becomes the composing text; `cursor` counts from what it replaces.
    Compose {
        incoming: Incoming,
        cursor: i32,
    },
    /// `commit`: a connection's text comes, and nothing is composed any more.
    Commit {
        incoming: Incoming,
        cursor: i32,
    },
    /// `finish`: nothing is composed any more.
    Finish,
    /// `region`: the units between two places become the composing region.
    Region {
        start: i32,
        end: i32,
    },
    /// `delete_around`: so many units before and behind the selection go.
    DeleteAround {
        before: u32,
        after: u32,
    },
    /// `delete_points`: so many characters before and behind the selection go.
    DeletePoints {
        before: u32,
        after: u32,
    },
    /// `set_selection`: the selection goes to these places, unless one lies outside the text.
    SetSelection {
        start: i32,
        end: i32,
    },
    /// `text_before`: the units before the selection.
    TextBefore {
        count: u32,
    },
    /// `text_after`: the units behind the selection.
    TextAfter {
        count: u32,
    },
    /// `selected`: the units in the selection.
    Selected,
    /// `begin`: a batch is begun, in which no report is made.
    Begin,
    /// `end`: the last batch that was begun ends.
    End,
}

impl Command {
    /// The operation that it is a command of.
    pub fn op(&self) -> Op
        ensures { result ≡ op_of self.now }
    {
        match self {
            Command::Replace { .. } => Op::Replace,
            Command::SetSpan { .. } => Op::SetSpan,
            Command::RemoveSpan { .. } => Op::RemoveSpan,
            Command::SpansOver { .. } => Op::SpansOver,
            Command::NextEdge { .. } => Op::NextEdge,
            Command::Select { .. } => Op::Select,
            Command::Deselect => Op::Deselect,
            Command::Compose { .. } => Op::Compose,
            Command::Commit { .. } => Op::Commit,
            Command::Finish => Op::Finish,
            Command::Region { .. } => Op::Region,
            Command::DeleteAround { .. } => Op::DeleteAround,
            Command::DeletePoints { .. } => Op::DeletePoints,
            Command::SetSelection { .. } => Op::SetSelection,
            Command::TextBefore { .. } => Op::TextBefore,
            Command::TextAfter { .. } => Op::TextAfter,
            Command::Selected => Op::Selected,
            Command::Begin => Op::Begin,
            Command::End => Op::End,
        }
    }
}
