//! The operations of a trace.

/// An operation. What it is called and which fields it has is said by the table of operations.
#[derive(Clone, Copy, Debug, PartialEq, Eq)]
pub enum Op {
    Replace,
    SetSpan,
    RemoveSpan,
    SpansOver,
    NextEdge,
    Select,
    Deselect,
    Compose,
    Commit,
    Finish,
    Region,
    DeleteAround,
    DeletePoints,
    SetSelection,
    TextBefore,
    TextAfter,
    Selected,
    Begin,
    End,
}
