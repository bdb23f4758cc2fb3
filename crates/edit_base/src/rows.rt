//! Spans as rows, and the text and spans that a replacement brings.

ghost use Rattle.std.specs.Prelude.{◌≡◌, IfOk};

use crate::kinds::What;
use crate::list::Items;
use crate::memory::NoMemory;
use std::alloc::Global;

/// An attached span. Places count UTF-16 units. `order` rises along the list of spans, and only its comparison means
/// anything.
#[derive(Clone, Copy, Debug, PartialEq, Eq)]
pub struct SpanRow {
    pub id: u32,
    pub start: u32,
    pub end: u32,
    pub flags: u32,
    pub order: u64,
    pub what: What,
}

/// A span that a replacement brings, with its places in the incoming text as given.
#[derive(Clone, Copy, Debug, PartialEq, Eq)]
pub struct NewSpan {
    pub id: u32,
    pub start: u32,
    pub end: u32,
    pub flags: u32,
    pub what: What,
}

/// What a replacement brings: UTF-16 units, spans over them, and whether the composing region covers them all.
#[derive(Debug, Drop)]
pub struct Incoming {
    pub units: Items<u16>,
    pub spans: Items<NewSpan>,
    pub composing: bool,
}

impl Incoming {
    /// Units, and spans, that a replacement may bring.
    pub const MOST: u32 = 1_073_741_824;

    /// The same units and spans again, in memory of their own.
    pub fn copy(&self, alloc: Global) -> Result<Incoming, NoMemory>
        ensures { IfOk result (λ it. it ≡ self.now) }
    {
        Ok(Incoming {
            units: Items::from_vec(self.units.as_slice().to_vec(alloc)?),
            spans: Items::from_vec(self.spans.as_slice().to_vec(alloc)?),
            composing: self.composing,
        })
    }
}

/// Which spans a query asks for.
#[derive(Clone, Copy, Debug, PartialEq, Eq)]
pub enum Pick {
    /// Every span.
    All,
    /// The seats of watchers.
    Watches,
    /// Margins, floats and faces.
    Layout,
}
