//! Worked examples of what is read and printed, each the contract of a function that does nothing.

ghost use Rattle.trace_model.specs.LineExamples.{ReadsLines, ReadsSpans, ReadsConnections, PrintsLines};
ghost use Rattle.trace_model.specs.SessionExamples.{ScalesSelections, ReadsRound, PlacesCursors, ReportsOnce, MarksRegions, SparesComposing, CountsCharacters, ClampsDeletions, TypesText, MovesRegions};

/// Some lines of a trace, and what they ask for.
pub fn reads_lines()
    ensures lines { ReadsLines }
    ensures spans { ReadsSpans }
    ensures connections { ReadsConnections }
{}

/// Some lines as they are printed.
pub fn prints_lines()
    ensures { PrintsLines }
{}

/// Some commands that set a selection, and what is printed of them.
pub fn prints_selections()
    ensures scales { ScalesSelections }
    ensures reads { ReadsRound }
{}

/// Some commands of a connection, and what is printed of them.
pub fn prints_connections()
    ensures cursors { PlacesCursors }
    ensures batches { ReportsOnce }
    ensures regions { MarksRegions }
    ensures spares { SparesComposing }
    ensures characters { CountsCharacters }
    ensures clamps { ClampsDeletions }
    ensures typing { TypesText }
    ensures moves { MovesRegions }
{}
