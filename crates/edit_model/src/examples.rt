//! Worked examples of the definitions, each the contract of a function that does nothing.

ghost use Rattle.edit_model.specs.EventExamples.{TellsShifts, TellsToTheEnd, TellsOthers, TellsRemoved, TellsGroups, TellsByPriority, TellsSets, TellsOfOneId};
ghost use Rattle.edit_model.specs.Examples.{FiltersTexts, AttachesSpans, AttachesRegion};

/// Some texts and spans as filters leave them.
pub fn filters_texts()
    ensures { FiltersTexts }
{}

/// Some spans that come with a text.
pub fn attaches_spans()
    ensures spans { AttachesSpans }
    ensures region { AttachesRegion }
{}

/// Some edits, and which watchers are told of which spans.
pub fn tells_spans()
    ensures shifts { TellsShifts }
    ensures end { TellsToTheEnd }
    ensures others { TellsOthers }
    ensures removed { TellsRemoved }
    ensures groups { TellsGroups }
    ensures priority { TellsByPriority }
    ensures sets { TellsSets }
    ensures id { TellsOfOneId }
{}
