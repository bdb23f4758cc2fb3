//! What the definitions mean: each law is the contract of a function that does nothing.

ghost use Rattle.edit_model.specs.Laws.{OthersChangeNothing, KeepsWellFormed, KeepsSeats, HasFewWatchers, StaysInText, KeepsOrder, KeepsBoundaries, PullsToLeast, AttachesFirst, TakesPlaces, LeavesPlaces, CutsNoPair, KeepsLength, FiltersBrought, ClippingChangesNothing};

/// Only an edit whose verdict is done changes the state.
pub fn edits_that_are_not_done_change_nothing()
    ensures { OthersChangeNothing }
{}

/// Every edit leads from a well formed state to a well formed state, for any number of slots, where the spans that it
/// brings have their ends in order. Each watcher keeps a slot, and there are no more watchers than slots.
pub fn edits_keep_states_well_formed()
    ensures well_formed { KeepsWellFormed }
    ensures seats { KeepsSeats }
    ensures few { HasFewWatchers }
{}

/// The end table: ends stay in the text and in order, and paragraph ends stay at boundaries.
pub fn ends_stay_where_they_may()
    ensures in_text { StaysInText }
    ensures in_order { KeepsOrder }
    ensures at_boundaries { KeepsBoundaries }
    ensures least { PullsToLeast }
{}

/// Of the incoming spans of one id at most one is attached: the first that may stand where it would, unless a span of
/// this id is there.
pub fn incoming_spans_are_attached_once()
    ensures { AttachesFirst }
{}

/// A filter takes places in order to places of what it keeps, and where it keeps all, it leaves them alone. A length
/// filter cuts no pair and keeps to its length. What is filtered is still what a replacement may bring. Without filters
/// an edit does what it does as given.
pub fn filters_keep_places()
    ensures in_order { TakesPlaces }
    ensures alone { LeavesPlaces }
    ensures whole_pairs { CutsNoPair }
    ensures short { KeepsLength }
    ensures brought { FiltersBrought }
    ensures unfiltered { ClippingChangesNothing }
{}
