//! What edits make of the selection and of the composing region: each law is the contract of a function that does nothing.

ghost use Rattle.edit_model.specs.SelectionLaws.{ScalesInside, SelectsPlaces, LeavesNoSelection, MarksPlaces, DropsRegions, ResolvesInOrder};

/// A select puts the selection at its places, and a deselect leaves none. Ends of it inside a replaced range stay in
/// the text that comes, and in order.
pub fn selections_stand_where_they_are_set()
    ensures scales { ScalesInside }
    ensures selects { SelectsPlaces }
    ensures deselects { LeavesNoSelection }
{}

/// A mark puts the composing region at its places. Behind the run of a drop there is no region, whatever the watchers
/// answer.
pub fn regions_come_and_go()
    ensures marks { MarksPlaces }
    ensures drops { DropsRegions }
{}

/// The step that an item is resolved to at its turn keeps a text well formed, where it brings what it may and may have
/// its turn.
pub fn items_resolve_in_order()
    ensures { ResolvesInOrder }
{}
