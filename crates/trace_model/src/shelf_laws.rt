//! What settings load on a shelf: each law is the contract of a function that does nothing.

ghost use Rattle.trace_model.specs.ShelfLaws.{ShelvesWatchers, LoadsWatchers, NamesKinds, NamesAllKinds};

/// Each slot's watcher stands on the shelf, which keeps its number of watchers. There are as many slots as entries,
/// or fewer where an entry found no watcher that it could load. The watcher in a slot was of its entry's kind and is
/// loaded with its entry's numbers, no watcher is in two slots, and the other watchers are as before.
pub fn shelves_are_loaded()
    ensures shelved { ShelvesWatchers }
    ensures loads { LoadsWatchers }
{}

/// Each name of a kind of watchers means the kind that is called so: its number, and its row of the table of kinds. Every
/// kind has a name, and no other number has one.
pub fn kinds_are_named()
    ensures rows { NamesKinds }
    ensures all { NamesAllKinds }
{}
