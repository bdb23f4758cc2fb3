//! Loading the watchers that settings ask for.

ghost use Rattle.std.specs.Prelude.{◌≡◌, ◌≤◌, ◌<◌, ◌++◌, ◌∷◌, [], ◌&&◌, ◌==◌, not, true, false, None, Some, length, map, IfOk, IfErr, IfSome};
ghost use Rattle.std.specs.List.{All};
ghost use Rattle.edit_base.specs.declared.bounds.TheConstants.Limits.{WATCHERS};
ghost use Rattle.edit_model.specs.Minds.{loaded_mind};
ghost use Rattle.trace_model.specs.Shelves.{loaded_shelf, load_next, so_far, first_free as first_free_by, is_taken};

use crate::settings::Settings;
use trace_model::{SettingsFault, WatcherSetting};
use watcher_api::{Slots, Watcher};

/// Loads the watchers that the settings ask for, and answers their shelf places: that of the watcher in slot k stands
/// at k. Each takes, in order, the first watcher on the shelf that none before it took and that is of its kind, and
/// loads it with its numbers. There are at most 8 watchers in the settings. No memory is taken.
///
/// # Errors
/// `Watcher` where there is no such watcher, or it isn't blank, or the numbers don't fit its kind. What was loaded
/// before that stays loaded.
pub fn load_shelf(
    settings: &Settings,
    shelf: &mut Vec<Box<dyn Watcher>>,
) -> Result<Slots, SettingsFault>
    requires few { length settings.now.watchers ≤ WATCHERS }
    ensures minds { map (λ b. mind b) shelf.new.items
        ≡ (loaded_shelf settings.now.watchers (map (λ b. mind b) shelf.old.items)).minds }
    ensures ok { IfOk result (λ slots.
        ((loaded_shelf settings.now.watchers (map (λ b. mind b) shelf.old.items)).fits ≡ true)
        × (slots.items ≡ (loaded_shelf settings.now.watchers (map (λ b. mind b) shelf.old.items)).slots)) }
    ensures slots { IfOk result (λ slots. length slots.items ≡ length settings.now.watchers) }
    ensures on_shelf { IfOk result (λ slots.
        All (λ place. place < length (map (λ b. mind b) shelf.new.items)) slots.items) }
    ensures err { IfErr result (λ it. (it ≡ SettingsFault.Watcher)
        × ((loaded_shelf settings.now.watchers (map (λ b. mind b) shelf.old.items)).fits ≡ false)) }
{
    let mut slots = Slots::new();
    for entry in settings.watchers.as_slice() {
        let place = load_next(entry, slots.as_slice(), shelf)?;
        slots.push(place);
    }
    Ok(slots)
}

// Loads the first watcher that is free for an entry, and answers its shelf place.
fn load_next(
    entry: &WatcherSetting,
    slots: &[usize],
    shelf: &mut Vec<Box<dyn Watcher>>,
) -> Result<usize, SettingsFault>
    ensures ok { IfOk result (λ place. load_next entry.now (so_far slots.now (map (λ b. mind b) shelf.old.items))
        ≡ Some (so_far (slots.now ++ place ∷ []) (map (λ b. mind b) shelf.new.items))) }
    ensures err { IfErr result (λ it. (it ≡ SettingsFault.Watcher)
        × (load_next entry.now (so_far slots.now (map (λ b. mind b) shelf.old.items)) ≡ None)
        × (map (λ b. mind b) shelf.new.items ≡ map (λ b. mind b) shelf.old.items)) }
{
    match first_free(entry.kind, slots, shelf) {
        Some(place) => {
            if load(&mut shelf[place], entry.numbers.as_slice()) {
                Ok(place)
            } else {
                Err(SettingsFault::Watcher)
            }
        }
        None => Err(SettingsFault::Watcher),
    }
}

// Loads one watcher.
fn load(watcher: &mut Box<dyn Watcher>, numbers: &[u32]) -> bool
    ensures loaded { result ≡ true → loaded_mind (mind watcher.old) numbers.now ≡ Some (mind watcher.new) }
    ensures refused { result ≡ false → loaded_mind (mind watcher.old) numbers.now ≡ None }
    ensures unchanged { result ≡ false → mind watcher.new ≡ mind watcher.old }
{
    watcher.load(numbers)
}

// The first shelf place that is free for a kind.
fn first_free(kind: u32, slots: &[usize], shelf: &[Box<dyn Watcher>]) -> Option<usize>
    ensures first { result ≡ first_free_by kind slots.now (map (λ b. mind b) shelf.now) }
    ensures within { IfSome result (λ place. place < length shelf.now) }
{
    for place in 0..shelf.len() {
        if is_free(kind, slots, place, &shelf[place]) {
            return Some(place);
        }
    }
    None
}

// Whether a watcher is of this kind, and none of these slots has its shelf place.
fn is_free(kind: u32, slots: &[usize], place: usize, watcher: &Box<dyn Watcher>) -> bool
    ensures { result ≡ ((mind watcher.now).kind == kind && not (is_taken slots.now place)) }
{
    watcher.kind() == kind && !slots.contains(&place)
}
