//! Shelves with two watchers of one kind.

use settings_reader::{Settings, SettingsFault, load_shelf, read_settings};
use std::alloc::{AllocError, Global};
use std::process::Abort;
use std::test::Fail;
use watcher_api::{Slots, Watcher};
use watcher_kit::{Echo, Note, Pair};

// The watchers that a file asks for, the shelf places that they take or none, and the shelf then, a plus for each watcher
// that was loaded and a minus for each that is blank.
struct Case {
    watchers: &'static str,
    places: Result<&'static [usize], SettingsFault>,
    loaded: &'static str,
}

// On a shelf of a note, a pair, an echo and a pair.
const CASES: [Case; 4] = [
    Case {
        watchers: "watcher = [{kind = 'pair', numbers = [40, 41]}, {kind = 'pair', numbers = [40, 41]}]",
        places: Ok(&[1, 3]),
        loaded: "-+-+",
    },
    Case {
        watchers: "watcher = [{kind = 'echo', numbers = []}, {kind = 'pair', numbers = [40, 41]}, \
            {kind = 'note', numbers = []}, {kind = 'pair', numbers = [91, 93]}]",
        places: Ok(&[2, 1, 0, 3]),
        loaded: "++++",
    },
    // None of the kind is left.
    Case {
        watchers: "watcher = [{kind = 'pair', numbers = [40, 41]}, {kind = 'pair', numbers = [40, 41]}, \
            {kind = 'pair', numbers = [40, 41]}, {kind = 'echo', numbers = []}]",
        places: Err(SettingsFault::Watcher),
        loaded: "-+-+",
    },
    // The numbers don't fit, and no other watcher is tried with them.
    Case {
        watchers: "watcher = [{kind = 'note', numbers = []}, {kind = 'pair', numbers = [40, 40]}]",
        places: Err(SettingsFault::Watcher),
        loaded: "+---",
    },
];

#[test]
fn each_entry_takes_the_first_free_watcher_of_its_kind(rt: HostRuntime) -> Result<(), Fail> {
    for case in &CASES {
        by_settings(&rt, rt.alloc(), case)?;
    }
    Ok(())
}

fn by_settings(rt: &impl Abort, alloc: Global, case: &Case) -> Result<(), Fail> {
    let settings = read_settings(alloc, case.watchers.as_bytes())?;
    on_shelf(rt, alloc, case, &settings)
}

fn on_shelf(rt: &impl Abort, alloc: Global, case: &Case, settings: &Settings) -> Result<(), Fail> {
    let mut shelf = made_shelf(alloc)?;
    loads(rt, alloc, case, settings, &mut shelf)
}

fn made_shelf(alloc: Global) -> Result<Vec<Box<dyn Watcher>>, AllocError> {
    let mut shelf: Vec<Box<dyn Watcher>> = Vec::new(alloc);
    shelf.push(Box::new(alloc, Note::blank())?)?;
    shelf.push(Box::new(alloc, Pair::blank())?)?;
    shelf.push(Box::new(alloc, Echo::blank())?)?;
    shelf.push(Box::new(alloc, Pair::blank())?)?;
    Ok(shelf)
}

fn loads(
    rt: &impl Abort,
    alloc: Global,
    case: &Case,
    settings: &Settings,
    shelf: &mut Vec<Box<dyn Watcher>>,
) -> Result<(), Fail> {
    assert!(rt; settings.watchers.len() <= 8);
    takes(rt, case, load_shelf(settings, shelf));
    let mut signs = String::new(alloc);
    write_signs(shelf, &mut signs)?;
    assert_eq!(rt; signs.as_str(), case.loaded);
    Ok(())
}

fn takes(rt: &impl Abort, case: &Case, slots: Result<Slots, SettingsFault>) {
    match (slots, case.places) {
        (Ok(slots), Ok(places)) => assert_eq!(rt; slots.as_slice(), places),
        (Err(fault), Err(wanted)) => assert_eq!(rt; fault, wanted),
        _ => assert!(rt; false),
    }
}

// Loads those that are blank.
fn write_signs(shelf: &mut Vec<Box<dyn Watcher>>, signs: &mut String) -> Result<(), AllocError> {
    for watcher in shelf {
        signs.push(if can_load(watcher) { '-' } else { '+' })?;
    }
    Ok(())
}

fn can_load(watcher: &mut Box<dyn Watcher>) -> bool {
    watcher.load(&[]) || watcher.load(&[1, 2])
}
