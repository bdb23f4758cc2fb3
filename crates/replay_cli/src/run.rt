//! The top call: from words, a store, a sink and a shelf to a status.

ghost use Rattle.settings_reader.specs.Seen.{as_settings};
ghost use Rattle.std.specs.Prelude.{◌≡◌, ◌≢◌, ◌≤◌, ◌<◌, ◌⊎◌, ◌↔◌, map, true, false, length, List, ℕ, Option, Some, None, Ok, IfOk, string_bytes};
ghost use Rattle.std.specs.Option.{option_map};
ghost use Rattle.edit_base.specs.declared.bounds.TheConstants.Limits.{TRACE_BYTES, DEPTH};
ghost use Rattle.replay_io.specs.Outside.{Rose};
ghost use Rattle.watcher_rounds.specs.Rounds.{AreOnShelf};
ghost use Rattle.replay_cli.specs.Runs.{requested_by, AsksFor, told, told_by, told_settings, Ends, Leaves, IsComplete};
ghost use Rattle.replay_cli.specs.SetUps.{SetsUp, SetUpAsks, TraceAsks, Settles, given_lines};
ghost use Rattle.trace_model.specs.Output.{setup};
ghost use Rattle.trace_model.specs.Settings.{FitsLimits, read_settings as read_settings_of};

use crate::checker::check_trace;
use crate::player::play_lines;
use crate::requests::{Task, request_of};
use crate::status::Status;
use edit_base::{Limits, NoMemory, Steps};
use editor_core::Editor;
use replay_io::{ReadEnd, ReadFault, Sink, Store, read_all};
use settings_reader::{Settings, built_in, load_shelf, read_settings};
use std::alloc::Global;
use std::marker::Brand;
use std::sync::ledger::{Blank, Ledger};
use trace_model::SettingsFault;
use watcher_api::{Slots, Watcher};

/// Runs the program on its words, its own name not among them. Both tasks read the settings of the first of these names
/// from the store, load the watchers that they ask for on the shelf, and read the trace of the second. A watcher that
/// isn't blank can't be loaded. `play SETTINGS TRACE` runs the trace over an empty text under the settings and writes
/// what each command prints, and the text and its spans at the end; loaded watchers whose spans a change of the text
/// meets are told of it, and the edits that they answer are done. `check SETTINGS TRACE` runs no command and writes how
/// many there are.
pub fn run<S: Store, K: Sink>(
    alloc: Global,
    words: &[String],
    store: &mut S,
    sink: &mut K,
    shelf: &mut Vec<Box<dyn Watcher>>,
) -> Status
    // The words alone decide this status, and then nothing is written and no watcher loaded.
    ensures usage { (result ≡ Status.Usage) ↔ (requested_by (map string_bytes words.now) ≡ None) }
    ensures unwritten { result ≡ Status.Usage → K.written sink.new ≡ K.written sink.old }
    ensures unloaded { result ≡ Status.Usage
        → map (λ b. mind b) shelf.new.items ≡ map (λ b. mind b) shelf.old.items }

    // By what the store tells: what is left of the trace, what was written, and the minds of the shelf then.
    ensures leaves { Leaves (told (requested_by (map string_bytes words.now)) (S.stands store.old)
        (map (λ b. mind b) shelf.old.items)) result
        (S.left store.new) (K.written sink.old) (K.written sink.new) (map (λ b. mind b) shelf.new.items) }

    // The causes of faults, that no fault is swallowed, and the names asked for.
    ensures read_fault { result ≡ Status.ReadFault → Rose (S.faults store.old) (S.faults store.new) }
    ensures quiet_store { result ≢ Status.ReadFault → S.faults store.new ≡ S.faults store.old }
    ensures unread { result ≡ Status.ReadFault → K.written sink.new ≡ K.written sink.old }
    ensures write_fault { result ≡ Status.WriteFault → Rose (K.faults sink.old) (K.faults sink.new) }
    ensures quiet_sink { result ≢ Status.WriteFault → K.faults sink.new ≡ K.faults sink.old }
    ensures stands { (name : List ℕ) → S.stands store.new name ≡ S.stands store.old name }
    ensures asks { AsksFor (requested_by (map string_bytes words.now)) result (S.asked store.old) (S.asked store.new) }

    // Where the settings have a reading and their watchers are loaded, every line is a command and no device fails, a
    // run is done or wants memory.
    ensures complete { IsComplete (told (requested_by (map string_bytes words.now)) (S.stands store.old)
        (map (λ b. mind b) shelf.old.items))
        → ¬ Rose (S.faults store.old) (S.faults store.new) → ¬ Rose (K.faults sink.old) (K.faults sink.new)
        → (result ≡ Status.Done) ⊎ (result ≡ Status.NoMemory) }
{
    match request_of(words) {
        None => Status::Usage,
        Some(request) => run_request(
            alloc,
            request.task,
            request.settings,
            request.trace,
            store,
            sink,
            shelf,
        ),
    }
}

// Reads the settings and loads the shelf, and then runs or checks the trace.
fn run_request<S: Store, K: Sink>(
    alloc: Global,
    task: Task,
    settings: Option<&str>,
    trace: &str,
    store: &mut S,
    sink: &mut K,
    shelf: &mut Vec<Box<dyn Watcher>>,
) -> Status
    ensures leaves { Leaves (told (Some (record {
      task = task;
      settings = option_map (λ name. name.now) settings.entry;
      trace = trace.now;
    })) (S.stands store.old) (map (λ b. mind b) shelf.old.items)) result
        (S.left store.new) (K.written sink.old) (K.written sink.new) (map (λ b. mind b) shelf.new.items) }
    ensures read_fault { result ≡ Status.ReadFault → Rose (S.faults store.old) (S.faults store.new) }
    ensures quiet_store { result ≢ Status.ReadFault → S.faults store.new ≡ S.faults store.old }
    ensures unread { result ≡ Status.ReadFault → K.written sink.new ≡ K.written sink.old }
    ensures write_fault { result ≡ Status.WriteFault → Rose (K.faults sink.old) (K.faults sink.new) }
    ensures quiet_sink { result ≢ Status.WriteFault → K.faults sink.new ≡ K.faults sink.old }
    ensures stands { (name : List ℕ) → S.stands store.new name ≡ S.stands store.old name }
    ensures asks { AsksFor (Some (record {
      task = task;
      settings = option_map (λ name. name.now) settings.entry;
      trace = trace.now;
    }))
        result (S.asked store.old) (S.asked store.new) }
{
    match set_up(alloc, settings, store) {
        Err(status) => status,
        Ok(settings) => match load_shelf(&settings, shelf) {
            Err(fault) => Status::SettingsFault(fault),
            Ok(slots) => run_trace(alloc, settings, slots, task, trace, store, sink, shelf),
        },
    }
}

// The settings, or why a run stops before its trace.
fn set_up<S: Store>(
    alloc: Global,
    settings: Option<&str>,
    store: &mut S,
) -> Result<Settings, Status>
    ensures told { SetsUp result (told_settings (option_map (λ name. name.now) settings.entry) (S.stands store.old)) }
    ensures fits { IfOk result (λ settings. FitsLimits (as_settings settings)) }
    ensures asks { SetUpAsks (option_map (λ name. name.now) settings.entry) result (S.asked store.old)
        (S.asked store.new) }
    ensures read_fault { result ≡ Err Status.ReadFault → Rose (S.faults store.old) (S.faults store.new) }
    ensures quiet_store { result ≢ Err Status.ReadFault → S.faults store.new ≡ S.faults store.old }
    ensures stands { (other : List ℕ) → S.stands store.new other ≡ S.stands store.old other }
    ensures counts { S.faults store.old ≤ S.faults store.new }
{
    match settings {
        None => match built_in(alloc) {
            Ok(settings) => Ok(settings),
            Err(NoMemory) => Err(Status::NoMemory),
        },
        Some(name) => read_settings_file(alloc, name, store),
    }
}

// The settings of a file, or why a run stops there.
fn read_settings_file<S: Store>(
    alloc: Global,
    name: &str,
    store: &mut S,
) -> Result<Settings, Status>
    ensures told { SetsUp result (told_settings (Some name.now) (S.stands store.old)) }
    ensures fits { IfOk result (λ settings. FitsLimits (as_settings settings)) }
    ensures asks { SetUpAsks (Some name.now) result (S.asked store.old) (S.asked store.new) }
    ensures read_fault { result ≡ Err Status.ReadFault → Rose (S.faults store.old) (S.faults store.new) }
    ensures quiet_store { result ≢ Err Status.ReadFault → S.faults store.new ≡ S.faults store.old }
    ensures stands { (other : List ℕ) → S.stands store.new other ≡ S.stands store.old other }
    ensures counts { S.faults store.old ≤ S.faults store.new }
{
    let mut bytes = Vec::new(alloc);
    match read_all(store, name, Limits::SETTINGS_BYTES, &mut bytes) {
        Ok(ReadEnd::Whole) => settings_of(alloc, bytes.as_slice()),
        Ok(ReadEnd::Over) => Err(Status::SettingsFault(SettingsFault::Limit)),
        Err(ReadFault::Failed) => Err(Status::ReadFault),
        Err(ReadFault::NoMemory) => Err(Status::NoMemory),
    }
}

// The settings that these bytes say, or their fault.
fn settings_of(alloc: Global, bytes: &[u8]) -> Result<Settings, Status>
    ensures settles { Settles result (read_settings_of bytes.now) }
    ensures fits { IfOk result (λ settings. FitsLimits (as_settings settings)) }
{
    match read_settings(alloc, bytes) {
        Ok(settings) => Ok(settings),
        Err(SettingsFault::NoMemory) => Err(Status::NoMemory),
        Err(fault) => Err(Status::SettingsFault(fault)),
    }
}

// Reads the trace, whole or up to its limit, and runs or checks it.
fn run_trace<S: Store, K: Sink>(
    alloc: Global,
    settings: Settings,
    slots: Slots,
    task: Task,
    trace: &str,
    store: &mut S,
    sink: &mut K,
    shelf: &mut Vec<Box<dyn Watcher>>,
) -> Status
    requires depth { settings.depth ≤ DEPTH }
    requires on_shelf { AreOnShelf slots.items (map (λ b. mind b) shelf.old.items) }
    ensures leaves { Leaves (told_by task (map (λ b. mind b) shelf.old.items)
        (Ok (setup (as_settings settings) slots.items)) (S.stands store.old trace.now)) result
        (S.left store.new) (K.written sink.old) (K.written sink.new) (map (λ b. mind b) shelf.new.items) }
    ensures read_fault { result ≡ Status.ReadFault → Rose (S.faults store.old) (S.faults store.new) }
    ensures quiet_store { result ≢ Status.ReadFault → S.faults store.new ≡ S.faults store.old }
    ensures unread { result ≡ Status.ReadFault → K.written sink.new ≡ K.written sink.old }
    ensures write_fault { result ≡ Status.WriteFault → Rose (K.faults sink.old) (K.faults sink.new) }
    ensures quiet_sink { result ≢ Status.WriteFault → K.faults sink.new ≡ K.faults sink.old }
    ensures stands { (name : List ℕ) → S.stands store.new name ≡ S.stands store.old name }
    ensures asks { TraceAsks trace.now result (S.asked store.old) (S.asked store.new) }
    ensures counts { S.faults store.old ≤ S.faults store.new }
{
    let mut bytes = Vec::new(alloc);
    match read_all(store, trace, Limits::TRACE_BYTES, &mut bytes) {
        Ok(ReadEnd::Whole) => {
            run_bytes(
                alloc,
                settings,
                slots,
                task,
                bytes.as_slice(),
                false,
                sink,
                shelf,
            )
        }
        Ok(ReadEnd::Over) => {
            run_bytes(
                alloc,
                settings,
                slots,
                task,
                bytes.as_slice(),
                true,
                sink,
                shelf,
            )
        }
        Err(ReadFault::Failed) => Status::ReadFault,
        Err(ReadFault::NoMemory) => Status::NoMemory,
    }
}

// Runs or checks a trace, or the front of one that was cut off.
fn run_bytes<K: Sink>(
    alloc: Global,
    settings: Settings,
    slots: Slots,
    task: Task,
    bytes: &[u8],
    is_cut: bool,
    sink: &mut K,
    shelf: &mut Vec<Box<dyn Watcher>>,
) -> Status
    requires within { length bytes.now ≤ TRACE_BYTES }
    requires depth { settings.depth ≤ DEPTH }
    requires on_shelf { AreOnShelf slots.items (map (λ b. mind b) shelf.old.items) }
    ensures ends { Ends (given_lines (setup (as_settings settings) slots.items)
        (map (λ b. mind b) shelf.old.items) task is_cut bytes.now) result
        (K.written sink.old) (K.written sink.new) (map (λ b. mind b) shelf.new.items) }
    ensures whole { result ≡ Status.Done → is_cut ≡ false }
    ensures cut { result ≡ Status.TraceTooLong → is_cut ≡ true }
    ensures failed { result ≡ Status.WriteFault → Rose (K.faults sink.old) (K.faults sink.new) }
    ensures quiet_sink { result ≢ Status.WriteFault → K.faults sink.new ≡ K.faults sink.old }
{
    match task {
        Task::Play => {
            let blank = Blank::new(1);
            play_counted::<K, Brand>(alloc, settings, slots, bytes, is_cut, sink, shelf, blank)
        }
        Task::Check => check_trace(alloc, bytes, is_cut, sink),
    }
}

// Runs a trace over an empty text, with a counter of steps.
fn play_counted<K: Sink, L: Ledger>(
    alloc: Global,
    settings: Settings,
    slots: Slots,
    bytes: &[u8],
    is_cut: bool,
    sink: &mut K,
    shelf: &mut Vec<Box<dyn Watcher>>,
    blank: Blank,
) -> Status
    requires within { length bytes.now ≤ TRACE_BYTES }
    requires depth { settings.depth ≤ DEPTH }
    requires on_shelf { AreOnShelf slots.items (map (λ b. mind b) shelf.old.items) }
    requires name { blank.name ≡ L.name }
    requires parts { blank.parts ≡ L.parts }
    requires some { 0 < blank.parts }
    ensures ends { Ends (given_lines (setup (as_settings settings) slots.items)
        (map (λ b. mind b) shelf.old.items) Task.Play is_cut bytes.now) result
        (K.written sink.old) (K.written sink.new) (map (λ b. mind b) shelf.new.items) }
    ensures whole { result ≡ Status.Done → is_cut ≡ false }
    ensures cut { result ≡ Status.TraceTooLong → is_cut ≡ true }
    ensures failed { result ≡ Status.WriteFault → Rose (K.faults sink.old) (K.faults sink.new) }
    ensures quiet_sink { result ≢ Status.WriteFault → K.faults sink.new ≡ K.faults sink.old }
{
    let mut steps = Steps::<L>::start(blank);
    match Editor::new(alloc, settings, slots) {
        Err(NoMemory) => Status::NoMemory,
        Ok(mut editor) => play_lines(alloc, bytes, is_cut, &mut editor, shelf, sink, &mut steps),
    }
}
