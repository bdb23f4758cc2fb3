//! The shelf that the program starts with.

ghost use Rattle.std.specs.Prelude.{ℕ, ◌≡◌, ◌≢◌, ◌⊎◌, ◌↔◌, List, map, None, IfOk, OnErr, string_bytes};
ghost use Rattle.edit_model.specs.Minds.{Mind};
ghost use Rattle.replay_io.specs.Outside.{Rose};
ghost use Rattle.replay_cli.specs.Runs.{requested_by, AsksFor, told, blank_shelf, Leaves, IsComplete};

use crate::requests::request_of;
use crate::run::run;
use crate::status::Status;
use edit_base::NoMemory;
use replay_io::{Sink, Store};
use std::alloc::Global;
use watcher_api::Watcher;
use watcher_kit::{Echo, Follow, Limit, Note, Paint, Pair, Squeeze, Swap};

/// Runs the program with a shelf of one blank watcher of each kind that there is, in the order of the kinds, and promises
/// what `run` does of that shelf. The shelf goes with the call, so that of the minds behind it there is only that some
/// are. Without memory for the shelf nothing is asked for.
pub fn run_on_blank_shelf<S: Store, K: Sink>(
    alloc: Global,
    words: &[String],
    store: &mut S,
    sink: &mut K,
) -> Status
    ensures usage { (result ≡ Status.Usage) ↔ (requested_by (map string_bytes words.now) ≡ None) }
    ensures unwritten { result ≡ Status.Usage → K.written sink.new ≡ K.written sink.old }
    ensures leaves { (minds : List Mind)
        × Leaves (told (requested_by (map string_bytes words.now)) (S.stands store.old) blank_shelf) result
        (S.left store.new) (K.written sink.old) (K.written sink.new) minds }
    ensures read_fault { result ≡ Status.ReadFault → Rose (S.faults store.old) (S.faults store.new) }
    ensures quiet_store { result ≢ Status.ReadFault → S.faults store.new ≡ S.faults store.old }
    ensures unread { result ≡ Status.ReadFault → K.written sink.new ≡ K.written sink.old }
    ensures write_fault { result ≡ Status.WriteFault → Rose (K.faults sink.old) (K.faults sink.new) }
    ensures quiet_sink { result ≢ Status.WriteFault → K.faults sink.new ≡ K.faults sink.old }
    ensures stands { (name : List ℕ) → S.stands store.new name ≡ S.stands store.old name }
    ensures asks { AsksFor (requested_by (map string_bytes words.now)) result (S.asked store.old) (S.asked store.new) }
    ensures complete { IsComplete (told (requested_by (map string_bytes words.now)) (S.stands store.old) blank_shelf)
        → ¬ Rose (S.faults store.old) (S.faults store.new) → ¬ Rose (K.faults sink.old) (K.faults sink.new)
        → (result ≡ Status.Done) ⊎ (result ≡ Status.NoMemory) }
{
    match request_of(words) {
        None => Status::Usage,
        Some(_) => match run_on_made_shelf(alloc, words, store, sink) {
            Ok(status) => status,
            Err(NoMemory) => Status::NoMemory,
        },
    }
}

// The same, or want of memory for the shelf.
fn run_on_made_shelf<S: Store, K: Sink>(
    alloc: Global,
    words: &[String],
    store: &mut S,
    sink: &mut K,
) -> Result<Status, NoMemory>
    ensures usage { IfOk result (λ status.
        (status ≡ Status.Usage) ↔ (requested_by (map string_bytes words.now) ≡ None)) }
    ensures leaves { IfOk result (λ status. (minds : List Mind)
        × Leaves (told (requested_by (map string_bytes words.now)) (S.stands store.old) blank_shelf) status
        (S.left store.new) (K.written sink.old) (K.written sink.new) minds) }
    ensures read_fault { IfOk result (λ status.
        status ≡ Status.ReadFault → Rose (S.faults store.old) (S.faults store.new)) }
    ensures quiet_store { IfOk result (λ status.
        status ≢ Status.ReadFault → S.faults store.new ≡ S.faults store.old) }
    ensures unread { IfOk result (λ status.
        status ≡ Status.ReadFault → K.written sink.new ≡ K.written sink.old) }
    ensures write_fault { IfOk result (λ status.
        status ≡ Status.WriteFault → Rose (K.faults sink.old) (K.faults sink.new)) }
    ensures quiet_sink { IfOk result (λ status.
        status ≢ Status.WriteFault → K.faults sink.new ≡ K.faults sink.old) }
    ensures stands { (name : List ℕ) → S.stands store.new name ≡ S.stands store.old name }
    ensures asks { IfOk result (λ status. AsksFor (requested_by (map string_bytes words.now)) status
        (S.asked store.old) (S.asked store.new)) }
    ensures complete { IfOk result (λ status.
        IsComplete (told (requested_by (map string_bytes words.now)) (S.stands store.old) blank_shelf)
        → ¬ Rose (S.faults store.old) (S.faults store.new) → ¬ Rose (K.faults sink.old) (K.faults sink.new)
        → (status ≡ Status.Done) ⊎ (status ≡ Status.NoMemory)) }
    ensures store_kept { OnErr result (store.new ≡ store.old) }
    ensures sink_kept { OnErr result (sink.new ≡ sink.old) }
{
    let mut shelf: Vec<Box<dyn Watcher>> = Vec::new(alloc);
    shelf.push(Box::new(alloc, Note::blank())?)?;
    shelf.push(Box::new(alloc, Pair::blank())?)?;
    shelf.push(Box::new(alloc, Swap::blank())?)?;
    shelf.push(Box::new(alloc, Limit::blank())?)?;
    shelf.push(Box::new(alloc, Squeeze::blank())?)?;
    shelf.push(Box::new(alloc, Paint::blank())?)?;
    shelf.push(Box::new(alloc, Follow::blank())?)?;
    shelf.push(Box::new(alloc, Echo::blank())?)?;
    say_blank(&shelf);
    Ok(run(alloc, words, store, sink, &mut shelf))
}

// Says what the minds of a shelf are, for the clauses that cite them, and does nothing.
fn say_blank(shelf: &Vec<Box<dyn Watcher>>)
    requires { map (λ b. mind b) shelf.now.items ≡ blank_shelf }
    ensures { map (λ b. mind b) shelf.now.items ≡ blank_shelf }
{}
