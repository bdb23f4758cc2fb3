//! Rounds of one edit: two watchers of one kind, a follower that has no memory for a change, and the verdict that an item
//! is answered.

ghost use Rattle.std.specs.Prelude.{◌≡◌, ◌≤◌, ◌<◌, ◌∷◌, [], length};
ghost use Rattle.std.specs.List.{All};
ghost use Rattle.edit_model.specs.State.{empty_state};
ghost use Rattle.edit_model.specs.WellFormed.{IsSeated};

use crate::tally::Tally;
use edit_base::{Edit, Limits, NoMemory, Refusal, SmallText, Steps, Verdict, What};
use edit_model::{Item, LogEntry, TextEvent};
use replace_engine::SpannedText;
use std::alloc::Global;
use std::marker::Brand;
use std::process::Abort;
use std::sync::ledger::{Blank, Ledger};
use std::test::Fail;
use watcher_api::Watcher;
use watcher_kit::{Echo, Note};
use watcher_rounds::{Log, Slots, apply};

// A round on an empty text: the watchers of two slots are seated over it, and then a unit or none takes the place of a
// range. The first watcher of the shelf is an echo, and so is the second, or it is a note.
#[derive(Clone, Copy)]
struct Round {
    echoes: bool,
    seats: (u8, u8),
    depth: u32,
    // For how many changes the follower has memory.
    most: u32,
    start: i32,
    end: i32,
    unit: Option<u16>,
    // What is to come: the answer, how many nested edits have begun, the units of the text, the changes that the follower
    // was told of, and what was logged of the edit.
    answer: Result<Verdict, NoMemory>,
    spent: u32,
    units: u32,
    told: u32,
    log: Logged,
}

// What is looked for in a log.
#[derive(Clone, Copy)]
enum Logged {
    // Nothing.
    Free,
    // So many nested edits are done, and some are refused since as many have begun as may.
    Nested(u32),
    // At this depth the watcher was told that its edit will be done, and nothing was told or logged since.
    Untold(u32),
}

// ---- two echoes

// They answer to one another until as many nested edits have begun as may. The follower was told of the two seats, the
// edit and the 256 answers.
const ECHOES: Round = Round {
    echoes: true,
    seats: (0, 1),
    depth: 8,
    most: 1_000,
    start: 0,
    end: 0,
    unit: Some(120),
    answer: Ok(Verdict::Done),
    spent: 256,
    units: 257,
    told: 259,
    log: Logged::Nested(256),
};

#[test]
fn two_echoes_answer_until_the_budget_is_spent(rt: HostRuntime) -> Result<(), Fail> {
    on_shelf(&rt, rt.alloc(), &ECHOES)
}

// ---- no memory for a change

// An echo answers to its own answers, and at this depth the follower has no memory for the change: it stands in the text,
// and no watcher is told that it was made. The one seat is set twice, which are two changes.
fn untold(depth: u32) -> Round
    requires { depth ≤ 8 }
{
    Round {
        echoes: false,
        seats: (0, 0),
        depth: 8,
        most: 2 + depth,
        start: 0,
        end: 0,
        unit: Some(120),
        answer: Err(NoMemory),
        spent: depth,
        units: 1 + depth,
        told: 2 + depth,
        log: Logged::Untold(depth),
    }
}

#[test]
fn followers_are_told_before_watchers_at_every_depth(rt: HostRuntime) -> Result<(), Fail> {
    for depth in 0..9 {
        on_shelf(&rt, rt.alloc(), &untold(depth))?;
    }
    Ok(())
}

// ---- the verdict

// The item's own verdict is answered, whatever its answers come to: here the echo's answer is refused, as none may nest.
const WRITTEN: Round = Round {
    echoes: false,
    seats: (0, 0),
    depth: 0,
    most: 9,
    start: 0,
    end: 0,
    unit: Some(120),
    answer: Ok(Verdict::Done),
    spent: 0,
    units: 1,
    told: 3,
    log: Logged::Free,
};

// A range, and what the replacement of it by nothing is answered on the empty text.
const UNWRITTEN: [(i32, i32, Verdict); 4] = [
    (0, 0, Verdict::NoChange),
    (1, 0, Verdict::Refused(Refusal::Order)),
    (0, 1, Verdict::Refused(Refusal::Beyond)),
    (-1, 0, Verdict::Refused(Refusal::Below)),
];

fn unwritten(row: &(i32, i32, Verdict)) -> Round {
    let (start, end, verdict) = *row;
    Round {
        start,
        end,
        unit: None,
        answer: Ok(verdict),
        units: 0,
        told: 2,
        ..WRITTEN
    }
}

#[test]
fn an_item_is_answered_its_own_verdict(rt: HostRuntime) -> Result<(), Fail> {
    on_shelf(&rt, rt.alloc(), &WRITTEN)?;
    for row in &UNWRITTEN {
        on_shelf(&rt, rt.alloc(), &unwritten(row))?;
    }
    Ok(())
}

// ---- what a round needs

fn on_shelf(rt: &impl Abort, alloc: Global, round: &Round) -> Result<(), Fail> {
    let mut shelf = made_shelf(rt, alloc, round.echoes)?;
    over_text(rt, alloc, round, &mut shelf)
}

fn made_shelf(
    rt: &impl Abort,
    alloc: Global,
    echoes: bool,
) -> Result<Vec<Box<dyn Watcher>>, NoMemory> {
    let mut shelf: Vec<Box<dyn Watcher>> = Vec::new(alloc);
    shelf.push(Box::new(alloc, loaded_echo(rt))?)?;
    if echoes {
        shelf.push(Box::new(alloc, loaded_echo(rt))?)?;
    } else {
        shelf.push(Box::new(alloc, Note::blank())?)?;
    }
    Ok(shelf)
}

fn loaded_echo(rt: &impl Abort) -> Echo {
    let mut echo = Echo::blank();
    assert!(rt; echo.load(&[]));
    echo
}

fn over_text(
    rt: &impl Abort,
    alloc: Global,
    round: &Round,
    shelf: &mut Vec<Box<dyn Watcher>>,
) -> Result<(), Fail> {
    let mut text = SpannedText::new(alloc)?;
    let mut log = Vec::new(alloc);
    ends(rt, alloc, round, shelf, &mut text, &mut log);
    Ok(())
}

fn ends(
    rt: &impl Abort,
    alloc: Global,
    round: &Round,
    shelf: &mut Vec<Box<dyn Watcher>>,
    text: &mut SpannedText,
    log: &mut Log,
)
    requires { text.old.state ≡ empty_state }
{
    let mut tally = Tally::new(round.most);
    let mut spent = 0;
    let answer = play::<Brand>(
        rt,
        alloc,
        Blank::new(1),
        round,
        text,
        log,
        shelf,
        &mut tally,
        &mut spent,
    );
    assert_eq!(rt; answer, round.answer);
    assert_eq!(rt; spent, round.spent);
    assert_eq!(rt; text.len(), round.units);
    assert_eq!(rt; tally.told, round.told);
    match round.log {
        Logged::Free => (),
        Logged::Nested(done) => nests(rt, log, done),
        Logged::Untold(depth) => stops_untold(rt, log, depth),
    }
}

// ---- the round

// The shelf places of the first two watchers.
fn two_slots(len: usize) -> Slots
    requires { 2 ≤ len }
    ensures { All (λ place. place < len) result.items }
{
    let mut slots = Slots::new();
    slots.push(0);
    slots.push(1);
    slots
}

// Seats the watchers and does the edit, of which alone is logged.
fn play<L: Ledger>(
    rt: &impl Abort,
    alloc: Global,
    blank: Blank,
    round: &Round,
    text: &mut SpannedText,
    log: &mut Log,
    shelf: &mut Vec<Box<dyn Watcher>>,
    tally: &mut Tally,
    spent: &mut u32,
) -> Result<Verdict, NoMemory>
    requires name { blank.name ≡ L.name }
    requires parts { blank.parts ≡ L.parts }
    requires some { 0 < blank.parts }
    requires empty { text.old.state ≡ empty_state }
    requires spent { spent.old ≤ Limits.NESTED_EDITS }
{
    let mut steps = Steps::<L>::start(blank);
    assert!(rt; shelf.len() >= 2);
    assert!(rt; round.depth <= Limits::DEPTH);
    let slots = two_slots(shelf.len());
    let (one, other) = round.seats;
    do_edit(
        alloc,
        seat(one),
        round.depth,
        &slots,
        text,
        log,
        shelf,
        tally,
        spent,
        &mut steps,
    )?;
    do_edit(
        alloc,
        seat(other),
        round.depth,
        &slots,
        text,
        log,
        shelf,
        tally,
        spent,
        &mut steps,
    )?;
    log.clear();
    let edit = replacement(round.start, round.end, round.unit);
    do_edit(
        alloc,
        edit,
        round.depth,
        &slots,
        text,
        log,
        shelf,
        tally,
        spent,
        &mut steps,
    )
}

// A span over the empty text that grows with it, on which the watcher of a slot sits.
fn seat(slot: u8) -> Edit {
    Edit::SetSpan {
        id: 10 + u32::from(slot),
        start: 0,
        end: 0,
        flags: 18,
        what: What::Watch(slot),
    }
}

fn replacement(start: i32, end: i32, unit: Option<u16>) -> Edit {
    let mut text = SmallText::new();
    if let Some(unit) = unit {
        text.push(unit);
    }
    Edit::Replace { start, end, text }
}

fn do_edit<L: Ledger>(
    alloc: Global,
    edit: Edit,
    depth: u32,
    slots: &Slots,
    text: &mut SpannedText,
    log: &mut Log,
    shelf: &mut Vec<Box<dyn Watcher>>,
    tally: &mut Tally,
    spent: &mut u32,
    steps: &mut Steps<L>,
) -> Result<Verdict, NoMemory>
    requires depth { depth ≤ Limits.DEPTH }
    requires spent { spent.old ≤ Limits.NESTED_EDITS }
    requires slots { All (λ place. place < length shelf.old.items) slots.now.items }
    requires seats { IsSeated (length slots.now.items) text.old.state.spans }
    ensures slots { All (λ place. place < length shelf.new.items) slots.now.items }
    ensures spent { spent.new ≤ Limits.NESTED_EDITS }
    ensures seats { IsSeated (length slots.now.items) text.new.state.spans }
{
    let item = Item::Edit(edit);
    apply(
        alloc,
        text,
        &[],
        shelf,
        slots,
        tally,
        &item,
        depth,
        spent,
        log,
        steps,
    )
}

// ---- what was logged

fn nests(rt: &impl Abort, log: &[LogEntry], done: u32) {
    let mut count = 0u32;
    let mut refused = 0u32;
    for entry in log {
        count = more_where(count, has_verdict(entry, Verdict::Done));
        refused = more_where(
            refused,
            has_verdict(entry, Verdict::Refused(Refusal::Budget)),
        );
    }
    assert_eq!(rt; count, done);
    assert!(rt; refused > 0);
}

fn more_where(count: u32, holds: bool) -> u32 {
    if holds {
        count.saturating_add(1)
    } else {
        count
    }
}

// Whether it is a nested replacement with this verdict.
fn has_verdict(entry: &LogEntry, verdict: Verdict) -> bool {
    match entry {
        LogEntry::Replace { depth, logged, .. } => *depth > 0 && logged.verdict == verdict,
        _ => false,
    }
}

// Each depth above has its edit and three callbacks, and this one its edit and the first of them.
fn stops_untold(rt: &impl Abort, log: &[LogEntry], depth: u32) {
    let event = TextEvent {
        depth,
        start: 0,
        before: 0,
        after: 1,
    };
    assert_eq!(rt; log.len() as u64, 4 * u64::from(depth) + 2);
    assert_eq!(rt;
        log.last().copied(),
        Some(LogEntry::Before { slot: 0, event })
    );
}
