//! Commands of an editor, which are measured with all that they plan, do and print, into a list that is used again. No
//! watcher is loaded. The selection stands in the middle of the text, under spans that are spread over it, and all but
//! one kind of command is given in a batch, so that nothing is reported.

ghost use Rattle.std.specs.Prelude.{◌≡◌, ◌≤◌, ◌<◌, [], false, OnOk};
ghost use Rattle.edit_base.specs.declared.bounds.TheConstants.Limits.{TEXT, SPANS};
ghost use Rattle.trace_model.specs.Reading.{IsFitting};

use crate::faults::Fault;
use crate::making::{flags_of_tag, units};
use crate::requests::{Kind, Request};
use edit_base::{NoMemory, Steps, What};
use editor_core::{Editor, Summary};
use settings_reader::built_in;
use std::alloc::Global;
use std::sync::ledger::Ledger;
use trace_model::Command;
use watcher_api::{Slots, Watcher};

/// How many units are typed before the first of them is deleted.
pub const TYPED: u32 = 20_000;

/// An editor with an empty shelf, and the list that its commands print into.
#[derive(Drop)]
struct Desk {
    editor: Editor,
    shelf: Vec<Box<dyn Watcher>>,
    out: Vec<u8>,
    ghost alone: { editor.setup.slots ≡ [] },
}

/// Makes an editor's text with spans and a selection, and gives it the commands that are asked for. How much it holds
/// then.
pub fn do_commands<L: Ledger>(
    alloc: Global,
    request: &Request,
    steps: &mut Steps<L>,
) -> Result<Summary, Fault>
    requires some { 1 ≤ request.now.length }
    requires length { request.now.length ≤ TEXT }
    requires spans { request.now.spans ≤ SPANS }
{
    let mut desk = Desk::new(alloc)?;
    desk.fill(alloc, request.length, request.spans, steps)?;
    let middle = (request.length / 2) as i32;
    desk.run(&selected(middle), steps)?;
    if !matches!(request.kind, Kind::Report) {
        desk.run(&Command::Begin, steps)?;
    }
    match request.kind {
        Kind::Select | Kind::Report => desk.select_many(middle, request.count, steps)?,
        _ => desk.edit_many(alloc, request.kind, middle, request.count, steps)?,
    }
    Ok(desk.summary(steps)?)
}

// The selection, at one place.
fn selected(at: i32) -> Command
    ensures { IsFitting result }
{
    Command::SetSelection { start: at, end: at }
}

impl Desk {
    // A desk with an empty text.
    fn new(alloc: Global) -> Result<Desk, NoMemory> {
        let editor = Editor::new(alloc, built_in(alloc)?, Slots::new())?;
        Ok(Desk {
            editor,
            shelf: Vec::new(alloc),
            out: Vec::new(alloc),
        })
    }

    // Does a command, and forgets what it printed.
    fn run<L: Ledger>(&mut self, command: &Command, steps: &mut Steps<L>) -> Result<(), NoMemory>
        requires { IsFitting command.now }
        ensures { OnOk result (self.new.editor.is_spent ≡ false) }
    {
        self.out.clear();
        self.editor
            .command(&mut self.shelf, 1, command, &mut self.out, steps)
    }

    // Does a command so many times.
    fn repeat<L: Ledger>(
        &mut self,
        command: &Command,
        count: u32,
        steps: &mut Steps<L>,
    ) -> Result<(), NoMemory>
        requires { IsFitting command.now }
    {
        for _ in 0..count {
            self.run(command, steps)?;
        }
        Ok(())
    }

    // So many units come, and so many spans of a unit each are spread over them.
    fn fill<L: Ledger>(
        &mut self,
        alloc: Global,
        length: u32,
        spans: u32,
        steps: &mut Steps<L>,
    ) -> Result<(), NoMemory>
        requires some { 1 ≤ length }
        requires limit { length ≤ TEXT }
        requires spans { spans ≤ SPANS }
    {
        let incoming = units(alloc, length)?;
        self.run(
            &Command::Replace {
                start: 0,
                end: 0,
                incoming,
            },
            steps,
        )?;
        let apart = length / spans.max(1);
        for at in 0..spans {
            let start = at.saturating_mul(apart).min(length - 1);
            self.run(&tag(at, start), steps)?;
        }
        Ok(())
    }

    // The selection goes to and fro between two places, so many times.
    fn select_many<L: Ledger>(
        &mut self,
        middle: i32,
        count: u32,
        steps: &mut Steps<L>,
    ) -> Result<(), NoMemory> {
        let places = [selected(middle.saturating_sub(1)), selected(middle)];
        for at in 0..count {
            self.run(&places[(at % 2) as usize], steps)?;
        }
        Ok(())
    }

    // Texts come or go at the selection, so many times.
    fn edit_many<L: Ledger>(
        &mut self,
        alloc: Global,
        kind: Kind,
        middle: i32,
        count: u32,
        steps: &mut Steps<L>,
    ) -> Result<(), NoMemory> {
        let incoming = units(alloc, 1)?;
        let commit = Command::Commit {
            incoming,
            cursor: 1,
        };
        match kind {
            Kind::Commit => self.repeat(&commit, count, steps),
            Kind::Delete => {
                self.repeat(&commit, TYPED, steps)?;
                self.repeat(
                    &Command::DeleteAround {
                        before: 1,
                        after: 0,
                    },
                    count,
                    steps,
                )
            }
            Kind::Compose => {
                let incoming = units(alloc, 2)?;
                self.repeat(
                    &Command::Compose {
                        incoming,
                        cursor: 1,
                    },
                    count,
                    steps,
                )
            }
            _ => self.type_units(alloc, middle, count, steps),
        }
    }

    // Units come one behind the other, from the middle on.
    fn type_units<L: Ledger>(
        &mut self,
        alloc: Global,
        middle: i32,
        count: u32,
        steps: &mut Steps<L>,
    ) -> Result<(), NoMemory> {
        let mut place = middle;
        for _ in 0..count {
            let incoming = units(alloc, 1)?;
            let typed = Command::Replace {
                start: place,
                end: place,
                incoming,
            };
            self.run(&typed, steps)?;
            place = place.saturating_add(1);
        }
        Ok(())
    }

    // How much the editor holds, behind one more command that changes nothing.
    fn summary<L: Ledger>(&mut self, steps: &mut Steps<L>) -> Result<Summary, NoMemory> {
        self.run(&Command::Begin, steps)?;
        Ok(self.editor.summary())
    }
}

// The set of a span over the unit at a place.
fn tag(at: u32, start: u32) -> Command
    requires at { at ≤ SPANS }
    requires start { start < TEXT }
    ensures { IsFitting result }
{
    Command::SetSpan {
        id: 16 + at,
        start: start as i32,
        end: start as i32 + 1,
        flags: flags_of_tag(at),
        what: What::Tag(at),
    }
}
