//! A tool that measures: it makes a text with spans and does one replacement after another, each of them a call of
//! `SpannedText::replace` alone, or asks one query after another. A line of a trace takes longer to be read than a replacement takes, so `play` can't
//! tell what one costs. The words are KIND LENGTH SPANS NESTED COUNT; the difference to a run whose COUNT is 0 is the time of
//! what is done. Of an editor's commands each is one call of `Editor::command`, with all that it plans, does and prints.
//! What they do to a text is the contract of the call that is measured; here each function is proved safe, and a run says
//! what its text came to.
#![tactic(auto)]

ghost use Rattle.std.specs.Prelude.{◌≡◌, ◌≤◌, ◌<◌};
ghost use Rattle.std.specs.Process.{exit_status};
ghost use Rattle.edit_base.specs.declared.bounds.TheConstants.Limits.{TEXT, SPANS};

mod commanding;
mod crowding;
mod faults;
mod making;
mod random;
mod replacing;
mod requests;

use commanding::do_commands;
use edit_base::Steps;
use editor_core::Summary;
use faults::Fault;
use making::text_with_spans;
use replacing::do_many;
use requests::{Request, request_of};
use std::alloc::Global;
use std::env;
use std::io::{self, ErrorKind};
use std::marker::Brand;
use std::process::ExitCode;
use std::sync::ledger::{Blank, Ledger};

fn main(rt: HostRuntime) -> ExitCode {
    match run(&rt) {
        Ok(()) => ExitCode::SUCCESS,
        Err(fault) => {
            let said = rt.eprintln(fault.text());
            drop(said);
            ExitCode::from(fault.code())
        }
    }
}

// Does what the words ask for, and says what the text came to.
fn run(rt: &HostRuntime) -> Result<(), Fault> {
    let words = match words(rt) {
        Ok(words) => words,
        Err(error) => return Err(unread_words(&error)),
    };
    let Some(request) = request_of(words.as_slice()) else {
        return Err(Fault::Usage);
    };
    let (held, found) = measure(rt.alloc(), &request)?;
    match println!(rt;
        "{} units, {} spans, {found} found",
        held.length, held.spans
    ) {
        Ok(()) => Ok(()),
        Err(_) => Err(Fault::Write),
    }
}

// The words behind the program's own name. One that is no text makes all of them unreadable.
fn words(rt: &HostRuntime) -> io::Result<Vec<String>> {
    Ok(env::args(rt)?.skip(1).collect(rt.alloc())?)
}

// How a run ends whose words can't be read.
fn unread_words(error: &io::Error) -> Fault {
    if error.kind() == ErrorKind::OutOfMemory {
        Fault::NoMemory
    } else {
        Fault::Usage
    }
}

// How much the last text holds that a request leaves, and what its queries found in all.
fn measure(alloc: Global, request: &Request) -> Result<(Summary, u64), Fault>
    requires some { 1 ≤ request.now.length }
    requires length { request.now.length ≤ TEXT }
    requires spans { request.now.spans ≤ SPANS }
{
    measure_counted::<Brand>(alloc, request, Blank::new(1))
}

// The same, with a counter of steps.
fn measure_counted<L: Ledger>(
    alloc: Global,
    request: &Request,
    blank: Blank,
) -> Result<(Summary, u64), Fault>
    requires some { 1 ≤ request.now.length }
    requires length { request.now.length ≤ TEXT }
    requires spans { request.now.spans ≤ SPANS }
    requires name { blank.name ≡ L.name }
    requires parts { blank.parts ≡ L.parts }
    requires open { 0 < blank.parts }
{
    let mut steps = Steps::<L>::start(blank);
    if request.kind.is_command() {
        return Ok((do_commands(alloc, request, &mut steps)?, 0));
    }
    let mut held = Summary {
        length: 0,
        spans: 0,
    };
    let mut found: u64 = 0;
    for _ in 0..request.kind.texts() {
        let mut text = text_with_spans(alloc, request, &mut steps)?;
        found = found.wrapping_add(do_many(alloc, &mut text, request, &mut steps)?);
        held = Summary {
            length: text.len(),
            spans: text.span_count(),
        };
    }
    Ok((held, found))
}
