//! What is answered to a command that isn't an edit, and the report behind a command.
#![tactic(auto, using(crate::proofs::Appending::appending))]

ghost use Rattle.std.specs.Prelude.{◌≡◌, ◌++◌, OnOk, OnErr};
ghost use Rattle.edit_model.specs.Selection.{text_before, text_after, selected};
ghost use Rattle.trace_model.specs.Printed.{text_line, selected_line, report_line};
ghost use Rattle.trace_model.specs.Output.{verdict_line, planned_line};
ghost use Rattle.reply_text.specs.Appended.{Extends};

use edit_base::{NoMemory, Verdict};
use edit_model::{Logged, Planned};
use replace_engine::SpannedText;
use reply_text::{print_reply, print_units};
use selection_ops::{selected, text_after, text_before};
use std::alloc::Global;
use trace_model::{Reply, Report};

/// Prints so many units before the selection.
pub fn print_before(
    alloc: Global,
    count: u32,
    text: &SpannedText,
    out: &mut Vec<u8>,
) -> Result<(), NoMemory>
    ensures ok { OnOk result (out.new.items ≡ out.old.items ++ text_line (text_before text.now.state count)) }
    ensures err { OnErr result (Extends out.old.items out.new.items) }
{
    let units = text_before(alloc, text, count)?;
    print_units(units.as_slice(), &[], out)
}

/// Prints so many units behind the selection.
pub fn print_after(
    alloc: Global,
    count: u32,
    text: &SpannedText,
    out: &mut Vec<u8>,
) -> Result<(), NoMemory>
    ensures ok { OnOk result (out.new.items ≡ out.old.items ++ text_line (text_after text.now.state count)) }
    ensures err { OnErr result (Extends out.old.items out.new.items) }
{
    let units = text_after(alloc, text, count)?;
    print_units(units.as_slice(), &[], out)
}

/// Prints the selected units, or that there are none.
pub fn print_selected(alloc: Global, text: &SpannedText, out: &mut Vec<u8>) -> Result<(), NoMemory>
    ensures ok { OnOk result (out.new.items ≡ out.old.items ++ selected_line (selected text.now.state)) }
    ensures err { OnErr result (Extends out.old.items out.new.items) }
{
    match selected(alloc, text)? {
        Some(units) => print_units(units.as_slice(), &[], out),
        None => print_reply(&Reply::Nothing, out),
    }
}

/// Prints a verdict without a number behind it.
pub fn print_verdict(verdict: Verdict, out: &mut Vec<u8>) -> Result<(), NoMemory>
    ensures ok { OnOk result (out.new.items ≡ out.old.items ++ verdict_line verdict) }
    ensures err { OnErr result (Extends out.old.items out.new.items) }
{
    let number = 0;
    print_reply(&Reply::Verdict(Logged { verdict, number }), out)
}

/// Prints the verdict of a command that has nothing to work on.
pub fn print_planned(planned: &Planned, out: &mut Vec<u8>) -> Result<(), NoMemory>
    ensures ok { OnOk result (out.new.items ≡ out.old.items ++ planned_line planned.now) }
    ensures err { OnErr result (Extends out.old.items out.new.items) }
{
    match planned {
        Planned::Items(_) => Ok(()),
        Planned::Absent => print_verdict(Verdict::Absent, out),
        Planned::Ignored => print_verdict(Verdict::Ignored, out),
    }
}

/// Prints a report, where one is made.
pub fn print_report(report: Option<Report>, out: &mut Vec<u8>) -> Result<(), NoMemory>
    ensures ok { OnOk result (out.new.items ≡ out.old.items ++ report_line report) }
    ensures err { OnErr result (Extends out.old.items out.new.items) }
{
    let Some(report) = report else {
        return Ok(());
    };
    let reply = Reply::Report {
        sel_start: report.sel_start,
        sel_end: report.sel_end,
        start: report.start,
        end: report.end,
    };
    print_reply(&reply, out)
}
