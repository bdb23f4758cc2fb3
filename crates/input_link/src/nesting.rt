//! How deep the batches of a connection are nested, and what it was told last.

ghost use Rattle.std.specs.Prelude.{◌≡◌, ◌≤◌};
ghost use Rattle.edit_base.specs.declared.bounds.TheConstants.Limits.{NESTING};
ghost use Rattle.trace_model.specs.Report.{judged_begin, judged_end, begun_nesting, ended_nesting, no_report, report, last_report};

use crate::reporting::{is_same, report_of};
use edit_base::{Limits, Refusal, Verdict};
use replace_engine::SpannedText;
use trace_model::Report;

/// What a connection keeps between commands: how many batches are open, at most 255, and the last report.
#[derive(Clone, Copy, Debug)]
pub struct Link {
    nesting: u32,
    last: Report,
    ghost deep: { nesting ≤ NESTING },
}

impl Link {
    /// No batch is open, and nothing was told.
    pub fn new() -> Link
        ensures nesting { result.nesting ≡ 0 }
        ensures last { result.last ≡ no_report }
    {
        Link {
            nesting: 0,
            last: Report {
                sel_start: -1,
                sel_end: -1,
                start: -1,
                end: -1,
            },
        }
    }

    /// A batch begins, unless as many are open as may be.
    pub fn begin(&mut self) -> Verdict
        ensures verdict { result ≡ judged_begin self.old.nesting }
        ensures nesting { self.new.nesting ≡ begun_nesting self.old.nesting }
        ensures last { self.new.last ≡ self.old.last }
    {
        if self.nesting == Limits::NESTING {
            return Verdict::Refused(Refusal::NestingFull);
        }
        self.nesting += 1;
        Verdict::Done
    }

    /// The batch that was begun last ends, where one is open.
    pub fn end(&mut self) -> Verdict
        ensures verdict { result ≡ judged_end self.old.nesting }
        ensures nesting { self.new.nesting ≡ ended_nesting self.old.nesting }
        ensures last { self.new.last ≡ self.old.last }
    {
        if self.nesting == 0 {
            return Verdict::Refused(Refusal::NotInBatch);
        }
        self.nesting -= 1;
        Verdict::Done
    }

    /// The report behind a command, where one is made: no batch is open, and the places of selection and region aren't
    /// those that were told last.
    #[tactic(auto, unfolding(trace_model::specs::Report::report))]
    pub fn report(&mut self, text: &SpannedText) -> Option<Report>
        ensures report { result ≡ report text.now.state self.old.nesting self.old.last }
        ensures last { self.new.last ≡ last_report text.now.state self.old.nesting self.old.last }
        ensures nesting { self.new.nesting ≡ self.old.nesting }
    {
        let now = report_of(text);
        if self.nesting != 0 || is_same(&now, &self.last) {
            return None;
        }
        self.last = now;
        Some(now)
    }
}
