//! The four numbers of a report.

ghost use Rattle.std.specs.Prelude.{◌≡◌};
ghost use Rattle.trace_model.specs.Report.{first_place, second_place, report_of, is_same};

use replace_engine::SpannedText;
use trace_model::Report;

/// The places of the selection and of the composing region.
pub fn report_of(text: &SpannedText) -> Report
    ensures { result ≡ report_of text.now.state }
{
    let (sel_start, sel_end) = numbers(text.selection());
    let (start, end) = numbers(text.composing());
    Report {
        sel_start,
        sel_end,
        start,
        end,
    }
}

/// Both places of a range, -1 where there is none.
fn numbers(range: Option<(u32, u32)>) -> (i64, i64)
    ensures first { result.0 ≡ first_place range }
    ensures second { result.1 ≡ second_place range }
{
    match range {
        Some((start, end)) => (i64::from(start), i64::from(end)),
        None => (-1, -1),
    }
}

/// Whether two reports tell of the same places.
pub fn is_same(one: &Report, other: &Report) -> bool
    ensures { result ≡ is_same one.now other.now }
{
    one.sel_start == other.sel_start
        && one.sel_end == other.sel_end
        && one.start == other.start
        && one.end == other.end
}
