//! The queries of a trace, and their answers.
#![tactic(auto, using(crate::proofs::Appending::appending))]

ghost use Rattle.std.specs.Prelude.{◌≡◌, ◌≢◌, ◌<◌, ◌^◌, ◌++◌, length, OnOk, OnErr};
ghost use Rattle.std.specs.List.{flat_map};
ghost use Rattle.edit_base.specs.declared.rows.Pick.TheVariants.{All};
ghost use Rattle.edit_model.specs.State.{place};
ghost use Rattle.edit_model.specs.Over.{over, next_edge};
ghost use Rattle.edit_model.specs.Verdicts.{judged_range};
ghost use Rattle.edit_model.specs.Rows.{spans_in};
ghost use Rattle.edit_model.specs.Log.{range_logged};
ghost use Rattle.trace_model.specs.Printed.{span_line, found_lines, edge_line, reply_line};
ghost use Rattle.trace_model.specs.Output.{answer_lines};
ghost use Rattle.reply_text.specs.Appended.{Extends};

use crate::ranges::judge_range;
use edit_base::{NoMemory, Pick, SpanRow, Steps, Verdict};
use edit_model::Logged;
use replace_engine::SpannedText;
use reply_text::{print_reply, print_span};
use span_flags::place_of;
use std::sync::ledger::Ledger;
use trace_model::Reply;

/// Prints the spans over a range, or the refusal of the range, for which no step is taken.
pub fn print_spans_over<L: Ledger>(
    start: i32,
    end: i32,
    text: &SpannedText,
    rows: &mut Vec<SpanRow>,
    out: &mut Vec<u8>,
    steps: &mut Steps<L>,
) -> Result<(), NoMemory>
    ensures ok { OnOk result (out.new.items ≡ out.old.items
        ++ answer_lines text.now.state (judged_range text.now.state start end)
        (found_lines (over (place start) (place end) All text.now.state.spans))) }
    ensures err { OnErr result (Extends out.old.items out.new.items) }
    ensures refused { judged_range text.now.state start end ≢ Verdict.Done → steps.new ≡ steps.old }
{
    let verdict = judge_range(start, end, text);
    let Verdict::Done = verdict else {
        return print_refused(verdict, text, out);
    };
    text.spans_over(place_of(start), place_of(end), Pick::All, rows, steps)?;
    print_found(rows.as_slice(), out)
}

/// Prints the next edge behind a place, or the refusal of the range.
pub fn print_next_edge(
    start: i32,
    limit: i32,
    text: &SpannedText,
    out: &mut Vec<u8>,
) -> Result<(), NoMemory>
    ensures ok { OnOk result (out.new.items ≡ out.old.items
        ++ answer_lines text.now.state (judged_range text.now.state start limit)
        (edge_line (next_edge (place start) (place limit) text.now.state.spans))) }
    ensures err { OnErr result (Extends out.old.items out.new.items) }
{
    let verdict = judge_range(start, limit, text);
    let Verdict::Done = verdict else {
        return print_refused(verdict, text, out);
    };
    let edge = text.next_edge(place_of(start), place_of(limit));
    print_reply(&Reply::Edge(edge), out)
}

// Prints the refusal of a query's range.
fn print_refused(verdict: Verdict, text: &SpannedText, out: &mut Vec<u8>) -> Result<(), NoMemory>
    ensures ok { OnOk result (out.new.items ≡ out.old.items ++ reply_line (range_logged text.now.state verdict)) }
    ensures err { OnErr result (Extends out.old.items out.new.items) }
{
    let number = match verdict {
        Verdict::Refused(_) => text.len(),
        Verdict::Done | Verdict::NoChange | Verdict::Ignored | Verdict::Absent => 0,
    };
    print_reply(&Reply::Verdict(Logged { verdict, number }), out)
}

// Prints how many rows there are, and a line for each.
fn print_found(rows: &[SpanRow], out: &mut Vec<u8>) -> Result<(), NoMemory>
    requires { length rows.now < 2 ^ 32 }
    ensures ok { OnOk result (out.new.items ≡ out.old.items ++ found_lines (spans_in rows.now)) }
    ensures err { OnErr result (Extends out.old.items out.new.items) }
{
    print_reply(&Reply::Found(rows.len() as u32), out)?;
    print_rows(rows, out)
}

// Prints a line for each row.
fn print_rows(rows: &[SpanRow], out: &mut Vec<u8>) -> Result<(), NoMemory>
    ensures ok { OnOk result (out.new.items ≡ out.old.items ++ flat_map span_line (spans_in rows.now)) }
    ensures err { OnErr result (Extends out.old.items out.new.items) }
{
    for row in rows {
        print_span(row, out)?;
    }
    Ok(())
}
