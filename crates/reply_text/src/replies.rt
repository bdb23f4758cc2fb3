//! The lines in answer to commands that are no edits, the reports, those of the block behind the last command that
//! have no text, and the line of a reading of the trace.
#![tactic(auto, using(crate::proofs::Appending::appending))]

ghost use Rattle.std.specs.Prelude.{◌≡◌, ◌++◌, OnOk, OnErr, codes};
ghost use Rattle.trace_model.specs.Printed.{line_end, signed_places, reply_text};
ghost use Rattle.reply_text.specs.Appended.{Extends};

use crate::verdicts::push_ending;
use crate::words::{push, push_numbered, push_signed_places};
use edit_base::NoMemory;
use trace_model::Reply;

/// Appends the line of a reply. Without memory a part of the line may stand in `out`.
pub fn print_reply(reply: &Reply, out: &mut Vec<u8>) -> Result<(), NoMemory>
    ensures ok { OnOk result (out.new.items ≡ out.old.items ++ reply_text reply.now) }
    ensures err { OnErr result (Extends out.old.items out.new.items) }
{
    match reply {
        Reply::Verdict(logged) => {
            push("reply", out)?;
            push_ending(logged, out)
        }
        Reply::Found(count) => push_numbered("found", *count, out),
        Reply::Edge(place) => push_numbered("edge", *place, out),
        Reply::Nothing => push("none\n", out),
        Reply::Report {
            sel_start,
            sel_end,
            start,
            end,
        } => push_report(*sel_start, *sel_end, *start, *end, out),
        Reply::End => push("end\n", out),
        Reply::Selection { start, end } => push_standing("selection", *start, *end, out),
        Reply::Region { start, end } => push_standing("region", *start, *end, out),
        Reply::Checked(count) => push_numbered("ok", *count, out),
    }
}

// The places of the selection, and those of the composing region.
fn push_report(
    sel_start: i64,
    sel_end: i64,
    start: i64,
    end: i64,
    out: &mut Vec<u8>,
) -> Result<(), NoMemory>
    ensures ok { OnOk result (out.new.items
        ≡ out.old.items ++ (codes "report" ++ signed_places sel_start sel_end ++ signed_places start end ++ line_end)) }
    ensures err { OnErr result (Extends out.old.items out.new.items) }
{
    push_named_places("report", sel_start, sel_end, out)?;
    push_signed_places(start, end, out)?;
    push("\n", out)
}

// Where one of the two stands at the end.
fn push_standing(name: &str, start: i64, end: i64, out: &mut Vec<u8>) -> Result<(), NoMemory>
    ensures ok { OnOk result (out.new.items
        ≡ out.old.items ++ (name.now ++ signed_places start end ++ line_end)) }
    ensures err { OnErr result (Extends out.old.items out.new.items) }
{
    push_named_places(name, start, end, out)?;
    push("\n", out)
}

// A word and two places behind it.
fn push_named_places(name: &str, start: i64, end: i64, out: &mut Vec<u8>) -> Result<(), NoMemory>
    ensures ok { OnOk result (out.new.items ≡ out.old.items ++ (name.now ++ signed_places start end)) }
    ensures err { OnErr result (Extends out.old.items out.new.items) }
{
    push(name, out)?;
    push_signed_places(start, end, out)
}
