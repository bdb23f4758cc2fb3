//! The end block: the text, its spans, its selection and its composing region.
#![tactic(auto, using(crate::proofs::Appending::appending))]

ghost use Rattle.std.specs.Prelude.{◌≡◌, ◌++◌, OnOk, OnErr};
ghost use Rattle.std.specs.List.{flat_map};
ghost use Rattle.trace_model.specs.Printed.{span_line, standing_lines, end_block};
ghost use Rattle.trace_model.specs.Report.{report_of};
ghost use Rattle.reply_text.specs.Appended.{Extends};

use edit_base::NoMemory;
use input_link::report_of;
use replace_engine::SpannedText;
use reply_text::{print_reply, print_span, print_units};
use trace_model::Reply;

/// Appends the end block of a text. Without memory what was in `out` is still its prefix.
pub fn print_end(text: &SpannedText, out: &mut Vec<u8>) -> Result<(), NoMemory>
    ensures ok { OnOk result (out.new.items ≡ out.old.items ++ end_block text.now.state) }
    ensures err { OnErr result (Extends out.old.items out.new.items) }
{
    print_reply(&Reply::End, out)?;
    let (left, right) = text.halves();
    print_units(left, right, out)?;
    print_spans(text, out)?;
    print_places(text, out)
}

// Appends a line for each span, in order of attachment.
fn print_spans(text: &SpannedText, out: &mut Vec<u8>) -> Result<(), NoMemory>
    ensures ok { OnOk result (out.new.items ≡ out.old.items ++ flat_map span_line text.now.state.spans) }
    ensures err { OnErr result (Extends out.old.items out.new.items) }
{
    for at in 0..text.span_count() {
        print_span(&text.span_at(at), out)?;
    }
    Ok(())
}

// Appends where the selection and the composing region stand.
fn print_places(text: &SpannedText, out: &mut Vec<u8>) -> Result<(), NoMemory>
    ensures ok { OnOk result (out.new.items ≡ out.old.items ++ standing_lines (report_of text.now.state)) }
    ensures err { OnErr result (Extends out.old.items out.new.items) }
{
    let places = report_of(text);
    let selection = Reply::Selection {
        start: places.sel_start,
        end: places.sel_end,
    };
    print_reply(&selection, out)?;
    let region = Reply::Region {
        start: places.start,
        end: places.end,
    };
    print_reply(&region, out)
}
