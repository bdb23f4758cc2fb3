//! The lines of spans.
#![tactic(auto, using(crate::proofs::Appending::appending))]

ghost use Rattle.std.specs.Prelude.{◌≡◌, ◌++◌, OnOk, OnErr, codes, decimal};
ghost use Rattle.edit_model.specs.Rows.{span_of};
ghost use Rattle.trace_model.specs.Printed.{spaced, what_text, span_line};
ghost use Rattle.reply_text.specs.Appended.{Extends};

use crate::words::{push, push_number, push_word};
use edit_base::{NoMemory, SpanRow, What};

/// Appends the line of one span. Without memory a part of the line may stand in `out`.
pub fn print_span(row: &SpanRow, out: &mut Vec<u8>) -> Result<(), NoMemory>
    ensures ok { OnOk result (out.new.items ≡ out.old.items ++ span_line (span_of row.now)) }
    ensures err { OnErr result (Extends out.old.items out.new.items) }
{
    push_row(row, out)?;
    push_what(row.what, out)?;
    push("\n", out)
}

// The first word and the numbers of a span.
fn push_row(row: &SpanRow, out: &mut Vec<u8>) -> Result<(), NoMemory>
    ensures ok { OnOk result (out.new.items
        ≡ out.old.items ++ (codes "span" ++ spaced (decimal row.now.id) ++ spaced (decimal row.now.start)
        ++ spaced (decimal row.now.end) ++ spaced (decimal row.now.flags))) }
    ensures err { OnErr result (Extends out.old.items out.new.items) }
{
    push("span", out)?;
    push_number(row.id, out)?;
    push_number(row.start, out)?;
    push_number(row.end, out)?;
    push_number(row.flags, out)
}

// A what, behind a space.
fn push_what(what: What, out: &mut Vec<u8>) -> Result<(), NoMemory>
    ensures ok { OnOk result (out.new.items ≡ out.old.items ++ spaced (what_text what)) }
    ensures err { OnErr result (Extends out.old.items out.new.items) }
{
    match what {
        What::Tag(number) => push_one("tag", number, out),
        What::Face(number) => push_one("face", u32::from(number), out),
        What::Margin { first, rest } => push_two("margin", first, rest, out),
        What::Float { margin, lines } => push_two("float", margin, lines, out),
        What::Watch(slot) => push_one("watch", u32::from(slot), out),
        What::SelStart => push_word("sel-start", out),
        What::SelEnd => push_word("sel-end", out),
        What::Composing => push_word("composing", out),
    }
}

fn push_one(name: &str, number: u32, out: &mut Vec<u8>) -> Result<(), NoMemory>
    ensures ok { OnOk result (out.new.items
        ≡ out.old.items ++ spaced (name.now ++ spaced (decimal number))) }
    ensures err { OnErr result (Extends out.old.items out.new.items) }
{
    push_word(name, out)?;
    push_number(number, out)
}

fn push_two(name: &str, left: u16, right: u16, out: &mut Vec<u8>) -> Result<(), NoMemory>
    ensures ok { OnOk result (out.new.items
        ≡ out.old.items ++ spaced (name.now ++ spaced (decimal left) ++ spaced (decimal right))) }
    ensures err { OnErr result (Extends out.old.items out.new.items) }
{
    push_one(name, u32::from(left), out)?;
    push_number(u32::from(right), out)
}
