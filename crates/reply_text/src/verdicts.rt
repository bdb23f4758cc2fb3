//! Verdicts in words.
#![tactic(auto, using(crate::proofs::Appending::appending))]

ghost use Rattle.std.specs.Prelude.{◌≡◌, ◌++◌, OnOk, OnErr, decimal};
ghost use Rattle.trace_model.specs.Printed.{spaced, line_end, refusal_name, has_number, refusal_text, logged_text};
ghost use Rattle.reply_text.specs.Appended.{Extends};

use crate::words::{push, push_number, push_word};
use edit_base::{NoMemory, Refusal, Verdict};
use edit_model::Logged;

/// The last number of an edit, and then its verdict.
pub fn push_numbered_ending(number: u32, logged: &Logged, out: &mut Vec<u8>) -> Result<(), NoMemory>
    ensures ok { OnOk result (out.new.items
        ≡ out.old.items ++ (spaced (decimal number) ++ logged_text logged.now ++ line_end)) }
    ensures err { OnErr result (Extends out.old.items out.new.items) }
{
    push_number(number, out)?;
    push_ending(logged, out)
}

/// A verdict, and the end of its line.
pub fn push_ending(logged: &Logged, out: &mut Vec<u8>) -> Result<(), NoMemory>
    ensures ok { OnOk result (out.new.items ≡ out.old.items ++ (logged_text logged.now ++ line_end)) }
    ensures err { OnErr result (Extends out.old.items out.new.items) }
{
    push_logged(logged, out)?;
    push("\n", out)
}

fn push_logged(logged: &Logged, out: &mut Vec<u8>) -> Result<(), NoMemory>
    ensures ok { OnOk result (out.new.items ≡ out.old.items ++ logged_text logged.now) }
    ensures err { OnErr result (Extends out.old.items out.new.items) }
{
    match logged.verdict {
        Verdict::Done => push_word("done", out),
        Verdict::NoChange => push_word("nochange", out),
        Verdict::Ignored => push_word("ignored", out),
        Verdict::Absent => push_word("absent", out),
        Verdict::Refused(refusal) => {
            push_word("refused", out)?;
            push_refusal(refusal, logged.number, out)
        }
    }
}

fn push_refusal(refusal: Refusal, number: u32, out: &mut Vec<u8>) -> Result<(), NoMemory>
    ensures ok { OnOk result (out.new.items ≡ out.old.items ++ refusal_text refusal number) }
    ensures err { OnErr result (Extends out.old.items out.new.items) }
{
    push_word(name_of(refusal), out)?;
    if is_numbered(refusal) {
        push_number(number, out)?;
    }
    Ok(())
}

fn name_of(refusal: Refusal) -> &'static str
    ensures { result.now ≡ refusal_name refusal }
{
    match refusal {
        Refusal::Depth => "depth",
        Refusal::Budget => "budget",
        Refusal::Reserved => "reserved",
        Refusal::Slot => "slot",
        Refusal::Order => "order",
        Refusal::Beyond => "beyond",
        Refusal::Below => "below",
        Refusal::ParagraphStart => "paragraph-start",
        Refusal::ParagraphEnd => "paragraph-end",
        Refusal::TooLong => "too-long",
        Refusal::SpansFull => "spans-full",
        Refusal::Flags => "flags",
        Refusal::NotInBatch => "not-in-batch",
        Refusal::NestingFull => "nesting-full",
    }
}

fn is_numbered(refusal: Refusal) -> bool
    ensures { result ≡ has_number refusal }
{
    matches!(
        refusal,
        Refusal::Order | Refusal::Beyond | Refusal::Below | Refusal::TooLong | Refusal::SpansFull
    )
}
