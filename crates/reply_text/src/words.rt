//! Words and numbers, each behind a space, appended to the bytes that a caller collects.
#![tactic(auto, using(crate::proofs::Appending::appending))]

ghost use Rattle.std.specs.Prelude.{◌≡◌, ◌++◌, OnOk, OnErr, decimal};
ghost use Rattle.std.specs.Fmt.{signed_decimal};
ghost use Rattle.trace_model.specs.Printed.{spaced, line_end, signed_places};
ghost use Rattle.reply_text.specs.Appended.{Extends};

use edit_base::NoMemory;
use itoa::Buffer;

/// Appends these bytes as they are.
pub fn push(text: &str, out: &mut Vec<u8>) -> Result<(), NoMemory>
    ensures ok { OnOk result (out.new.items ≡ out.old.items ++ text.now) }
    ensures err { OnErr result (Extends out.old.items out.new.items) }
{
    out.extend_from_slice(text.as_bytes())?;
    Ok(())
}

/// Appends a word behind a space.
pub fn push_word(word: &str, out: &mut Vec<u8>) -> Result<(), NoMemory>
    ensures ok { OnOk result (out.new.items ≡ out.old.items ++ spaced word.now) }
    ensures err { OnErr result (Extends out.old.items out.new.items) }
{
    push(" ", out)?;
    push(word, out)
}

/// Appends a number, in decimal, behind a space.
pub fn push_number(number: u32, out: &mut Vec<u8>) -> Result<(), NoMemory>
    ensures ok { OnOk result (out.new.items ≡ out.old.items ++ spaced (decimal number)) }
    ensures err { OnErr result (Extends out.old.items out.new.items) }
{
    push_word(Buffer::new().format(number), out)
}

/// The same of a count.
pub fn push_count(count: usize, out: &mut Vec<u8>) -> Result<(), NoMemory>
    ensures ok { OnOk result (out.new.items ≡ out.old.items ++ spaced (decimal count)) }
    ensures err { OnErr result (Extends out.old.items out.new.items) }
{
    push_word(Buffer::new().format(count), out)
}

/// Appends a number, in decimal and with `-` where it is negative, behind a space.
pub fn push_signed(number: i64, out: &mut Vec<u8>) -> Result<(), NoMemory>
    ensures ok { OnOk result (out.new.items ≡ out.old.items ++ spaced (signed_decimal number)) }
    ensures err { OnErr result (Extends out.old.items out.new.items) }
{
    push_word(Buffer::new().format(number), out)
}

/// Appends two places, each behind a space; either may be negative.
pub fn push_signed_places(start: i64, end: i64, out: &mut Vec<u8>) -> Result<(), NoMemory>
    ensures ok { OnOk result (out.new.items ≡ out.old.items ++ signed_places start end) }
    ensures err { OnErr result (Extends out.old.items out.new.items) }
{
    push_signed(start, out)?;
    push_signed(end, out)
}

/// A line of a word and a number.
pub fn push_numbered(word: &str, number: u32, out: &mut Vec<u8>) -> Result<(), NoMemory>
    ensures ok { OnOk result (out.new.items
        ≡ out.old.items ++ (word.now ++ spaced (decimal number) ++ line_end)) }
    ensures err { OnErr result (Extends out.old.items out.new.items) }
{
    push(word, out)?;
    push_number(number, out)?;
    push("\n", out)
}
