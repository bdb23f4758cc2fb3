//! The line of a text.
#![tactic(auto, using(crate::proofs::Appending::appending))]

ghost use Rattle.std.specs.Prelude.{◌≡◌, ◌<◌, ◌++◌, OnOk, OnErr, codes};
ghost use Rattle.std.specs.List.{flat_map};
ghost use Rattle.trace_model.specs.Printed.{spaced, hex_digit, escaped, unit_text, text_line};
ghost use Rattle.reply_text.specs.Appended.{Extends};

use crate::words::{push, push_count};
use edit_base::NoMemory;

/// Appends the line of a text that stands in two slices: how many units it has, and the units between quotes. Without
/// memory a part of the line may stand in `out`.
pub fn print_units(left: &[u16], right: &[u16], out: &mut Vec<u8>) -> Result<(), NoMemory>
    ensures ok { OnOk result (out.new.items ≡ out.old.items ++ text_line (left.now ++ right.now)) }
    ensures err { OnErr result (Extends out.old.items out.new.items) }
{
    push("text", out)?;
    push_count(left.len() + right.len(), out)?;
    push_quoted(left, right, out)?;
    push("\n", out)
}

fn push_quoted(left: &[u16], right: &[u16], out: &mut Vec<u8>) -> Result<(), NoMemory>
    ensures ok { OnOk result (out.new.items
        ≡ out.old.items ++ spaced (codes "\"" ++ flat_map unit_text (left.now ++ right.now) ++ codes "\"")) }
    ensures err { OnErr result (Extends out.old.items out.new.items) }
{
    push(" \"", out)?;
    push_units(left, out)?;
    push_units(right, out)?;
    push("\"", out)
}

fn push_units(units: &[u16], out: &mut Vec<u8>) -> Result<(), NoMemory>
    ensures ok { OnOk result (out.new.items ≡ out.old.items ++ flat_map unit_text units.now) }
    ensures err { OnErr result (Extends out.old.items out.new.items) }
{
    for unit in units {
        push_unit(*unit, out)?;
    }
    Ok(())
}

fn push_unit(unit: u16, out: &mut Vec<u8>) -> Result<(), NoMemory>
    ensures ok { OnOk result (out.new.items ≡ out.old.items ++ unit_text unit) }
    ensures err { OnErr result (Extends out.old.items out.new.items) }
{
    match unit {
        0x22 | 0x5C => push_escaped(unit, out),
        0x20..=0x7E => {
            out.push(unit as u8)?;
            Ok(())
        }
        _ => push_escaped(unit, out),
    }
}

fn push_escaped(unit: u16, out: &mut Vec<u8>) -> Result<(), NoMemory>
    ensures ok { OnOk result (out.new.items ≡ out.old.items ++ escaped unit) }
    ensures err { OnErr result (Extends out.old.items out.new.items) }
{
    push("\\u", out)?;
    let digits = [
        digit_of(unit >> 12),
        digit_of(unit / 256 % 16),
        digit_of(unit / 16 % 16),
        digit_of(unit % 16),
    ];
    out.extend_from_slice(&digits)?;
    Ok(())
}

fn digit_of(value: u16) -> u8
    requires { value < 16 }
    ensures { result ≡ hex_digit value }
{
    let value = value as u8;
    if value < 10 {
        b'0' + value
    } else {
        b'a' + (value - 10)
    }
}
