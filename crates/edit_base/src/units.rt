//! UTF-16 units.

ghost use Rattle.std.specs.Prelude.{◌≡◌, ◌≤◌, ◌<◌, IsTrue, ◌↔◌, IfOk};
ghost use Rattle.std.specs.List.{flat_map};
ghost use Rattle.std.specs.Str.{chars};
ghost use Rattle.std.specs.Char.Escape.{encode_utf16};

use crate::memory::NoMemory;
use std::alloc::Global;

/// A UTF-16 unit.
pub type Unit = u16;

/// A place in a text: how many units stand before it.
pub type Place = u32;

/// The unit that ends a paragraph.
pub const NEWLINE: u16 = 10;

/// Whether a unit is the first of a surrogate pair.
pub fn is_high(unit: u16) -> bool
    ensures { IsTrue result ↔ ((0xD800 ≤ unit) × (unit < 0xDC00)) }
{
    (0xD800..0xDC00).contains(&unit)
}

/// Whether a unit is the second of a surrogate pair.
pub fn is_low(unit: u16) -> bool
    ensures { IsTrue result ↔ ((0xDC00 ≤ unit) × (unit < 0xE000)) }
{
    (0xDC00..0xE000).contains(&unit)
}

/// The UTF-16 units of a text, character by character.
pub fn units_of(alloc: Global, text: &str) -> Result<Vec<u16>, NoMemory>
    ensures { IfOk result (λ units. units.items ≡ flat_map encode_utf16 (chars text.now)) }
{
    let mut units = Vec::new(alloc);
    for character in text.chars() {
        let mut pair = [0; 2];
        units.extend_from_slice(character.encode_utf16(&mut pair))?;
    }
    Ok(units)
}
