//! The units between two places of a text.

ghost use Rattle.std.specs.Prelude.{◌≡◌, ◌≤◌, length, IfOk};
ghost use Rattle.text_cut.specs.Halves.{joined};
ghost use Rattle.edit_model.specs.Selection.{stretch};

use edit_base::NoMemory;
use std::alloc::Global;
use text_cut::Halves;

/// A copy of the units from a place to another.
pub fn stretch(alloc: Global, text: &Halves, from: u32, to: u32) -> Result<Vec<u16>, NoMemory>
    requires order { from ≤ to }
    requires within { to ≤ length (joined text.now) }
    ensures { IfOk result (λ units. units.items ≡ stretch (joined text.now) from to) }
{
    let rest = text.from(from);
    let count = (to - from) as usize;
    let cut = count.min(rest.left.len());
    let mut units = Vec::with_capacity(alloc, count)?;
    units.extend_from_slice(&rest.left[..cut])?;
    units.extend_from_slice(&rest.right[..count - cut])?;
    Ok(units)
}
