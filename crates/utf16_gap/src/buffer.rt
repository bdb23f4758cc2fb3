//! Moves of UTF-16 units in a buffer with a gap. Places are those of the buffer, in units.

ghost use Rattle.std.specs.Prelude.{◌≡◌, ◌≤◌, ◌<◌, ◌+◌, ◌-◌, ◌^◌, ◌++◌, length, take, drop, vec_len, vec_capacity, OnOk, OnErr, IsOk};
ghost use Rattle.utf16_gap.specs.Gap.{around};

use edit_base::NoMemory;

/// Brings the gap, of `spare` units from `gap` on, before the place `to` of the text. Only the units between go to its
/// other side.
#[tactic(auto, using(crate::proofs::Moves::moves))]
pub fn move_gap(buffer: &mut Vec<u16>, gap: usize, spare: usize, to: usize)
    requires from { gap + spare ≤ vec_len buffer.old }
    requires to { to + spare ≤ vec_len buffer.old }
    ensures text { around buffer.new.items to spare ≡ around buffer.old.items gap spare }
    ensures len { vec_len buffer.new ≡ vec_len buffer.old }
{
    if to < gap {
        buffer.copy_within(to..gap, to + spare);
    } else {
        buffer.copy_within(gap + spare..to + spare, gap);
    }
}

/// Makes the gap, of `spare` units from `gap` on, longer by `more` units. The units behind it go to the new end.
pub fn widen(buffer: &mut Vec<u16>, gap: usize, spare: usize, more: usize) -> Result<(), NoMemory>
    requires gap { gap + spare ≤ vec_len buffer.old }
    requires fits { vec_len buffer.old + more < 2 ^ 32 }
    ensures text { OnOk result (around buffer.new.items gap (spare + more) ≡ around buffer.old.items gap spare) }
    ensures len { OnOk result (vec_len buffer.new ≡ vec_len buffer.old + more) }
    ensures err { OnErr result (buffer.new.items ≡ buffer.old.items) }
    ensures err_len { OnErr result (vec_len buffer.new ≡ vec_len buffer.old) }
    ensures room { vec_len buffer.old + more ≤ vec_capacity buffer.old → IsOk result }
{
    let size = buffer.len();
    buffer.reserve_exact(more)?;
    // There is room, so this succeeds.
    let _ = buffer.resize(size + more, 0);
    buffer.copy_within(gap + spare..size, gap + spare + more);
    Ok(())
}

/// Writes units into the gap, of `spare` units from `gap` on, at its start.
pub fn write(buffer: &mut Vec<u16>, gap: usize, spare: usize, units: &[u16])
    requires gap { gap + spare ≤ vec_len buffer.old }
    requires room { length units.now ≤ spare }
    ensures text { around buffer.new.items (gap + length units.now) (spare - length units.now)
        ≡ take gap buffer.old.items ++ units.now ++ drop (gap + spare) buffer.old.items }
    ensures len { vec_len buffer.new ≡ vec_len buffer.old }
{
    buffer[gap..gap + units.len()].copy_from_slice(units);
}
