//! Room in lists, so that an edit can be done and told without memory.

ghost use Rattle.std.specs.Prelude.{◌≡◌, ◌≤◌, vec_capacity, OnOk, IsOk};

use edit_base::NoMemory;

/// Room for `count` items in all. Where there is room already nothing is asked for, and the capacity stays.
pub fn make_room<T>(list: &mut Vec<T>, count: usize) -> Result<(), NoMemory>
    ensures ok { OnOk result (count ≤ vec_capacity list.new) }
    ensures items { list.new.items ≡ list.old.items }
    ensures capacity { vec_capacity list.old ≤ vec_capacity list.new }
    ensures stays { count ≤ vec_capacity list.old → vec_capacity list.new ≡ vec_capacity list.old }
    ensures room { count ≤ vec_capacity list.old → IsOk result }
{
    if count > list.capacity() {
        list.reserve(count - list.len())?;
    }
    Ok(())
}
