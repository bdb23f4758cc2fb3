//! Room in lists.

ghost use Rattle.std.specs.Prelude.{◌≡◌, ◌≤◌, ◌<◌, ◌+◌, vec_len, vec_capacity};
ghost use Rattle.std.specs.List.{insert};

/// Puts an item at a place of a list that has room for it.
pub fn insert_within<T: Drop>(list: &mut Vec<T>, place: usize, item: T)
    requires place { place ≤ vec_len list.old }
    requires room { vec_len list.old < vec_capacity list.old }
    ensures items { list.new.items ≡ insert list.old.items place item }
    ensures len { vec_len list.new ≡ vec_len list.old + 1 }
    ensures capacity { vec_capacity list.old ≤ vec_capacity list.new }
{
    // There is room, so this succeeds.
    let _ = list.insert(place, item);
}
