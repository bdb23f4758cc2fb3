//! Room in lists.

ghost use Rattle.std.specs.Prelude.{◌≡◌, ◌≤◌, ◌<◌, ◌+◌, ◌++◌, ◌∷◌, [], vec_len, vec_capacity};

/// Adds an item to a list that has room for it.
pub fn push_within<T: Drop>(list: &mut Vec<T>, item: T)
    requires room { vec_len list.old < vec_capacity list.old }
    ensures items { list.new.items ≡ list.old.items ++ item ∷ [] }
    ensures len { vec_len list.new ≡ vec_len list.old + 1 }
    ensures capacity { vec_capacity list.old ≤ vec_capacity list.new }
{
    // There is room, so this succeeds.
    let _ = list.push(item);
}
