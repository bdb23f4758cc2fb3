//! Where a cursor goes that counts from a replaced range.

ghost use Rattle.std.specs.Prelude.{◌≡◌};
ghost use Rattle.trace_model.specs.Items.{cursor_place};

/// The place of a cursor that counts from the range between `a` and `b`: from 1 on it counts from the range's end, 1
/// being the end itself, and from 0 down it counts back from the range's start. The place may lie outside any text.
pub fn cursor_place(a: u32, b: u32, cursor: i32) -> i64
    ensures { result ≡ cursor_place a b cursor }
{
    if cursor > 0 {
        i64::from(b) - 1 + i64::from(cursor)
    } else {
        i64::from(a) + i64::from(cursor)
    }
}
