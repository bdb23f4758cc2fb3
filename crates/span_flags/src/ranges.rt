//! Places as they are asked for, with a sign, and the tests whether they lie in a text.

ghost use Rattle.std.specs.Prelude.{pos, ◌≡◌, ◌≤ℤ◌, ◌||◌, int_lt};
ghost use Rattle.edit_model.specs.State.{place};
ghost use Rattle.edit_model.specs.Verdicts.{goes_below};

/// A place that is known not to be below 0, without its sign; 0 for one that is.
pub fn place_of(at: i32) -> u32
    ensures place { result ≡ place at }
    ensures same { pos 0 ≤ℤ at → pos result ≡ at }
{
    if at < 0 { 0 } else { at as u32 }
}

/// Whether one of the places lies behind a text of `length` units.
pub fn goes_beyond(length: u32, start: i32, end: i32) -> bool
    ensures { result ≡ (int_lt (pos length) start || int_lt (pos length) end) }
{
    let length = i64::from(length);
    i64::from(start) > length || i64::from(end) > length
}

/// Whether one of the places lies before a text's start.
pub fn goes_below(start: i32, end: i32) -> bool
    ensures { result ≡ goes_below start end }
{
    start < 0 || end < 0
}
