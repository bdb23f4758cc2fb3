//! Places of a text, and their numbers of 64 bits round a gap. The side on which an end stands at its place is part of its
//! number, and a number behind the gap has twice the gap's length added.

ghost use Rattle.std.specs.Prelude.{◌≡◌, ◌<◌, ◌≤◌, ◌*◌};
ghost use Rattle.span_table.specs.Numbers.{IsNumber, bound, ends_behind, is_point, number_at, opened, place_of, shut, starts_behind};

use span_flags::{EndKind, end_of_kind, kind_of_word, start_of};

/// The place of a number.
pub fn place_of(gap: u32, room: u32, number: u64) -> u32
    requires behind { 2 * gap < number → 2 * room ≤ number }
    requires fits { place_of gap room number < bound }
    ensures { result ≡ place_of gap room number }
{
    (shut(gap, room, number) / 2) as u32
}

/// The number of an end at a place: of one that stands behind the gap where it stands at it, or of one before it.
pub fn number_at(gap: u32, room: u32, behind: bool, place: u32) -> u64
    ensures number { result ≡ number_at gap room behind place }
    ensures place { place_of gap room result ≡ place }
    ensures valid { IsNumber gap room behind result }
{
    opened(gap, room, 2 * u64::from(place) + u64::from(behind))
}

/// The number of the same end round another gap.
pub fn carried(number: u64, old_gap: u32, old_room: u32, new_gap: u32, new_room: u32) -> u64
    requires behind { 2 * old_gap < number → 2 * old_room ≤ number }
    requires fits { place_of old_gap old_room number < bound }
    ensures { result ≡ opened new_gap new_room (shut old_gap old_room number) }
{
    opened(new_gap, new_room, shut(old_gap, old_room, number))
}

/// A number without a gap, round this one.
fn opened(gap: u32, room: u32, bare: u64) -> u64
    requires { bare < 2 * bound }
    ensures { result ≡ opened gap room bare }
{
    if bare <= 2 * u64::from(gap) {
        bare
    } else {
        bare + 2 * u64::from(room)
    }
}

/// And back.
fn shut(gap: u32, room: u32, number: u64) -> u64
    requires { 2 * gap < number → 2 * room ≤ number }
    ensures { result ≡ shut gap room number }
{
    if number <= 2 * u64::from(gap) {
        number
    } else {
        number - 2 * u64::from(room)
    }
}

/// Whether the start of a span with these flags stands behind the gap where it stands at it.
pub fn starts_behind(flags: u32) -> bool
    ensures { result ≡ starts_behind flags }
{
    is_point(start_of(kind_of_word(flags)))
}

/// Whether the end of a span with these flags does.
pub fn ends_behind(flags: u32) -> bool
    ensures { result ≡ ends_behind flags }
{
    is_point(end_of_kind(kind_of_word(flags)))
}

/// Whether an end of this kind that stands at the gap stands behind it.
pub fn is_point(kind: EndKind) -> bool
    ensures { result ≡ is_point kind }
{
    matches!(kind, EndKind::Point)
}
