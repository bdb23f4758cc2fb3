//! The numbers that kinds are loaded with, by what fits.

ghost use Rattle.std.specs.Prelude.{◌≡◌, ◌≤◌, [], ◌∷◌, is_some, IfSome};
ghost use Rattle.edit_base.specs.declared.bounds.TheConstants.Limits.{TEXT};
ghost use Rattle.edit_model.specs.Minds.{no_numbers, two_units, is_id, one_length, id_and_face, two_ids};

use edit_base::Limits;

/// What a kind without numbers keeps, where there are none.
pub fn no_numbers<T: Drop>(numbers: &[u32], kept: T) -> Option<T>
    ensures fits { is_some result ≡ no_numbers numbers.now }
    ensures same { IfSome result (λ it. (it ≡ kept) × ([] ≡ numbers.now)) }
{
    numbers.is_empty().then_some(kept)
}

/// Two units that differ.
pub fn two_units(numbers: &[u32]) -> Option<(u16, u16)>
    ensures fits { is_some result ≡ two_units numbers.now }
    ensures same { IfSome result (λ units. units.0 ∷ units.1 ∷ [] ≡ numbers.now) }
{
    match numbers {
        [first, second] if first != second => {
            let first = u16::try_from(*first).ok()?;
            let second = u16::try_from(*second).ok()?;
            Some((first, second))
        }
        _ => None,
    }
}

/// One length of a text.
pub fn one_length(numbers: &[u32]) -> Option<u32>
    ensures fits { is_some result ≡ one_length numbers.now }
    ensures same { IfSome result (λ length. length ∷ [] ≡ numbers.now) }
    ensures within { IfSome result (λ length. length ≤ TEXT) }
{
    match numbers {
        [length] if *length <= Limits::TEXT => Some(*length),
        _ => None,
    }
}

/// The id of a span and a face.
pub fn id_and_face(numbers: &[u32]) -> Option<(u32, u8)>
    ensures fits { is_some result ≡ id_and_face numbers.now }
    ensures same { IfSome result (λ both. both.0 ∷ both.1 ∷ [] ≡ numbers.now) }
{
    match numbers {
        [id, face] if is_id(*id) => {
            let face = u8::try_from(*face).ok()?;
            Some((*id, face))
        }
        _ => None,
    }
}

/// Two ids of spans that differ.
pub fn two_ids(numbers: &[u32]) -> Option<(u32, u32)>
    ensures fits { is_some result ≡ two_ids numbers.now }
    ensures same { IfSome result (λ ids. ids.0 ∷ ids.1 ∷ [] ≡ numbers.now) }
{
    match numbers {
        [first, second] if is_id(*first) && is_id(*second) && first != second => {
            Some((*first, *second))
        }
        _ => None,
    }
}

// Whether an id is that of no kept span.
fn is_id(id: u32) -> bool
    ensures { result ≡ is_id id }
{
    id >= 3
}
