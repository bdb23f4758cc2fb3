//! A text as two slices.

ghost use Rattle.std.specs.Prelude.{◌≡◌, ◌≤◌, ◌<◌, ◌+◌, drop, length, slice_index};
ghost use Rattle.edit_base.specs.declared.bounds.TheConstants.Limits.{TEXT};

/// A text of at most 1,048,576 units: those of `left`, and behind them those of `right`.
#[derive(Clone, Copy)]
pub struct Halves<'a> {
    pub left: &'a [u16],
    pub right: &'a [u16],
    ghost short: { length left.now + length right.now ≤ TEXT },
}

impl<'a> Halves<'a> {
    ghost use Rattle.text_cut.specs.Halves.{joined};

    /// The length in units.
    pub fn len(&self) -> u32
        ensures len { result ≡ length (joined self.now) }
        ensures limit { result ≤ TEXT }
    {
        (self.left.len() + self.right.len()) as u32
    }

    /// The unit at a place.
    pub fn unit(&self, at: u32) -> u16
        requires { at < length (joined self.now) }
        ensures { result ≡ slice_index (joined self.now) at }
    {
        let at = at as usize;
        if at < self.left.len() {
            self.left[at]
        } else {
            self.right[at - self.left.len()]
        }
    }

    /// The units from a place on.
    pub fn from(&self, place: u32) -> Halves<'a>
        requires { place ≤ length (joined self.now) }
        ensures { joined result ≡ drop place (joined self.now) }
    {
        let place = place as usize;
        if place <= self.left.len() {
            Halves {
                left: &self.left[place..],
                right: self.right,
            }
        } else {
            Halves {
                left: &[],
                right: &self.right[place - self.left.len()..],
            }
        }
    }
}
