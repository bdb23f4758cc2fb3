//! The text that a watcher is shown.

ghost use Rattle.std.specs.Prelude.{ℕ, ◌≡◌, ◌≤◌, ◌<◌, ◌++◌, Bool, length, min, slice_index, IfSome};
ghost use Rattle.edit_base.specs.declared.bounds.TheConstants.Limits.{TEXT};

// The units of `left`, and behind them those of `right`.
#[derive(Clone, Copy)]
pub struct Text<'a> {
    pub left: &'a [u16],
    pub right: &'a [u16],
    ghost short: { length (left.now ++ right.now) ≤ TEXT },
}

impl<'a> Text<'a> {
    ghost use Rattle.edit_model.specs.Minds.{has_unit, first_place};
    ghost use Rattle.watcher_kit.specs.Texts.{joined};

    /// How many units there are.
    pub fn len(&self) -> u32
        ensures { result ≡ length (joined self.now) }
    {
        (self.left.len() + self.right.len()) as u32
    }

    /// The unit at a place.
    pub fn unit(&self, at: u32) -> u16
        requires { at < length (joined self.now) }
        ensures { result ≡ slice_index (joined self.now) at }
    {
        let at = at as usize;
        if at < self.left.len() {
            self.left[at]
        } else {
            self.right[at - self.left.len()]
        }
    }

    /// Whether the unit at a place is this one.
    pub fn has(&self, at: u32, unit: u16) -> bool
        ensures { result ≡ has_unit (joined self.now) at unit }
    {
        at < self.len() && self.unit(at) == unit
    }

    /// The least place from one on, before another and before the end of the text, that passes a test.
    pub fn first<F: Fn(u32) -> bool>(&self, from: u32, to: u32, test: F) -> Option<u32>
        requires { (at : ℕ) → at < length (joined self.now) → F.pre test at }
        ensures within { IfSome result (λ at. at < length (joined self.now)) }
        ensures first { (passes : ℕ → Bool)
            → ((at : ℕ) (is : Bool) → at < length (joined self.now) → F.post test at is → is ≡ passes at)
            → result ≡ first_place passes from (min to (length (joined self.now))) }
    {
        for at in from..to.min(self.len()) {
            if test(at) {
                return Some(at);
            }
        }
        None
    }
}
