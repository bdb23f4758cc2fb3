//! A run of slots that stands in three lists.

ghost use Rattle.std.specs.Prelude.{◌≡◌, ◌≤◌, ◌<◌, ◌^◌, ◌+◌, ◌-◌, length, take, drop};
ghost use Rattle.span_order.specs.Window.{all_of};

use crate::block::Block;

/// Three lists of slots, one behind the other.
#[derive(Clone, Copy)]
pub struct Run<'a> {
    /// The first slots.
    pub head: &'a [u32],
    /// Those behind them.
    pub slots: &'a [u32],
    /// The last slots.
    pub tail: &'a [u32],
}

impl Run<'_> {
    /// How many slots there are.
    pub fn len(&self) -> usize
        requires { length (all_of self.now) < 2 ^ 63 }
        ensures { result ≡ length (all_of self.now) }
    {
        self.head.len() + self.slots.len() + self.tail.len()
    }

    /// So many slots from a place on, as a block.
    pub fn piece(&self, at: usize, count: usize) -> Block
        requires few { count ≤ 64 }
        requires within { at + count ≤ length (all_of self.now) }
        ensures { result ≡ take count (drop at (all_of self.now)) }
    {
        let end = at + count;
        let slots = self.head.len();
        let tail = slots + self.slots.len();
        let mut block = Block::new();
        block.extend(part(self.head, at, end));
        block.extend(part(
            self.slots,
            at.saturating_sub(slots),
            end.saturating_sub(slots),
        ));
        block.extend(part(self.tail, at.saturating_sub(tail), end.saturating_sub(tail)));
        block
    }
}

/// What a list has from one place up to another, either of which may stand behind its end.
fn part(slots: &[u32], from: usize, to: usize) -> &[u32]
    requires { from ≤ to }
    ensures { result.now ≡ take (to - from) (drop from slots.now) }
{
    let end = slots.len();
    &slots[from.min(end)..to.min(end)]
}
