//! A walk over live slots.

ghost use Rattle.std.specs.Prelude.{◌≡◌};
ghost use Rattle.slot_ranks.specs.Iterated.{slots_left};
ghost use Rattle.slot_ranks.specs.Slots.{line};

use crate::ranks::SlotRanks;

/// Live slots, rising. A dead one is passed by a search, however many follow it.
#[derive(Clone, Copy)]
pub struct LiveSlots<'a> {
    ranks: &'a SlotRanks,
    /// The slots before this one are passed.
    slot: u32,
}

impl LiveSlots<'_> {
    /// All live slots.
    pub fn new(ranks: &SlotRanks) -> LiveSlots<'_>
        ensures { slots_left result ≡ line ranks.now.live }
    {
        LiveSlots { ranks, slot: 0 }
    }
}

impl Iterator for LiveSlots<'_> {
    ghost use Rattle.std.specs.Iterator.{YieldsFirst, item_count};
    ghost use Rattle.slot_ranks.specs.Iterated.{slots_left};

    type Item = u32;

    ghost next_gives = { YieldsFirst slots_left };

    ghost remaining = { item_count slots_left };

    fn next(&mut self) -> Option<u32> {
        let slot = self.ranks.live_from(self.slot)?;
        self.slot = slot + 1;
        Some(slot)
    }
}
