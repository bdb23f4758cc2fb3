//! Slots that come and go by their ranks.

ghost use Rattle.std.specs.Prelude.{◌≡◌, ◌≤◌, ◌<◌, ◌+◌, ◌==◌, ◌∷◌, not, length};
ghost use Rattle.std.specs.List.{All, Contains, concat, filter};
ghost use Rattle.std.specs.List.Sorted.{IsNonDecreasingBy, IsPermutation};
ghost use Rattle.span_order.specs.Ranked.{rank_in};
ghost use Rattle.span_order.specs.Topped.{AreApart};

use crate::order::Order;

impl Order {
    /// A slot comes at its place by the numbers. There is room for it.
    pub fn insert(&mut self, keys: &[u64], slot: u32)
        requires key { slot < length keys.now }
        requires rising { IsNonDecreasingBy (rank_in keys.now) (concat self.old.blocks) }
        requires room { 0 < self.old.spare }
        ensures all { IsPermutation (slot ∷ concat self.old.blocks) (concat self.new.blocks) }
        ensures rising { IsNonDecreasingBy (rank_in keys.now) (concat self.new.blocks) }
        ensures spare { self.old.spare ≡ self.new.spare + 1 }
    {
        let at = self.seek(keys, keys[slot as usize], slot);
        self.splice(at, at, &[slot]);
    }

    /// A slot that is there goes. No other is the same.
    pub fn take_out(&mut self, keys: &[u64], slot: u32)
        requires few { length keys.now ≤ 4294967296 }
        requires keys { All (λ other. other < length keys.now) (concat self.old.blocks) }
        requires there { Contains (concat self.old.blocks) slot }
        requires apart { AreApart (concat self.old.blocks) }
        requires rising { IsNonDecreasingBy (rank_in keys.now) (concat self.old.blocks) }
        ensures all { concat self.new.blocks ≡ filter (λ other. not (other == slot)) (concat self.old.blocks) }
        ensures spare { self.old.spare + 1 ≡ self.new.spare }
    {
        let from = self.seek(keys, keys[slot as usize], slot);
        let to = self.forward(from);
        self.splice(from, to, &[]);
    }
}
