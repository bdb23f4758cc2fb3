//! A follower that counts.

ghost use Rattle.std.specs.Prelude.{◌≡◌, ◌+◌, ◌<◌, ◌≤◌, OnOk, OnErr};
ghost use Rattle.edit_model.specs.Faces.{no_ground};

use edit_base::{NoMemory, Steps};
use replace_engine::{Change, Follower, SpannedText};
use std::sync::ledger::Ledger;

/// A follower that counts the changes that it is told of, and has memory for so many of them.
#[derive(Clone, Copy, Debug, PartialEq, Eq)]
pub struct Tally {
    /// How many changes it was told of.
    pub told: u32,
    /// For how many it has memory.
    pub most: u32,
}

impl Tally {
    /// One that was told of nothing yet.
    pub fn new(most: u32) -> Tally
        ensures { result ≡ record { told = 0; most = most } }
    {
        Tally { told: 0, most }
    }
}

impl Follower for Tally {
    ghost follows = { λ _ _. Unit {0} };

    ghost layout_ground = { λ _. no_ground };

    ghost takes = { λ _ _ _. Unit {0} };

    ghost takes_none = { λ _. tt };

    ghost takes_both = { λ _ _ _ _ _ _ _. tt };

    /// Counts the change, or wants memory where it counted as many as it may.
    fn told<L: Ledger>(
        &mut self,
        _text: &SpannedText,
        _change: &Change,
        _steps: &mut Steps<L>,
    ) -> Result<(), NoMemory>
        ensures counted { OnOk result (self.new ≡ record { told = self.old.told + 1; most = self.old.most }) }
        ensures room { OnOk result (self.old.told < self.old.most) }
        ensures full { OnErr result (self.old.most ≤ self.old.told) }
        ensures unchanged { OnErr result (self.new ≡ self.old) }
    {
        if self.told >= self.most {
            return Err(NoMemory);
        }
        self.told += 1;
        Ok(())
    }
}
