//! Calls that are counted, some of which fail.

ghost use Rattle.std.specs.Prelude.{◌≡◌, ◌≤◌};
ghost use Rattle.replay_io.specs.Counted.{from_first, is_listed, after_success, after_fault};
ghost use Rattle.replay_io.specs.Outside.{Rose};

use std::marker::Model;

// The numbers of the calls that fail, the number of the next call, and how many calls failed. A number that rises
// stands still at its end.
#[derive(Debug, Drop)]
pub(crate) struct Calls {
    failing: Vec<u32>,
    next: u64,
    faults: u64,
}

impl Model for Calls {
    ghost use Rattle.replay_io.specs.Counted.{Counted};

    ghost Value = { Counted };

    ghost view = { λ calls. record { failing = calls.failing.items; next = calls.next; faults = calls.faults } };
}

impl Calls {
    // No call was made yet; the first one has the number 1.
    pub(crate) fn new(failing: Vec<u32>) -> Calls
        ensures { result ≡ from_first failing.items }
    {
        Calls {
            failing,
            next: 1,
            faults: 0,
        }
    }

    // Whether the next call is one that fails.
    pub(crate) fn is_listed(&self) -> bool
        ensures { result ≡ is_listed self.now }
    {
        let next = self.next;
        self.failing.iter().any(|number| u64::from(*number) == next)
    }

    // Counts a call that succeeds.
    pub(crate) fn succeed(&mut self)
        ensures { self.new ≡ after_success self.old }
    {
        self.next = self.next.saturating_add(1);
    }

    // Counts a call that fails.
    pub(crate) fn fail(&mut self)
        ensures state { self.new ≡ after_fault self.old }
        ensures rose { Rose self.old.faults self.new.faults }
        ensures counts { self.old.faults ≤ self.new.faults }
    {
        self.next = self.next.saturating_add(1);
        self.faults = self.faults.saturating_add(1);
    }
}
