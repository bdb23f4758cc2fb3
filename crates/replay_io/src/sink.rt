//! Where bytes are written.

ghost use Rattle.std.specs.Prelude.{ℕ, ◌≡◌, ◌≤◌, ◌<◌, List, Option, length, take, IfOk, OnOk, OnErr};
ghost use Rattle.replay_io.specs.Outside.{Rose, with_more};

use crate::faults::Failed;

/// A place to write to, one piece behind the other.
///
/// A sink may tell what was written. It always tells how many faults it had: a count that rises with each call that
/// fails, and with no other.
pub trait Sink {
    ghost written: { Self → Option (List ℕ) };

    ghost faults: { Self → ℕ };

    /// Takes a prefix of the piece and answers its length, which is never 0 for a piece that isn't empty. Where nothing
    /// can be taken it fails, and what was written stays.
    fn put(&mut self, bytes: &[u8]) -> Result<usize, Failed>
        ensures within { IfOk result (λ count. count ≤ length bytes.now) }
        ensures some { IfOk result (λ count. 0 < length bytes.now → 0 < count) }
        ensures written { IfOk result (λ count.
            written self.new ≡ with_more (written self.old) (take count bytes.now)) }
        ensures err { OnErr result (written self.new ≡ written self.old) }
        ensures failed { OnErr result (Rose (faults self.old) (faults self.new)) }
        ensures quiet { OnOk result (faults self.new ≡ faults self.old) }
        ensures counts { faults self.old ≤ faults self.new };
}
