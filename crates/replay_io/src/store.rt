//! Where files are read from.

ghost use Rattle.std.specs.Prelude.{ℕ, ◌≡◌, ◌≢◌, ◌≤◌, ◌<◌, ◌++◌, [], ◌∷◌, List, Option, length, IfOk, OnOk, OnErr};
ghost use Rattle.replay_io.specs.Outside.{Asked, begun_name, refused_name, Rose, HandsOut};

use crate::faults::{Failed, ReadFault};

/// Files under names, of which one at a time is read from its begin to its end.
///
/// A store may tell what stands under a name, and what is left of the file that was begun last. It always tells the
/// names that it was asked for, and how many faults it had: a count that rises with each call that answers `Failed`,
/// and with no other.
pub trait Store {
    ghost stands: { Self → List ℕ → Option (List ℕ) };

    ghost left: { Self → Option (List ℕ) };

    ghost asked: { Self → List Asked };

    ghost faults: { Self → ℕ };

    /// Begins the file under a name. After want of memory nothing has changed.
    fn begin_read(&mut self, name: &str) -> Result<(), ReadFault>
        ensures begun { OnOk result (asked self.new ≡ asked self.old ++ begun_name name.now ∷ []) }
        ensures left { OnOk result (left self.new ≡ stands self.old name.now) }
        ensures err { OnErr result (left self.new ≡ left self.old) }
        ensures refused { result ≡ Err ReadFault.Failed
            → asked self.new ≡ asked self.old ++ refused_name name.now ∷ [] }
        ensures failed { result ≡ Err ReadFault.Failed → Rose (faults self.old) (faults self.new) }
        ensures no_memory { result ≡ Err ReadFault.NoMemory → asked self.new ≡ asked self.old }
        ensures quiet { result ≢ Err ReadFault.Failed → faults self.new ≡ faults self.old }
        ensures stands { (other : List ℕ) → stands self.new other ≡ stands self.old other }
        ensures counts { faults self.old ≤ faults self.new };

    /// Hands out the next bytes of the file begun last, at most as many as the buffer holds, and answers how many. No
    /// byte for a buffer that isn't empty is the file's end.
    fn take(&mut self, buf: &mut [u8]) -> Result<usize, Failed>
        ensures within { IfOk result (λ count. count ≤ length buf.new) }
        ensures bytes { IfOk result (λ count. HandsOut (left self.old) (left self.new) buf.new count) }
        ensures err { OnErr result (left self.new ≡ left self.old) }
        ensures failed { OnErr result (Rose (faults self.old) (faults self.new)) }
        ensures quiet { OnOk result (faults self.new ≡ faults self.old) }
        ensures asked { asked self.new ≡ asked self.old }
        ensures stands { (other : List ℕ) → stands self.new other ≡ stands self.old other }
        ensures counts { faults self.old ≤ faults self.new };
}
