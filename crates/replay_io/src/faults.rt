//! What a store or a sink answers where it fails.

ghost use Rattle.std.specs.Prelude.{◌≡◌};
ghost use Rattle.replay_io.specs.declared.faults.ReadFault.TheVariants as fault;

use edit_base::NoMemory;
use std::alloc::AllocError;

/// The device failed. A count of faults rose in the call that answers this.
#[derive(Clone, Copy, Debug, PartialEq, Eq)]
pub struct Failed;

/// Why no file could be read.
#[derive(Clone, Copy, Debug, PartialEq, Eq)]
pub enum ReadFault {
    /// The store failed; its count of faults rose.
    Failed,
    /// There was no memory.
    NoMemory,
}

impl From<Failed> for ReadFault {
    ghost from_gives = { λ _ given. given ≡ fault.Failed };

    fn from(_failed: Failed) -> ReadFault {
        ReadFault::Failed
    }
}

impl From<AllocError> for ReadFault {
    ghost from_gives = { λ _ given. given ≡ fault.NoMemory };

    fn from(_error: AllocError) -> ReadFault {
        ReadFault::NoMemory
    }
}

impl From<NoMemory> for ReadFault {
    ghost from_gives = { λ _ given. given ≡ fault.NoMemory };

    fn from(_error: NoMemory) -> ReadFault {
        ReadFault::NoMemory
    }
}
