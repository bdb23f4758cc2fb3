//! A sink that takes everything and keeps nothing.

ghost use Rattle.std.specs.Prelude.{◌≡◌, length, Ok};

use crate::faults::Failed;
use crate::sink::Sink;

/// A place to write to that keeps no bytes and tells none. Each call takes its whole piece, and none fails.
#[derive(Debug, Default, Drop)]
pub struct SteadySink;

impl SteadySink {
    /// It takes no memory.
    pub fn new() -> SteadySink
        ensures { result ≡ record {} }
    {
        SteadySink
    }
}

impl Sink for SteadySink {
    ghost use Rattle.std.specs.Prelude.{None};

    ghost written = { λ _. None };

    ghost faults = { λ _. 0 };

    fn put(&mut self, bytes: &[u8]) -> Result<usize, Failed>
        ensures { result ≡ Ok (length bytes.now) }
    {
        Ok(bytes.len())
    }
}
