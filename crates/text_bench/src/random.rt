//! Places that are drawn, the same ones in each run.

ghost use Rattle.std.specs.Prelude.{◌≤◌, ◌<◌, ◌^◌};

/// A linear congruential generator.
#[derive(Drop)]
pub struct Random {
    state: u32,
}

impl Random {
    /// A generator at its seed.
    pub fn new() -> Random {
        Random { state: 20_000 }
    }

    /// The next place of those up to `last`. The low bits, which repeat soon, don't count.
    pub fn place(&mut self, last: u32) -> u32
        requires { last < 2 ^ 24 }
        ensures { result ≤ last }
    {
        self.state = self
            .state
            .wrapping_mul(1_664_525)
            .wrapping_add(1_013_904_223);
        self.state / 256 % (last + 1)
    }
}
