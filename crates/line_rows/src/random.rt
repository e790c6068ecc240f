//! Numbers that a seed gives, the same each time.

ghost use Rattle.std.specs.Prelude.{◌<◌};

/// Numbers one after another, all that a seed gives.
#[derive(Drop)]
pub(crate) struct Random(pub(crate) u64);

impl Random {
    fn next(&mut self) -> u64 {
        self.0 = self
            .0
            .wrapping_mul(6364136223846793005)
            .wrapping_add(1442695040888963407);
        self.0 >> 33
    }

    /// A number below another.
    pub(crate) fn below(&mut self, n: u32) -> u32
        requires { 0 < n }
        ensures { result < n }
    {
        (self.next() % u64::from(n)) as u32
    }
}
