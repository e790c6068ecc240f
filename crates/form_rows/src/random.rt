//! Numbers that a seed gives, the same each time.

ghost use Rattle.std.specs.Prelude.{◌<◌};

/// Numbers one after another, all that a seed gives.
#[derive(Drop)]
pub struct Random(pub u64);

impl Random {
    fn next(&mut self) -> u64 {
        self.0 = self
            .0
            .wrapping_mul(6364136223846793005)
            .wrapping_add(1442695040888963407);
        self.0 >> 33
    }

    // A number below another.
    pub fn below(&mut self, n: u64) -> u64
        requires { 0 < n }
        ensures { result < n }
    {
        self.next() % n
    }
}
