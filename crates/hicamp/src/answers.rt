// The answers that a run prints.
ghost use Rattle.std.specs.Prelude.{◌≡◌, ◌+◌, ◌<◌, ◌^◌, length};
ghost use Rattle.hicamp.specs.Summary.{count_of};

/// How often a run has printed the bytes `0`, `1` and `2`. In 64 bits it may make as many steps as these count, and a
/// step may print more than one byte; so they are counted in 128.
#[derive(Clone, Copy, Debug, PartialEq, Eq)]
pub(crate) struct Answers {
    pub(crate) zeros: u128,
    pub(crate) ones: u128,
    pub(crate) twos: u128,
}

impl Answers {
    /// None so far.
    pub(crate) fn none() -> Answers
        ensures { (result.zeros ≡ 0) × (result.ones ≡ 0) × (result.twos ≡ 0) }
    {
        Answers {
            zeros: 0,
            ones: 0,
            twos: 0,
        }
    }

    /// Counts those among these bytes.
    pub(crate) fn count(&mut self, bytes: &[u8])
        requires zeros { self.old.zeros + length bytes.now < 2 ^ 128 }
        requires ones { self.old.ones + length bytes.now < 2 ^ 128 }
        requires twos { self.old.twos + length bytes.now < 2 ^ 128 }
        ensures zeros { self.new.zeros ≡ self.old.zeros + count_of 48 bytes.now }
        ensures ones { self.new.ones ≡ self.old.ones + count_of 49 bytes.now }
        ensures twos { self.new.twos ≡ self.old.twos + count_of 50 bytes.now }
    {
        self.zeros += count_of(bytes, b'0') as u128;
        self.ones += count_of(bytes, b'1') as u128;
        self.twos += count_of(bytes, b'2') as u128;
    }
}

/// How many of these bytes are this one.
fn count_of(bytes: &[u8], byte: u8) -> usize
    ensures { result ≡ count_of byte bytes.now }
{
    bytes.iter().filter(|b| **b == byte).count()
}
