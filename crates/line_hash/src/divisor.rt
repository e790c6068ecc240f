//! Remainders by a number that is fixed when it is made, without a division.

ghost use Rattle.std.specs.Prelude.{◌≡◌, ◌≤◌, ◌%◌};

use std::marker::Model;

/// A divisor with its reciprocal, seen as the number that it divides by.
///
/// A remainder costs two products, where a division of 64 bits would take several times as long.
#[derive(Debug, Drop)]
pub struct Divisor {
    number: u64,
    // 2^64 divided by the number, rounded down; one less where the number divides 2^64
    inverse: u64,
}

impl Model for Divisor {
    ghost use Rattle.std.specs.Prelude.{ℕ};
    ghost use Rattle.line_hash.specs.Reciprocal.{IsReciprocal};

    ghost Value = { ℕ };

    ghost view = { λ d. d.number };

    ghost invariant = { λ d. IsReciprocal d.number d.inverse };
}

impl Divisor {
    /// The divisor of this number.
    pub fn make(number: u32) -> Divisor
        requires { 1 ≤ number }
        ensures { result ≡ number }
    {
        let number = u64::from(number);
        Divisor {
            number,
            inverse: u64::MAX / number,
        }
    }

    /// The remainder of a number.
    pub fn remainder(&self, n: u64) -> u64
        ensures { result ≡ n % self.now }
    {
        let product = u128::from(n) * u128::from(self.inverse);
        // the quotient, or one less
        let quotient = (product >> 64) as u64;
        let rest = n - quotient * self.number;
        if rest >= self.number {
            rest - self.number
        } else {
            rest
        }
    }
}
