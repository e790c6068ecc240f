// The numbers by which instructions name registers.
ghost use Rattle.std.specs.Prelude.{◌≡◌, ◌<◌, ◌≤◌, MatchOption};

use std::marker::Model;

/// The number of one of a task's eight registers, seen as that number. It is below 8.
#[derive(Clone, Copy, Debug, PartialEq, Eq)]
pub struct Reg {
    number: u8,
}

impl Model for Reg {
    ghost use Rattle.std.specs.Prelude.{ℕ, ◌<◌};

    ghost Value = { ℕ };

    ghost view = { λ r. r.number };

    ghost invariant = { λ r. r.number < 8 };

    ghost inverse = { λ n. record { number = n } };
}

impl Reg {
    /// The register with this number. None where there is no such register.
    pub fn make(n: u8) -> Option<Reg>
        ensures made { MatchOption result (8 ≤ n) (λ r. (r ≡ n) × (n < 8)) }
    {
        if n < 8 { Some(Reg { number: n }) } else { None }
    }

    /// The number of the register: 0 to 7.
    pub fn get(&self) -> u8
        ensures number { result ≡ self.now }
        ensures bound { self.now < 8 }
    {
        self.number
    }
}

/// The number of one of a task's four iterator registers, seen as that number. It is below 4.
#[derive(Clone, Copy, Debug, PartialEq, Eq)]
pub struct Ireg {
    number: u8,
}

impl Model for Ireg {
    ghost use Rattle.std.specs.Prelude.{ℕ, ◌<◌};

    ghost Value = { ℕ };

    ghost view = { λ i. i.number };

    ghost invariant = { λ i. i.number < 4 };

    ghost inverse = { λ n. record { number = n } };
}

impl Ireg {
    /// The iterator register with this number. None where there is no such register.
    pub fn make(n: u8) -> Option<Ireg>
        ensures made { MatchOption result (4 ≤ n) (λ i. (i ≡ n) × (n < 4)) }
    {
        if n < 4 {
            Some(Ireg { number: n })
        } else {
            None
        }
    }

    /// The number of the iterator register: 0 to 3.
    pub fn get(&self) -> u8
        ensures number { result ≡ self.now }
        ensures bound { self.now < 4 }
    {
        self.number
    }
}
