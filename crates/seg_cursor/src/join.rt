//! Where the ways to two offsets part.

ghost use Rattle.std.specs.Prelude.{◌≡◌, ℕ, ◌≤◌};
ghost use Rattle.seg_cursor.specs.Pieces.{IsJoined};

/// The least height, from 1 on, at which one part has both offsets.
pub fn join(a: u32, b: u32) -> u8
    ensures some { 1 ≤ result }
    ensures low { result ≤ 16 }
    ensures joined { IsJoined result a b }
    ensures least { (k : ℕ) → 1 ≤ k → IsJoined k a b → result ≤ k }
{
    (16 - (a ^ b).leading_zeros() as u8 / 2).max(1)
}
