//! Laws of the object file, each the contract of a function with an empty body.
ghost use Rattle.std.specs.Prelude.{◌≡◌, ◌≢◌, ◌↔◌, ◌<◌, ℕ, List, ◌∷◌, ◌++◌, All, length, take, Ok, Err};
ghost use Rattle.hic_object.specs.declared.error.ObjectError.TheVariants.{Short, Long, OutOfMemory};
ghost use Rattle.hic_object.specs.Parts.{Parts, IsObject};
ghost use Rattle.hic_object.specs.Spelled.{spelled, IsSpelled};
ghost use Rattle.hic_object.specs.Reading.{object_at};

/// Bytes are read as an object exactly where they are its spelling. Other bytes have a first fault, and that is never
/// want of memory.
pub fn reads_what_is_spelled()
    ensures object { (bytes : List ℕ) → All (λ byte. byte < 256) bytes → (o : Parts) →
        (object_at bytes ≡ Ok o) ↔ IsSpelled bytes o }
    ensures fault { (bytes : List ℕ) → object_at bytes ≢ Err OutOfMemory }
{}

/// No object's bytes begin another's: an object that is cut anywhere is short, and one with bytes
/// after it is long.
pub fn one_length()
    ensures cut { (o : Parts) → IsObject o → (k : ℕ) → k < length (spelled o) →
        object_at (take k (spelled o)) ≡ Err Short }
    ensures longer { (o : Parts) → IsObject o → (b : ℕ) (bytes : List ℕ) →
        object_at (spelled o ++ b ∷ bytes) ≡ Err Long }
{}
