//! The numbers of lines.

ghost use Rattle.std.specs.Prelude.{◌≡◌, ◌<◌, ◌^◌, ◌∷◌, ◌++◌, ℕ, [], List, None, OnOk, length, vec_len};
ghost use Rattle.hic_list.specs.Numbering.{AreNumbers};
ghost use Rattle.hic_list.specs.Words.{number_of};

use hic_word::LineId;
use std::alloc::{AllocError, Global};
use std::marker::Model;

/// The lines that have numbers, seen as the list of their ids in the order of the numbers.
///
/// It takes 4 bytes for each of them, and 4 for each id up to the greatest.
#[derive(Drop)]
pub(crate) struct Numbers {
    ids: Vec<LineId>,
    // by id: 0 where it has no number, else the number and one more
    by_id: Vec<u32>,
}

impl Model for Numbers {
    ghost use Rattle.std.specs.Prelude.{List, ℕ};
    ghost use Rattle.hic_list.specs.Numbering.{AreNumbers};

    ghost Value = { List ℕ };

    ghost view = { λ s. s.ids.items };

    ghost invariant = { λ s. AreNumbers s.by_id.items s.ids.items };
}

impl Numbers {
    /// No line has a number.
    pub(crate) fn none(alloc: Global) -> Numbers
        ensures { result ≡ [] }
    {
        Numbers {
            ids: Vec::new(alloc),
            by_id: Vec::new(alloc),
        }
    }

    /// The number of the line of an id, if it has one.
    pub(crate) fn number(&self, id: LineId) -> Option<u32>
        ensures { result ≡ number_of self.now id }
    {
        self.by_id.get(id.get() as usize)?.checked_sub(1)
    }

    /// Gives the next number to the line of an id that has none.
    pub(crate) fn add(&mut self, id: LineId) -> Result<(), AllocError>
        requires new { number_of self.old id ≡ None }
        requires few { length self.old < 2 ^ 24 }
        ensures { OnOk result (self.new ≡ self.old ++ id ∷ []) }
    {
        let place = id.get() as usize;
        make_place(&mut self.by_id, place)?;
        self.ids.push(id)?;
        self.by_id[place] = self.ids.len() as u32;
        Ok(())
    }

    /// The ids in the order of the numbers.
    pub(crate) fn ids(&self) -> &[LineId]
        ensures { result.now ≡ self.now }
    {
        self.ids.as_slice()
    }
}

/// Makes numbers by id long enough for a place.
fn make_place(by_id: &mut Vec<u32>, place: usize) -> Result<(), AllocError>
    requires { place < 2 ^ 24 }
    ensures numbers { (ids : List ℕ) → AreNumbers by_id.old.items ids → AreNumbers by_id.new.items ids }
    ensures place { OnOk result (place < vec_len by_id.new) }
{
    if by_id.len() <= place {
        by_id.resize(place + 1, 0)?;
    }
    Ok(())
}
