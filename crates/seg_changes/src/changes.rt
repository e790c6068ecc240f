//! Lists of changes: offsets with the words that they get.

ghost use Rattle.std.specs.Prelude.{◌≡◌, ◌↔◌, ◌<◌, ◌≤◌, [], ◌∷◌, ◌++◌, length, IfOk, IsErr, OnErr, OnOk};
ghost use Rattle.seg_changes.specs.ChangeList.{most_changes, with_word};

use hic_word::Word;
use std::alloc::{AllocError, Global};
use std::marker::Model;
use thiserror::Error;

/// The most pairs of a list of changes.
const MAX_CHANGES: usize = 4096;

/// Two arrays differ at more than 4,096 offsets.
#[derive(Clone, Copy, Debug, PartialEq, Eq, Error)]
#[error("the arrays differ at more than 4096 offsets")]
pub struct Wide;

/// At most 4,096 pairs of an offset and a word, seen as the list of these pairs.
///
/// It takes all its memory when it is made. It keeps no hold for its words.
#[derive(Drop)]
pub struct Changes {
    pairs: Vec<(u32, Word)>,
}

impl Model for Changes {
    ghost use Rattle.std.specs.Prelude.{◌≤◌, ℕ, List, length, vec_capacity};
    ghost use Rattle.hic_word.specs.declared.Word.{Word};
    ghost use Rattle.seg_changes.specs.ChangeList.{most_changes};

    ghost Value = { List (ℕ × Word) };

    ghost view = { λ c. c.pairs.items };

    // few pairs, and room for as many as there may be
    ghost invariant = { λ c. (length c.pairs.items ≤ most_changes) × (most_changes ≤ vec_capacity c.pairs) };
}

impl Changes {
    /// No pair, with room for 4,096.
    pub fn make(alloc: Global) -> Result<Changes, AllocError>
        ensures { IfOk result (λ it. it ≡ []) }
    {
        let pairs = Vec::with_capacity(alloc, MAX_CHANGES)?;
        Ok(Changes { pairs })
    }

    /// The pairs, in order.
    pub fn as_slice(&self) -> &[(u32, Word)]
        ensures pairs { result.now ≡ self.now }
        ensures few { length self.now ≤ most_changes }
    {
        self.pairs.as_slice()
    }

    /// Takes every pair out.
    pub fn clear(&mut self)
        ensures { self.new ≡ [] }
    {
        self.pairs.clear();
    }

    /// Gives the pair at this place, counted from 0, another word. Its offset and all other pairs stay.
    pub fn set_word(&mut self, k: u32, word: Word)
        requires { k < length self.old }
        ensures { self.new ≡ with_word self.old k word }
    {
        self.pairs[k as usize].1 = word;
    }

    /// Puts a pair behind the others. `Wide` exactly where there are 4,096, with nothing changed.
    pub(crate) fn push(&mut self, offset: u32, word: Word) -> Result<(), Wide>
        ensures pairs { OnOk result (self.new ≡ self.old ++ (offset, word) ∷ []) }
        ensures few { OnOk result (length self.new ≤ most_changes) }
        ensures wide { IsErr result ↔ (length self.old ≡ most_changes) }
        ensures unchanged { OnErr result (self.new ≡ self.old) }
    {
        if self.pairs.len() == MAX_CHANGES {
            return Err(Wide);
        }
        // it cannot fail, since there is room for every pair
        let _ = self.pairs.push((offset, word));
        Ok(())
    }
}
