//! The registers of a task: eight words, with a hold for each that names a line.
#![tactic(auto)]

ghost use Rattle.std.specs.Prelude.{◌≡◌, ◌≢◌, ◌<◌, ◌↔◌, ℕ, IsTrue, Some, length, replicate, slice_get, slice_set};
ghost use Rattle.std.specs.Int.{bit_at, from_bool};
ghost use Rattle.hic_word.specs.declared.Kind.TheVariants.{Num};
ghost use Rattle.hic_word.specs.Exchanges.{Exchanges, HoldsAmong};
ghost use Rattle.hic_word.specs.Holds.{HasRoom, IsLive};
ghost use Rattle.hic_word.specs.Memory.{Memory};
ghost use Rattle.hic_word.specs.Stands.{word_of};
ghost use Rattle.reg_file.specs.Numbers.{HasNumber, HoldsNumber, IsNumber, TellsOthers};

use hic_word::equal::same_word;
use hic_word::{WIDTH, Word, num};
use line_mem::{LineMem, Steps};
use ref_counts::{hold, release};
use std::marker::Model;
use std::sync::ledger::Ledger;

/// How many registers there are.
pub const REGISTERS: usize = 8;

/// Eight words, seen as the list of them. Whoever keeps one has a hold for each of its words that names a line.
#[derive(Drop)]
pub struct RegFile {
    words: [Word; REGISTERS],
    /// Bit r is set where register r holds something else than a number, so that one test tells it of several registers.
    others: u8,
}

impl Model for RegFile {
    ghost use Rattle.std.specs.Prelude.{◌≡◌, List, length};
    ghost use Rattle.hic_word.specs.declared.Word.{Word};
    ghost use Rattle.reg_file.specs.Numbers.{TellsOthers};

    ghost Value = { List Word };

    ghost view = { λ s. s.words };

    ghost invariant = { λ s. (length s.words ≡ 8) × TellsOthers s.others s.words };
}

impl RegFile {
    /// The number 0 in each register.
    pub fn zero() -> RegFile
        ensures { result ≡ replicate 8 (word_of Num 0 0) }
    {
        RegFile {
            words: [num(0); REGISTERS],
            others: 0,
        }
    }

    /// The word of register `r`, 0 to 7.
    pub fn get(&self, r: u8) -> Word
        requires { r < 8 }
        ensures { slice_get self.now r ≡ Some result }
    {
        self.words[r as usize]
    }

    /// The registers that hold something else than a number: bit r is set where register r does.
    pub fn others(&self) -> u8
        ensures { TellsOthers result self.now }
    {
        self.others
    }

    /// The number in register `r`, 0 to 7, which holds one.
    pub fn number(&self, r: u8) -> u64
        requires inside { r < 8 }
        requires number { HasNumber self.now r }
        ensures { HoldsNumber self.now r result }
    {
        self.words[r as usize].bits
    }

    /// Puts a number into register `r`, 0 to 7, which holds one. So no hold is taken or given up.
    pub fn set_number(&mut self, r: u8, number: u64)
        requires inside { r < 8 }
        requires number { HasNumber self.old r }
        ensures words { self.new ≡ slice_set self.old r (word_of Num 0 number) }
        ensures exchanges { (m : Memory) → Exchanges m m self.old self.new }
    {
        self.words[r as usize].bits = number;
    }

    /// Puts a word into register `r`, 0 to 7.
    ///
    /// A hold is taken on the word, and then the former word's is given up. So a word that was in the register before
    /// keeps its lines.
    #[inline(always)]
    pub fn set<M: LineMem<WIDTH, Counts = L>, L: Ledger>(
        &mut self,
        mem: &mut M,
        r: u8,
        word: Word,
        steps: &mut Steps<L>,
    )
        requires inside { r < 8 }
        requires held { HoldsAmong (M.memory mem.old) self.old }
        requires live { IsLive (M.memory mem.old) word }
        requires room { HasRoom (M.memory mem.old) word }
        ensures words { self.new ≡ slice_set self.old r word }
        ensures eight { length self.new ≡ 8 }
        ensures exchanges { Exchanges (M.memory mem.old) (M.memory mem.new) self.old self.new }
        ensures looks { steps.new ≡ steps.old }
    {
        // A number has no hold, and most words are numbers.
        if is_number(word) && self.holds_number(r) {
            self.set_number(r, word.bits);
        } else {
            self.exchange(mem, r, word, steps);
        }
    }

    /// The same, whatever the words are.
    #[inline(never)]
    fn exchange<M: LineMem<WIDTH, Counts = L>, L: Ledger>(
        &mut self,
        mem: &mut M,
        r: u8,
        word: Word,
        steps: &mut Steps<L>,
    )
        requires inside { r < 8 }
        requires held { HoldsAmong (M.memory mem.old) self.old }
        requires live { IsLive (M.memory mem.old) word }
        requires room { HasRoom (M.memory mem.old) word }
        ensures words { self.new ≡ slice_set self.old r word }
        ensures eight { length self.new ≡ 8 }
        ensures exchanges { Exchanges (M.memory mem.old) (M.memory mem.new) self.old self.new }
        ensures looks { steps.new ≡ steps.old }
    {
        hold(mem, word);
        let at = r as usize;
        let former = self.words[at];
        self.words[at] = word;
        self.others = with_bit(self.others, r, !is_number(word));
        release(mem, former, steps);
    }

    /// Whether register `r`, 0 to 7, holds a number.
    fn holds_number(&self, r: u8) -> bool
        requires { r < 8 }
        ensures number { IsTrue result → HasNumber self.now r }
        ensures eight { length self.now ≡ 8 }
    {
        self.others >> r & 1 == 0
    }

    /// Puts the number 0 into each register, so that nothing is held for them any more.
    pub fn clear<M: LineMem<WIDTH, Counts = L>, L: Ledger>(
        &mut self,
        mem: &mut M,
        steps: &mut Steps<L>,
    )
        requires { HoldsAmong (M.memory mem.old) self.old }
        ensures words { self.new ≡ replicate 8 (word_of Num 0 0) }
        ensures exchanges { Exchanges (M.memory mem.old) (M.memory mem.new) self.old self.new }
        ensures looks { steps.new ≡ steps.old }
    {
        for r in 0..REGISTERS as u8 {
            self.set(mem, r, num(0), steps);
        }
    }
}

/// Whether a word is a number's.
fn is_number(word: Word) -> bool
    ensures { IsTrue result ↔ IsNumber word }
{
    same_word(word, num(word.bits))
}

/// The bits with bit `r`, 0 to 7, set or cleared.
fn with_bit(bits: u8, r: u8, set: bool) -> u8
    requires { r < 8 }
    ensures there { bit_at result r ≡ from_bool set }
    ensures elsewhere { (i : ℕ) → i < 8 → i ≢ r → bit_at result i ≡ bit_at bits i }
{
    if set { bits | 1 << r } else { bits & !(1 << r) }
}
