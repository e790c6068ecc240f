//! A program as it stands in its file.
ghost use Rattle.std.specs.Prelude.{◌≡◌, ◌↔◌, ◌<◌, ◌≤◌, length, IfOk, Ok, Some, None, slice_get, IfSome, IsSome};
ghost use Rattle.std.specs.List.{AllByRecursion};
ghost use Rattle.hic_isa.specs.Spelling.{IsInstr};

use crate::error::ObjectError;
use crate::reading::whole;
use crate::rules::{counts_fit, entries_fit, instrs_fit, records_fit};
use crate::writing::spell;
use hic_isa::{Instr, SegKind};
use std::alloc::{AllocError, Global};
use std::marker::Model;

/// A word that a segment has at the start.
#[derive(Clone, Copy, Debug, PartialEq, Eq)]
pub struct DataRec {
    /// The number of a segment.
    pub segment: u16,
    pub offset: u32,
    /// Not 0.
    pub value: u64,
}

/// A program of 1 to 16 tasks, 0 to 256 segments, 0 to 1,048,576 data records and 1 to 65,536
/// instructions. It is seen as its entries, kinds of segments, data and code.
#[derive(Drop)]
pub struct Object {
    pub(crate) entries: Vec<u32>,
    pub(crate) kinds: Vec<SegKind>,
    pub(crate) words: Vec<DataRec>,
    pub(crate) code: Vec<Instr>,
}

impl Model for Object {
    ghost use Rattle.hic_object.specs.Parts.{Parts, IsObject, parts};

    ghost Value = { Parts };

    ghost view = { λ o. parts o.entries.items o.kinds.items o.words.items o.code.items };

    ghost invariant = { λ o. IsObject (parts o.entries.items o.kinds.items o.words.items o.code.items) };
}

impl Object {
    ghost use Rattle.hic_object.specs.Parts.{Parts, IsObject, KeepsRules, IsRecord, AreRecords, parts};
    ghost use Rattle.hic_object.specs.Spelled.{spelled, IsSpelled};
    ghost use Rattle.hic_object.specs.Reading.{Gives, object_at};

    /// The object that the bytes spell, all of the bytes.
    pub fn read(alloc: Global, bytes: &[u8]) -> Result<Object, ObjectError>
        // What is read is spelled so.
        ensures found { IfOk result (IsSpelled bytes.now) }
        // What is spelled so is read, unless memory runs out.
        ensures only { (o : Parts) → IsSpelled bytes.now o → Gives (λ x. x) result (Ok o) }
        // Which fault it is.
        ensures exact { Gives (λ x. x) result (object_at bytes.now) }
    {
        let lists = whole(alloc, bytes)?;
        Ok(Object {
            entries: lists.entries,
            kinds: lists.kinds,
            words: lists.words,
            code: lists.code,
        })
    }

    /// The object of these parts. None exactly where they break a rule: there are 1 to 16 tasks, at
    /// most 256 segments, at most 1,048,576 data records and 1 to 65,536 instructions; each entry is
    /// below the number of instructions; each record is of a segment that is there, has a value other
    /// than 0 and stands above the one before it by segment, then by offset.
    pub fn make(
        entries: Vec<u32>,
        kinds: Vec<SegKind>,
        words: Vec<DataRec>,
        code: Vec<Instr>,
    ) -> Option<Object>
        ensures made { IfSome result (λ o. o ≡ parts entries.items kinds.items words.items code.items) }
        ensures object { IfSome result IsObject }
        ensures rules { IsSome result
            ↔ KeepsRules (parts entries.items kinds.items words.items code.items) }
    {
        instrs_fit(&code);
        if counts_fit(entries.len(), kinds.len(), words.len(), code.len())
            && entries_fit(&entries, code.len())
            && records_fit(&words, kinds.len() as u16)
        {
            Some(Object {
                entries,
                kinds,
                words,
                code,
            })
        } else {
            None
        }
    }

    /// The one spelling of the object.
    pub fn write(&self, alloc: Global) -> Result<Vec<u8>, AllocError>
        ensures { IfOk result (λ bytes. bytes.items ≡ spelled self.now) }
    {
        spell(alloc, &self.entries, &self.kinds, &self.words, &self.code)
    }

    /// The number of tasks: 1 to 16.
    pub fn tasks(&self) -> u8
        ensures count { result ≡ length self.now.entries }
        ensures some { 1 ≤ result }
        ensures limit { result ≤ 16 }
    {
        self.entries.len() as u8
    }

    /// The number of segments: 0 to 256.
    pub fn segments(&self) -> u16
        ensures count { result ≡ length self.now.kinds }
        ensures limit { result ≤ 256 }
    {
        self.kinds.len() as u16
    }

    /// The words that the segments have at the start, by segment, then by offset.
    pub fn words(&self) -> &[DataRec]
        ensures words { result.now ≡ self.now.words }
        ensures records { AreRecords (length self.now.kinds) None result.now }
        ensures numbers { AllByRecursion IsRecord result.now }
        ensures limit { length result.now ≤ 1048576 }
    {
        &self.words
    }

    /// The instructions: 1 to 65,536.
    pub fn code(&self) -> &[Instr]
        ensures code { result.now ≡ self.now.code }
        ensures instrs { AllByRecursion IsInstr result.now }
        ensures some { 1 ≤ length result.now }
        ensures limit { length result.now ≤ 65536 }
        // What every object is.
        ensures object { IsObject self.now }
    {
        &self.code
    }

    /// The index of the instruction at which a task begins.
    pub fn entry(&self, task: u8) -> u32
        requires { task < length self.now.entries }
        ensures entry { slice_get self.now.entries task ≡ Some result }
        ensures in_code { result < length self.now.code }
    {
        self.entries[task as usize]
    }

    /// What becomes of a stale commit to a segment.
    pub fn kind(&self, segment: u16) -> SegKind
        requires { segment < length self.now.kinds }
        ensures { slice_get self.now.kinds segment ≡ Some result }
    {
        self.kinds[segment as usize]
    }
}
